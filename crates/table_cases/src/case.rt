//! A case of a table: what is asked, of which texts, and the answer.

use crate::fault::TableFault;
use crate::spelling::spelled;
use annex_base::parse_decimal;
use std::alloc::Global;

/// What is asked, of which texts, and the answer that the table gives.
#[derive(Drop)]
pub struct Case {
    question: Vec<u8>,
    texts: Vec<Vec<u8>>,
    answer: Vec<u8>,
}

/// The texts, which stand apart by ` | `.
fn texts_of(alloc: Global, text: &str) -> Result<Vec<Vec<u8>>, TableFault> {
    let mut texts = Vec::new(alloc);
    for piece in text.split(" | ") {
        texts.push(spelled(alloc, piece)?)?;
    }
    Ok(texts)
}

impl Case {
    /// The case of the line `QUESTION TEXT | TEXT .. -> ANSWER`, in which the texts and the answer may be empty; none of
    /// an empty line, or of a comment after `#`.
    pub fn of_line(alloc: Global, line: &str) -> Result<Option<Case>, TableFault> {
        if line.is_empty() || line.starts_with('#') {
            return Ok(None);
        }
        let Some((asked, answer)) = line.split_once(" ->") else {
            return Err(TableFault::Wrong);
        };
        let answer = answer.strip_prefix(' ').unwrap_or(answer);
        let (question, texts) = asked.split_once(' ').unwrap_or((asked, ""));
        Ok(Some(Case {
            question: Vec::from_slice(alloc, question.as_bytes())?,
            texts: texts_of(alloc, texts)?,
            answer: spelled(alloc, answer)?,
        }))
    }

    /// The first word of the line.
    pub fn question(&self) -> &[u8] {
        &self.question
    }

    /// The texts after it.
    pub fn texts(&self) -> &[Vec<u8>] {
        &self.texts
    }

    /// The text at this place, from 0; the empty text where there are fewer.
    pub fn text(&self, at: usize) -> &[u8] {
        match self.texts.get(at) {
            Some(text) => text,
            None => b"",
        }
    }

    /// The number that the text at this place spells in decimal digits.
    pub fn number(&self, at: usize) -> Result<u64, TableFault> {
        parse_decimal(self.text(at)).ok_or(TableFault::Wrong)
    }

    /// The answer that the table gives.
    pub fn answer(&self) -> &[u8] {
        &self.answer
    }
}
