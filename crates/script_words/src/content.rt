//! Contents as a script describes them.
ghost use Rattle.std.specs.Prelude.{◌≡◌, IfOk, length};
ghost use Rattle.std.specs.List.{position_or_len, before_first, after_first};
ghost use Rattle.script_words.specs.Contents.{is_colon, fill_numbers, text_content, hex_content, fill_content, content_of, piece, with_front};

use crate::filling::{copy_piece, fill_piece};
use crate::marks::behind;
use crate::numbers::read_number;
use annex_base::{NoMemory, Text, parse_decimal};
use hex::FromHexError;
use std::alloc::Global;
use std::marker::Model;

/// How the bytes are held.
#[derive(Clone, Debug, Drop)]
enum Form {
    Bytes(Text),
    Fill { size: u64, start: u8 },
}

/// A content, which contracts see as the list of its bytes. It is held as it was described, so a long filling takes no
/// memory.
#[derive(Clone, Debug, Drop)]
pub struct Content {
    form: Form,
}

impl Model for Content {
    ghost use Rattle.std.specs.Prelude.{List, ℕ};
    ghost use Rattle.script_words.specs.Forms.{form_bytes};

    ghost Value = { List ℕ };

    ghost view = { λ c. form_bytes c.form };
}

impl Content {
    /// The content that the word describes: `text:` and a text, `hex:` and hexadecimal digits, or `fill:N:S`.
    pub fn parse(alloc: Global, word: &[u8]) -> Result<Option<Content>, NoMemory>
        ensures { IfOk result (λ o. o ≡ content_of word.now) }
    {
        read_content(alloc, word)
    }

    fn from_text(bytes: Text) -> Content
        ensures { result ≡ bytes }
    {
        Content {
            form: Form::Bytes(bytes),
        }
    }

    /// The number of bytes.
    pub fn size(&self) -> u64
        ensures { result ≡ length self.now }
    {
        match &self.form {
            Form::Bytes(bytes) => bytes.bytes().len() as u64,
            Form::Fill { size, .. } => *size,
        }
    }

    /// Writes the bytes from a place on to the front of the room, as many as there are and fit, and tells how many.
    pub fn piece(&self, at: u64, room: &mut [u8]) -> usize
        ensures count { result ≡ length (piece self.now at (length room.old)) }
        ensures front { room.new ≡ with_front (piece self.now at (length room.old)) room.old }
    {
        match &self.form {
            Form::Bytes(bytes) => copy_piece(bytes.bytes(), at, room),
            Form::Fill { size, start } => fill_piece(*size, *start, at, room),
        }
    }

    /// An equal content.
    pub fn copy(&self) -> Result<Content, NoMemory>
        ensures { IfOk result (λ c. c ≡ self.now) }
    {
        Ok(self.clone()?)
    }
}

fn read_text(alloc: Global, word: &[u8]) -> Result<Option<Content>, NoMemory>
    ensures { IfOk result (λ o. o ≡ text_content word.now) }
{
    let Some(text) = behind(word, b"text:") else {
        return Ok(None);
    };
    let text = Text::new(alloc, text)?;
    Ok(Some(Content::from_text(text)))
}

fn read_hex(alloc: Global, word: &[u8]) -> Result<Option<Content>, NoMemory>
    ensures { IfOk result (λ o. o ≡ hex_content word.now) }
{
    let Some(digits) = behind(word, b"hex:") else {
        return Ok(None);
    };
    match hex::decode(alloc, digits) {
        Ok(bytes) => {
            let bytes = Text::from_vec(bytes);
            Ok(Some(Content::from_text(bytes)))
        }
        Err(FromHexError::OutOfMemory) => Err(NoMemory),
        Err(_) => Ok(None),
    }
}

fn colon_len(text: &[u8]) -> usize
    ensures { result ≡ position_or_len is_colon text.now }
{
    text.iter().take_while(|b| **b != b':').count()
}

/// What stands before the first colon, and behind it.
fn split_colon(text: &[u8]) -> (&[u8], &[u8])
    ensures front { result.0.now ≡ before_first is_colon text.now }
    ensures back { result.1.now ≡ after_first is_colon text.now }
{
    let end = colon_len(text);
    let (front, rest) = text.split_at(end);
    match rest.split_first() {
        None => (front, rest),
        Some((_, behind)) => (front, behind),
    }
}

#[tactic(auto, unfolding(crate::specs::Contents::fill_numbers))]
fn read_fill_numbers(text: &[u8]) -> Option<(u64, u8)>
    ensures { result ≡ fill_numbers text.now }
{
    let (size, start) = split_colon(text);
    let size = parse_decimal(size)?;
    let start = read_number(start, 250)?;
    Some((size, start as u8))
}

fn read_fill(word: &[u8]) -> Option<Content>
    ensures { result ≡ fill_content word.now }
{
    let text = behind(word, b"fill:")?;
    let (size, start) = read_fill_numbers(text)?;
    Some(Content {
        form: Form::Fill { size, start },
    })
}

#[tactic(auto, unfolding(crate::specs::Contents::content_of))]
fn read_content(alloc: Global, word: &[u8]) -> Result<Option<Content>, NoMemory>
    ensures { IfOk result (λ o. o ≡ content_of word.now) }
{
    if let Some(content) = read_text(alloc, word)? {
        return Ok(Some(content));
    }
    if let Some(content) = read_hex(alloc, word)? {
        return Ok(Some(content));
    }
    Ok(read_fill(word))
}
