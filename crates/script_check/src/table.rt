//! A table of texts, and of what each says as a script.

use annex_base::NoMemory;
use script_lang::{Script, ScriptFault};
use std::alloc::Global;
use table_cases::{TableFault, Tally, spelled};

/// What the text says, by one word: the number of its commands, the line and the byte of its first fault, or the
/// quantity of which it has too much.
fn reading(alloc: Global, text: &[u8]) -> Result<String, NoMemory> {
    let mut word = String::new(alloc);
    match Script::parse(alloc, text) {
        Ok(script) => write!(word, "{}", script.lines().len())?,
        Err(ScriptFault::BadLine { line, byte }) => write!(word, "{line}:{byte}")?,
        Err(ScriptFault::TooMuch { quantity }) => word.push_str(quantity.name())?,
        Err(ScriptFault::NoMemory) => return Err(NoMemory),
    }
    Ok(word)
}

/// What stands in front of each text and behind it, and how many texts there were.
#[derive(Drop)]
pub struct Table {
    front: Vec<u8>,
    back: Vec<u8>,
    tally: Tally,
}

impl Table {
    /// A table without lines.
    pub fn new(alloc: Global) -> Table {
        Table {
            front: Vec::new(alloc),
            back: Vec::new(alloc),
            tally: Tally::new(),
        }
    }

    /// Takes a line: `front TEXT`, `back TEXT`, `READING TEXT`, a comment after `# `, or nothing. Where a text is read
    /// otherwise, it says how.
    pub fn take_line(&mut self, alloc: Global, line: &str) -> Result<Option<String>, TableFault> {
        let (word, text) = match line.split_once(' ') {
            Some(parts) => parts,
            None => (line, ""),
        };
        match word {
            "" | "#" => Ok(None),
            "front" => {
                self.front = spelled(alloc, text)?;
                Ok(None)
            }
            "back" => {
                self.back = spelled(alloc, text)?;
                Ok(None)
            }
            _ => self.compare(alloc, word, &spelled(alloc, text)?),
        }
    }

    /// Reads the text, between what stands around it.
    fn compare(
        &mut self,
        alloc: Global,
        wanted: &str,
        text: &[u8],
    ) -> Result<Option<String>, TableFault> {
        let mut whole = self.front.clone()?;
        whole.extend_from_slice(text)?;
        whole.extend_from_slice(&self.back)?;
        let found = reading(alloc, &whole)?;
        let as_wanted = found.as_str() == wanted;
        self.tally.count(as_wanted);
        Ok(if as_wanted { None } else { Some(found) })
    }

    /// How many texts it has, and how many of them are read otherwise.
    pub fn tally(&self) -> &Tally {
        &self.tally
    }
}
