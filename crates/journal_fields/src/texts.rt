//! Texts of one line.
ghost use Rattle.std.specs.Prelude.{◌≡◌, IfOk};
ghost use Rattle.annex_base.specs.Lines.{is_one_line};
ghost use Rattle.journal_reading.specs.Forms.{passing};
ghost use Rattle.journal_reading.specs.Lines.{is_line_path};

use annex_base::{NoMemory, Text};
use script_words::is_path;
use std::alloc::Global;

/// Whether the text has no newline.
pub fn is_one_line(text: &[u8]) -> bool
    ensures { result ≡ is_one_line text.now }
{
    text.iter().all(|b| *b != b'\n')
}

/// A text of one line, as it is.
pub fn read_line(alloc: Global, word: &[u8]) -> Result<Option<Text>, NoMemory>
    ensures { IfOk result (λ o. o ≡ (passing is_one_line).read word.now) }
{
    if is_one_line(word) {
        Ok(Some(Text::new(alloc, word)?))
    } else {
        Ok(None)
    }
}

/// Whether the text may be a path in the tree, and has no newline.
pub fn is_line_path(path: &[u8]) -> bool
    ensures { result ≡ is_line_path path.now }
{
    is_path(path) && is_one_line(path)
}
