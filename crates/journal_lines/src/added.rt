//! Lines that an entry added to a file.
ghost use Rattle.std.specs.Prelude.{◌≡◌, IfOk, option_copied};
ghost use Rattle.journal_reading.specs.Lines.{is_added};
ghost use Rattle.journal_reading.specs.Reading.{next_added};

use crate::order::line_may_follow;
use annex_base::{Line, NoMemory, Text};
use journal_fields::{behind, is_one_line};
use std::alloc::Global;

fn is_added(line: &[u8]) -> bool
    ensures { result ≡ is_added line.now }
{
    is_one_line(line) && line.len() >= 1
}

/// A line that was added, behind the last one: it isn't empty, and they stand in byte order.
pub fn read_added(alloc: Global, last: Option<&Line>, line: &[u8]) -> Result<Option<Line>, NoMemory>
    ensures { IfOk result (λ o. o ≡ next_added (option_copied last.entry) line.now) }
{
    let Some(text) = behind(line, b"| ") else {
        return Ok(None);
    };
    if !is_added(text) {
        return Ok(None);
    }
    if !line_may_follow(last, text) {
        return Ok(None);
    }
    Ok(Some(Text::new(alloc, text)?))
}
