//! Copies of entries.
ghost use Rattle.std.specs.Prelude.{◌≡◌, IfOk};

use crate::frame::{sent_copy, taken_copy};
use crate::kind::kind_copy;
use annex_base::{Items, Line, NoMemory};
use run_data::Entry;
use std::alloc::Global;

fn lines_copy(alloc: Global, lines: &[Line]) -> Result<Items<Line>, NoMemory>
    ensures { IfOk result (λ copies. copies ≡ lines.now) }
{
    let mut copies = Items::new(alloc);
    for line in lines {
        copies.push(line.clone()?)?;
    }
    Ok(copies)
}

/// An equal entry.
pub fn entry_copy(alloc: Global, entry: &Entry) -> Result<Entry, NoMemory>
    ensures { IfOk result (λ copy. copy ≡ entry.now) }
{
    let sent = sent_copy(alloc, entry.sent.as_slice())?;
    let lines = lines_copy(alloc, entry.lines.as_slice())?;
    let taken = taken_copy(&entry.taken)?;
    // The last copy that memory may refuse, so that no kind is dropped.
    let kind = kind_copy(&entry.kind)?;
    Ok(Entry {
        time: entry.time,
        count: entry.count,
        repo: entry.repo,
        kind,
        taken,
        sent,
        lines,
    })
}
