//! Compaction: a log file's lines without those that are outdated.

ghost use Rattle.std.specs.Prelude.{◌≡◌, IfOk, length, nat_lt};
ghost use Rattle.log_lines.specs.Newest.{current_lines, has_outdated};

use crate::entry::LogKind;
use crate::index::Newest;
use annex_base::{Line, NoMemory};
use std::alloc::Global;

/// The lines without those whose entry is older than another line's on the same topic. A line that is outside the
/// grammar stays, and so do the newest lines of each topic (own).
pub fn compact(alloc: Global, kind: LogKind, lines: Vec<Line>) -> Result<Vec<Line>, NoMemory>
    ensures { IfOk result (λ v. v.items ≡ current_lines kind lines.items) }
{
    let index = Newest::read(alloc, kind, &lines)?;
    let mut kept = Vec::new(alloc);
    for line in lines {
        if !index.outdates(&line)? {
            kept.push(line)?;
        }
    }
    Ok(kept)
}

/// Whether compaction leaves out a line. It costs a reading of the lines, and copies none.
pub fn has_outdated(alloc: Global, kind: LogKind, lines: &[Line]) -> Result<bool, NoMemory>
    ensures value { IfOk result (λ b. b ≡ has_outdated kind lines.now) }
    ensures fewer { IfOk result (λ b. b ≡ nat_lt (length (current_lines kind lines.now)) (length lines.now)) }
{
    let index = Newest::read(alloc, kind, lines)?;
    for line in lines {
        if index.outdates(line)? {
            return Ok(true);
        }
    }
    Ok(false)
}
