//! The newest entries of a log file's lines.

ghost use Rattle.std.specs.Prelude.{◌≡◌, IfOk};
ghost use Rattle.log_lines.specs.Newest.{newest, IsReading};

use crate::entry::{Entry, LogKind};
use crate::index::Newest;
use annex_base::{Line, NoMemory};
use std::alloc::Global;

/// The newest entry of each topic that the lines of a log file speak of, in order of topic; a line is given without
/// its newline, and one that is outside the grammar says nothing (git-annex internals: branch files). Of two entries of
/// one stamp the preferred value is the newer: `X` before `0` before `1`, the lesser trust, the greater number, the text
/// or list of groups that is greater in byte order (own).
pub fn newest(alloc: Global, kind: LogKind, lines: &[Line]) -> Result<Vec<Entry>, NoMemory>
    ensures reading { IfOk result (λ v. IsReading kind lines.now v.items) }
    ensures exact { IfOk result (λ v. v.items ≡ newest kind lines.now) }
{
    let index = Newest::read(alloc, kind, lines)?;
    index.into_entries()
}
