//! Which entry pays the line that is owed first.
ghost use Rattle.std.specs.Prelude.{◌≡◌, ◌<◌, ◌≤◌, bytes_eq, length, IfOk};
ghost use Rattle.annex_base.specs.Lists.{Each};
ghost use Rattle.hash_dirs.specs.LogPath.{location_path};
ghost use Rattle.node_model.specs.OwedLines.{stamp_at};
ghost use Rattle.state_owed.specs.Lines.{IsWithin};
ghost use Rattle.state_owed.specs.Paying.{due_of, id_in, is_due, is_paid};

use crate::debts::{Debt, first};
use annex_base::{Line, NoMemory, RepoId, Stamp};
use branch_lines::{if_new, same_lines, status_line};
use hash_dirs::location_path;
use run_data::LogFile;
use std::alloc::Global;
use std::collections::VecDeque;
use union_merge::{Branch, LineSet};

/// The script's time 0 in milliseconds since 1970 (own).
const SCRIPT_START: u64 = 1_700_000_000_000;

fn stamp_at(clock: u64) -> Stamp
    requires { clock ≤ 1100000000000 }
    ensures { result ≡ stamp_at clock }
{
    Stamp {
        nanos: (SCRIPT_START + clock) * 1_000_000,
    }
}

fn id_in(ids: &[RepoId], repo: u32) -> RepoId
    requires { repo < length ids.now }
    ensures { result ≡ id_in ids.now repo }
{
    ids[repo as usize]
}

fn same_path(path: &[u8], other: &[u8]) -> bool
    ensures { result ≡ bytes_eq path.now other.now }
{
    path == other
}

/// What the log at this path, which is that of the line's key, lacks of the line at this clock.
fn due_of(
    alloc: Global,
    ids: &[RepoId],
    branch: &Branch,
    clock: u64,
    line: &Debt,
    path: &[u8],
) -> Result<LineSet, NoMemory>
    requires clock { clock ≤ 1100000000000 }
    requires within { IsWithin (length ids.now) line.now }
    requires path { path.now ≡ location_path line.now.key }
    ensures { IfOk result (λ s. s ≡ due_of ids.now branch.now clock line.now) }
{
    let id = id_in(ids, line.repo);
    let stamp = stamp_at(clock);
    let text = status_line(alloc, branch, path, id, line.there, stamp)?;
    if_new(alloc, branch, path, text.bytes())
}

/// Whether new lines of a file are just what the line is due at this clock.
fn is_due(
    alloc: Global,
    ids: &[RepoId],
    branch: &Branch,
    clock: u64,
    line: &Debt,
    file: &LogFile,
    new: &[Line],
) -> Result<bool, NoMemory>
    requires clock { clock ≤ 1100000000000 }
    requires within { IsWithin (length ids.now) line.now }
    ensures { IfOk result (λ b. b ≡ is_due ids.now branch.now clock new.now file.now line.now) }
{
    let path = file.path(alloc)?;
    let here = location_path(alloc, &line.key)?;
    let same = same_path(path.bytes(), here.bytes());
    if !same {
        return Ok(false);
    }
    let due = due_of(alloc, ids, branch, clock, line, here.bytes())?;
    Ok(same_lines(new, due.lines()))
}

/// Whether new lines of a file are just what the first of these lines is due at this clock.
pub(crate) fn is_paid(
    alloc: Global,
    ids: &[RepoId],
    branch: &Branch,
    clock: u64,
    lines: &VecDeque<Debt>,
    file: &LogFile,
    new: &[Line],
) -> Result<bool, NoMemory>
    requires clock { clock ≤ 1100000000000 }
    requires within { Each (IsWithin (length ids.now)) lines.now.items }
    ensures { IfOk result (λ b. b ≡ is_paid ids.now branch.now clock new.now file.now lines.now.items) }
{
    match first(lines) {
        Some(line) => is_due(alloc, ids, branch, clock, line, file, new),
        None => Ok(false),
    }
}
