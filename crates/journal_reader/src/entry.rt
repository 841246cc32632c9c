//! An entry.
ghost use Rattle.std.specs.Prelude.{◌≡◌, ◌<◌, ◌^◌, List, length, IfOk};
ghost use Rattle.run_data.specs.declared.entry.Entry.{Entry};
ghost use Rattle.journal_kinds.specs.Begun.{AreBegun};
ghost use Rattle.journal_reading.specs.Reading.{taken_in, frames_behind};
ghost use Rattle.journal_reader.specs.Heads.{as_head};
ghost use Rattle.journal_reader.specs.Steps.{lines_in, said, entry_by};

use crate::frames::{read_lines, read_sent, read_taken};
use crate::head::{Head, read_head};
use crate::lines::next_line;
use annex_base::NoMemory;
use annex_key::Tree;
use journal_kinds::Begun;
use run_data::{Entry, RepoView};
use std::alloc::Global;

/// The entry of this first line, by the lines behind it.
fn read_behind<'a>(
    alloc: Global,
    repos: &[RepoView],
    head: Head,
    text: &'a [u8],
) -> Result<(Option<Entry>, &'a [u8]), NoMemory>
    requires few { length repos.now < 2 ^ 32 }
    ensures { IfOk result (λ x. said x.0 (lines_in x.1.now) ≡ frames_behind repos.now (as_head head) (taken_in repos.now (lines_in text.now))) }
{
    let (taken, rest) = read_taken(alloc, repos, text)?;
    let (sent, rest) = read_sent(alloc, repos, rest)?;
    let (added, rest) = read_lines(alloc, head.adds, rest)?;
    let Some(lines) = added else {
        return Ok((None, rest));
    };
    let entry = Entry {
        time: head.time,
        count: head.count,
        repo: head.repo,
        kind: head.kind,
        taken,
        sent,
        lines,
    };
    Ok((Some(entry), rest))
}

/// The next entry, by the tree at its place and the jobs that were begun before; where there is none, the lines from
/// the bad one on.
pub(crate) fn read_entry<'a>(
    alloc: Global,
    repos: &[RepoView],
    tree: &Tree,
    begun: &Begun,
    text: &'a [u8],
) -> Result<(Option<Entry>, &'a [u8]), NoMemory>
    requires few { length repos.now < 2 ^ 32 }
    ensures { (past : List Entry) → AreBegun past begun.now → IfOk result (λ x. said x.0 (lines_in x.1.now) ≡ entry_by repos.now tree.now past (lines_in text.now)) }
{
    let Some((line, rest)) = next_line(text) else {
        return Ok((None, text));
    };
    let Some(head) = read_head(alloc, repos, tree, begun, line)? else {
        return Ok((None, text));
    };
    read_behind(alloc, repos, head, rest)
}
