//! The entries of a journal.
ghost use Rattle.std.specs.Prelude.{◌≡◌, ◌<◌, ◌^◌, [], length, IfOk};
ghost use Rattle.journal_reading.specs.Reading.{entries_in};
ghost use Rattle.journal_reader.specs.Steps.{lines_in, said};

use crate::entry::read_entry;
use crate::tree::follow;
use annex_base::{Items, NoMemory};
use annex_key::Tree;
use journal_kinds::Begun;
use run_data::{Entry, RepoView, TreeMark};
use std::alloc::Global;

/// The place behind these entries.
fn place_behind(entries: &[Entry]) -> u64
    ensures { result ≡ length entries.now }
{
    entries.len() as u64
}

/// So many entries; where one is none, the lines from the bad one on.
pub(crate) fn read_entries<'a>(
    alloc: Global,
    count: u64,
    repos: &[RepoView],
    marks: &[TreeMark],
    text: &'a [u8],
) -> Result<(Option<Items<Entry>>, &'a [u8]), NoMemory>
    requires few { length repos.now < 2 ^ 32 }
    ensures { IfOk result (λ x. said x.0 (lines_in x.1.now) ≡ entries_in count repos.now marks.now [] (lines_in text.now)) }
{
    let mut entries = Items::new(alloc);
    let mut begun = Begun::new(alloc);
    let mut tree = Tree::new(alloc)?;
    let mut later = marks;
    let mut rest = text;
    let mut left = count;
    while left > 0 {
        let place = place_behind(entries.as_slice());
        let marks_behind = follow(&mut tree, alloc, later, place)?;
        later = marks_behind;
        let (entry, after) = read_entry(alloc, repos, &tree, &begun, rest)?;
        rest = after;
        let Some(entry) = entry else {
            return Ok((None, rest));
        };
        begun.note(&entry)?;
        entries.push(entry)?;
        left -= 1;
    }
    Ok((Some(entries), rest))
}
