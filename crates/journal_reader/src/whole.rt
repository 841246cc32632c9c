//! A whole journal.
ghost use Rattle.std.specs.Prelude.{◌≡◌, ◌<◌, ◌^◌, length, IfOk};
ghost use Rattle.journal_reading.specs.Reading.{run_in, marks_behind, journal_in};
ghost use Rattle.journal_reader.specs.Answers.{IsReading};
ghost use Rattle.journal_reader.specs.Steps.{lines_in, said};

use crate::ending::ended;
use crate::entries::read_entries;
use crate::fault::JournalFault;
use crate::lines::{measure, next_line};
use crate::set_up::{read_header, read_marks, read_repos};
use annex_base::{Items, NoMemory};
use run_data::{RepoView, Run};
use std::alloc::Global;

/// The run of so many entries of these repositories, by the lines behind those.
fn read_behind<'a>(
    alloc: Global,
    count: u64,
    repos: Items<RepoView>,
    text: &'a [u8],
) -> Result<(Option<Run>, &'a [u8]), NoMemory>
    requires few { length repos < 2 ^ 32 }
    ensures { IfOk result (λ x. said x.0 (lines_in x.1.now) ≡ marks_behind count (repos, lines_in text.now)) }
{
    let (tree, rest) = read_marks(alloc, count, text)?;
    let (entries, rest) = read_entries(alloc, count, repos.as_slice(), tree.as_slice(), rest)?;
    let Some(entries) = entries else {
        return Ok((None, rest));
    };
    let marks = Items::new(alloc);
    let run = Run {
        repos,
        entries,
        tree,
        marks,
    };
    Ok((Some(run), rest))
}

/// The run that lines tell, and the lines behind it; where they tell none, the lines from the bad one on.
fn read_run<'a>(alloc: Global, text: &'a [u8]) -> Result<(Option<Run>, &'a [u8]), NoMemory>
    requires few { length text.now < 2 ^ 32 }
    ensures { IfOk result (λ x. said x.0 (lines_in x.1.now) ≡ run_in (lines_in text.now)) }
{
    let Some((line, rest)) = next_line(text) else {
        return Ok((None, text));
    };
    let Some(count) = read_header(line) else {
        return Ok((None, text));
    };
    let (repos, rest) = read_repos(alloc, rest)?;
    read_behind(alloc, count, repos, rest)
}

/// The run that the text tells as a journal, or its first bad line. A reading takes time in proportion to the bytes,
/// times the number of repositories at most, among which names are looked up one by one.
#[tactic(auto, unfolding(journal_reading::specs::Reading::journal_in))]
pub fn read_journal(alloc: Global, bytes: &[u8]) -> Result<Run, JournalFault>
    requires few { length bytes.now < 2 ^ 32 }
    ensures { IsReading result (journal_in bytes.now) }
{
    let (count, tail) = measure(bytes);
    let (run, rest) = read_run(alloc, bytes)?;
    ended(count, tail, run, rest)
}
