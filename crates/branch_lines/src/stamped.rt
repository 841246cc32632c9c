//! The lines of entries that are added to a branch's logs, at a clock.
ghost use Rattle.std.specs.Prelude.{◌≡◌, ℕ, Some, IfOk, ◌<◌};
ghost use Rattle.std.specs.Option.{option_copied};
ghost use Rattle.log_lines.specs.LineText.{line_text};
ghost use Rattle.log_lines.specs.Newest.{newest_stamp, stamp_in};
ghost use Rattle.node_model.specs.OwedLines.{stamp_at, status, status_line};
ghost use Rattle.run_data.specs.Files.{HasPath};
ghost use Rattle.union_merge.specs.Branch.{lines_at};
ghost use Rattle.union_merge.specs.LineSet.{IsLine};
ghost use Rattle.branch_lines.specs.Logs.{IsLogOf, log_of, with_next_stamp};
ghost use Rattle.run_data.specs.declared.entry.Entry.{Entry};
ghost use Rattle.run_data.specs.declared.entry.LogFile.{LogFile};

use annex_base::{Line, NoMemory, RepoId, Stamp};
use annex_key::Key;
use log_lines::{Entry, LogKind, Topic, Value, newest_of, next_stamp, write_line};
use run_data::LogFile;
use std::alloc::Global;
use union_merge::Branch;

/// The log of this kind, that of the key where it is a location log.
pub fn log_of(kind: LogKind, key: Option<&Key>) -> Result<LogFile, NoMemory>
    requires { IsLogOf kind (option_copied key) }
    ensures value { IfOk result (λ file. file ≡ log_of kind (option_copied key.entry)) }
    ensures path { IfOk result HasPath }
{
    match key {
        None => Ok(LogFile::Of(kind)),
        Some(key) => {
            // For the proof: the text of a key is in the grammar, so its log has a path.
            let _ = key.text();
            Ok(LogFile::Location(key.clone()?))
        }
    }
}

fn stamp_of(entry: Option<Entry>) -> Option<Stamp>
    ensures { result ≡ stamp_in entry }
{
    entry?.stamp
}

/// The newest stamp of the topic in a file of the branch.
fn newest_stamp(
    alloc: Global,
    branch: &Branch,
    path: &[u8],
    kind: LogKind,
    topic: &Topic,
) -> Result<Option<Stamp>, NoMemory>
    ensures { IfOk result (λ stamp. stamp ≡ newest_stamp kind (lines_at branch.now path.now) topic.now) }
{
    let Some(lines) = branch.file(path) else {
        return Ok(None);
    };
    let newest = newest_of(alloc, kind, lines.lines(), topic)?;
    Ok(stamp_of(newest))
}

/// The entry with this stamp.
fn with_stamp(entry: &Entry, stamp: Stamp) -> Result<Entry, NoMemory>
    ensures { IfOk result (λ e. e ≡ record entry.now { stamp = Some stamp }) }
{
    Ok(Entry {
        topic: entry.topic.clone()?,
        stamp: Some(stamp),
        value: entry.value.clone()?,
    })
}

/// The line of the entry as it is added to a file of the branch at this clock.
pub fn line_at(
    alloc: Global,
    branch: &Branch,
    path: &[u8],
    clock: Stamp,
    kind: LogKind,
    entry: &Entry,
) -> Result<Line, NoMemory>
    ensures { IfOk result (λ line. line ≡ line_text kind (with_next_stamp kind (lines_at branch.now path.now) clock entry.now)) }
{
    let newest = newest_stamp(alloc, branch, path, kind, &entry.topic)?;
    let stamped = with_stamp(entry, next_stamp(newest, clock))?;
    let line = write_line(alloc, kind, &stamped)?;
    Ok(line)
}

fn status(there: bool) -> Value
    ensures { result ≡ status there }
{
    if there { Value::Present } else { Value::Absent }
}

/// The line of a key's location log that says whether a repository has the content, at this clock.
pub fn status_line(
    alloc: Global,
    branch: &Branch,
    path: &[u8],
    id: RepoId,
    there: bool,
    clock: Stamp,
) -> Result<Line, NoMemory>
    ensures text { (time : ℕ) → clock ≡ stamp_at time → IfOk result (λ line. line ≡ status_line (lines_at branch.now path.now) id there time) }
    ensures line { IfOk result IsLine }
{
    let entry = Entry {
        topic: Topic::Repo(id),
        stamp: None,
        value: status(there),
    };
    let line = line_at(alloc, branch, path, clock, LogKind::Location, &entry)?;
    Ok(line)
}
