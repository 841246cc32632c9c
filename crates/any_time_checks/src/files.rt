//! What the script may log and compact.
ghost use Rattle.std.specs.Prelude.{◌≡◌, ◌==◌, IfOk, is_none, length, nat_lt, not, option_copied};
ghost use Rattle.std.specs.List.{list_all};
ghost use Rattle.annex_base.specs.Lines.{newline};
ghost use Rattle.annex_key.specs.View.{first_fault};
ghost use Rattle.node_model.specs.Files.{compact_lines};
ghost use Rattle.node_model.specs.State.{State};
ghost use Rattle.state_files.specs.Files.{AreFilesOf};
ghost use Rattle.step_judging.specs.Rules.{has_path, is_one_line, is_rising, may_compact, may_log};
ghost use Rattle.union_merge.specs.Branch.{or_none};
ghost use Rattle.union_merge.specs.LineSet.{has_line};
ghost use Rattle.any_time_checks.specs.Coming.{is_behind};

use annex_base::{Line, NoMemory};
use annex_key::{Key, key_texts_have_no_fault};
use branch_lines::current_lines;
use log_lines::LogKind;
use run_data::LogFile;
use state_files::Files;
use std::alloc::Global;
use std::cmp::Ordering;
use union_merge::LineSet;

/// Whether these lines may be added to the file: they are in byte order, each once, and new there.
pub(crate) fn may_log(
    alloc: Global,
    files: &Files,
    file: &LogFile,
    lines: &[Line],
) -> Result<bool, NoMemory>
    ensures { IfOk result (λ b. (st : State) → AreFilesOf files.now st → b ≡ may_log st file.now lines.now) }
{
    if !(has_path(file) && file.kind().is_some() && is_rising(lines) && are_lines(lines)) {
        return Ok(false);
    }
    let path = file.path(alloc)?;
    Ok(are_new(files.branch().file(path.bytes()), lines))
}

/// Whether a compaction of the file takes a line away.
pub(crate) fn may_compact(alloc: Global, files: &Files, file: &LogFile) -> Result<bool, NoMemory>
    ensures { IfOk result (λ b. (st : State) → AreFilesOf files.now st → b ≡ may_compact st file.now) }
{
    let path = file.path(alloc)?;
    match files.branch().file(path.bytes()) {
        Some(lines) => shrinks(alloc, file.kind(), lines),
        None => Ok(false),
    }
}

fn shrinks(alloc: Global, kind: Option<LogKind>, lines: &LineSet) -> Result<bool, NoMemory>
    ensures { IfOk result (λ b. b ≡ nat_lt (length (compact_lines kind lines.now)) (length lines.now)) }
{
    match kind {
        Some(kind) => {
            let current = current_lines(alloc, kind, lines.lines())?;
            Ok(current.lines().len() < lines.lines().len())
        }
        None => Ok(false),
    }
}

fn has_path(file: &LogFile) -> bool
    ensures { result ≡ has_path file.now }
{
    match file {
        LogFile::Location(key) => is_keys(key),
        LogFile::Of(LogKind::Location) => false,
        LogFile::Of(_) => true,
        LogFile::Other(name) => is_one_line(name),
    }
}

/// Whether the text of a key is one: each is.
pub(crate) fn is_keys(key: &Key) -> bool
    ensures { result ≡ is_none (first_fault key.now) }
{
    // For the proof: the text of a key is a key's, and that has no fault.
    key_texts_have_no_fault();
    let _ = key.text();
    true
}

/// Whether the text is a line: it isn't empty, and has no newline.
fn is_one_line(text: &Line) -> bool
    ensures { result ≡ is_one_line text.now }
{
    !text.bytes().is_empty() && has_no_newline(text.bytes())
}

fn has_no_newline(bytes: &[u8]) -> bool
    ensures { result ≡ list_all (λ b. not (b == newline)) bytes.now }
{
    bytes.iter().all(|b| *b != b'\n')
}

fn are_lines(lines: &[Line]) -> bool
    ensures { result ≡ list_all is_one_line lines.now }
{
    lines.iter().all(|line| is_one_line(line))
}

/// Whether the lines are in byte order, each once.
fn is_rising(lines: &[Line]) -> bool
    ensures { result ≡ is_rising lines.now }
{
    let mut last = None;
    for line in lines {
        if !is_behind(last, line) {
            return false;
        }
        last = Some(line);
    }
    true
}

/// Whether the line comes after the last one, if there is one.
fn is_behind(last: Option<&Line>, line: &Line) -> bool
    ensures { result ≡ is_behind (option_copied last.entry) line.now }
{
    match last {
        Some(last) => last.cmp(line) == Ordering::Less,
        None => true,
    }
}

/// Whether a file with these lines has none of the others.
fn are_new(had: Option<&LineSet>, lines: &[Line]) -> bool
    ensures { result ≡ list_all (λ line. not (has_line (or_none (option_copied had.entry)) line)) lines.now }
{
    lines.iter().all(|line| !has(had, line))
}

fn has(had: Option<&LineSet>, line: &Line) -> bool
    ensures { result ≡ has_line (or_none (option_copied had.entry)) line.now }
{
    match had {
        Some(lines) => lines.contains(line.bytes()),
        None => false,
    }
}
