//! The globs of patterns of paths, kept while lines are added.

ghost use Rattle.std.specs.Prelude.{◌≡◌, true, OnErr, OnOk, Some};
ghost use Rattle.log_lines.specs.Reading.{entry_of};
ghost use Rattle.trust_groups.specs.Globs.{AreKept, HasGlob, HaveGlobs, KeepGlobs, is_by_path, pattern_of, pattern_said};
ghost use Rattle.trust_groups.specs.Reads.{HaveReadLines, kind_at, lines_with, view_of};
ghost use Rattle.trust_groups.specs.Settings.{Lines};

use crate::indices::{add_line, kind_at};
use annex_base::{Line, NoMemory, Text};
use glob_match::Glob;
use log_lines::{Entry, LogKind, Newest, Topic, read_line};
use std::alloc::Global;
use std::collections::BTreeMap;

/// Of each pattern of paths, the glob that it spells, if it spells one.
pub(crate) type Globs = BTreeMap<Text, Option<Glob>>;

fn is_by_path(kind: LogKind) -> bool
    ensures { result ≡ is_by_path kind }
{
    matches!(kind, LogKind::NumcopiesPath | LogKind::MincopiesPath)
}

fn pattern_in(entry: Entry) -> Option<Text>
    ensures { result ≡ pattern_of entry.topic }
{
    let Entry {
        topic,
        stamp: _,
        value: _,
    } = entry;
    match topic {
        Topic::Pattern(pattern) => Some(pattern),
        Topic::Repo(_) | Topic::Group(_) | Topic::Whole => None,
    }
}

fn pattern_said(entry: Option<Entry>) -> Option<Text>
    ensures { result ≡ pattern_said entry }
{
    match entry {
        Some(entry) => pattern_in(entry),
        None => None,
    }
}

/// Keeps the glob that the pattern spells.
fn keep_pattern(globs: &mut Globs, alloc: Global, pattern: Text) -> Result<(), NoMemory>
    ensures keeps { KeepGlobs globs.old.entries globs.new.entries }
    ensures has { OnOk result (HasGlob globs.new.entries (Some pattern)) }
{
    let glob = Glob::spelled(alloc, pattern.bytes())?;
    globs.insert(pattern, glob)?;
    Ok(())
}

/// Keeps the glob of the pattern of which the line speaks, if it speaks of one, in a log file of this kind.
fn keep_said(globs: &mut Globs, alloc: Global, kind: LogKind, line: &Line) -> Result<(), NoMemory>
    ensures keeps { KeepGlobs globs.old.entries globs.new.entries }
    ensures has { OnOk result (HasGlob globs.new.entries (pattern_said (entry_of kind line.now))) }
{
    let entry = read_line(alloc, kind, line.bytes())?;
    match pattern_said(entry) {
        Some(pattern) => keep_pattern(globs, alloc, pattern),
        None => Ok(()),
    }
}

fn keep_all(globs: &mut Globs, alloc: Global, kind: LogKind, lines: &[Line]) -> Result<(), NoMemory>
    ensures keeps { KeepGlobs globs.old.entries globs.new.entries }
    ensures have { OnOk result (HaveGlobs globs.new.entries kind lines.now) }
{
    for line in lines {
        keep_said(globs, alloc, kind, line)?;
    }
    Ok(())
}

/// Keeps the glob of the pattern of the line, which is one of the file of this path, where that has numbers by path.
fn keep_glob(globs: &mut Globs, alloc: Global, path: &[u8], line: &Line) -> Result<(), NoMemory>
    ensures keeps { KeepGlobs globs.old.entries globs.new.entries }
    ensures has { OnOk result (is_by_path (kind_at path.now) ≡ true → HasGlob globs.new.entries (pattern_said (entry_of (kind_at path.now) line.now))) }
{
    let kind = kind_at(path);
    if is_by_path(kind) {
        keep_said(globs, alloc, kind, line)
    } else {
        Ok(())
    }
}

/// Adds a line of the file of this path, and keeps the glob of its pattern.
pub(crate) fn add_kept(
    files: &mut BTreeMap<Vec<u8>, Newest>,
    globs: &mut Globs,
    alloc: Global,
    path: &[u8],
    line: &Line,
) -> Result<(), NoMemory>
    ensures kept { AreKept globs.old.entries (view_of files.old.entries) → AreKept globs.new.entries (view_of files.new.entries) }
    ensures reads { OnOk result ((lines : Lines) → HaveReadLines (view_of files.old.entries) lines → HaveReadLines (view_of files.new.entries) (lines_with lines path.now line.now)) }
    ensures err { OnErr result (view_of files.new.entries ≡ view_of files.old.entries) }
{
    keep_glob(globs, alloc, path, line)?;
    add_line(files, alloc, path, line)
}

/// Keeps the globs of the patterns of a file's lines.
pub(crate) fn keep_globs(
    globs: &mut Globs,
    alloc: Global,
    path: &[u8],
    lines: &[Line],
) -> Result<(), NoMemory>
    ensures keeps { KeepGlobs globs.old.entries globs.new.entries }
    ensures have { OnOk result (is_by_path (kind_at path.now) ≡ true → HaveGlobs globs.new.entries (kind_at path.now) lines.now) }
{
    let kind = kind_at(path);
    if is_by_path(kind) {
        keep_all(globs, alloc, kind, lines)
    } else {
        Ok(())
    }
}
