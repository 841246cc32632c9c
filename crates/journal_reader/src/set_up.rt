//! What stands before the entries: how many there are, the repositories, and the changes of the tree.
ghost use Rattle.std.specs.Prelude.{◌≡◌, ◌<◌, ◌≤◌, ◌+◌, [], length, IfOk, IfSome, option_map};
ghost use Rattle.journal_reading.specs.Reading.{header, repos_in, marks_in};
ghost use Rattle.journal_reader.specs.Steps.{lines_in, next_repo, next_mark};

use crate::lines::next_line;
use annex_base::{Items, NoMemory};
use journal_fields::{behind, read_large};
use journal_lines::{is_new, read_path_line, read_repo_line};
use run_data::{RepoView, TreeMark};
use std::alloc::Global;

/// How many entries a journal has, by its first line.
pub(crate) fn read_header(line: &[u8]) -> Option<u64>
    ensures { result ≡ header line.now }
{
    let word = behind(line, b"journal ")?;
    read_large(word)
}

/// The next repository, if the next line is that of a new one.
fn next_repo<'a>(
    alloc: Global,
    repos: &[RepoView],
    text: &'a [u8],
) -> Result<Option<(RepoView, &'a [u8])>, NoMemory>
    ensures next { IfOk result (λ o. option_map (λ x. (x.0, lines_in x.1.now)) o ≡ next_repo repos.now (lines_in text.now)) }
    ensures shorter { IfOk result (λ o. IfSome o (λ x. length x.1.now < length text.now)) }
{
    let Some((line, rest)) = next_line(text) else {
        return Ok(None);
    };
    let Some(repo) = read_repo_line(alloc, line)? else {
        return Ok(None);
    };
    if is_new(repos, &repo) {
        Ok(Some((repo, rest)))
    } else {
        Ok(None)
    }
}

/// The repositories.
pub(crate) fn read_repos<'a>(
    alloc: Global,
    text: &'a [u8],
) -> Result<(Items<RepoView>, &'a [u8]), NoMemory>
    ensures repos { IfOk result (λ x. (x.0, lines_in x.1.now) ≡ repos_in [] (lines_in text.now)) }
    ensures few { IfOk result (λ x. length x.0 ≤ length text.now) }
{
    let mut repos = Items::new(alloc);
    let mut rest = text;
    while let Some((repo, after)) = next_repo(alloc, repos.as_slice(), rest)? {
        repos.push(repo)?;
        rest = after;
    }
    Ok((repos, rest))
}

/// The next change of the tree, if the next line is one at a place from the last one on, up to the number of entries.
fn next_mark<'a>(
    alloc: Global,
    last: u32,
    most: u64,
    text: &'a [u8],
) -> Result<Option<(TreeMark, &'a [u8])>, NoMemory>
    ensures next { IfOk result (λ o. option_map (λ x. (x.0, lines_in x.1.now)) o ≡ next_mark last most (lines_in text.now)) }
    ensures shorter { IfOk result (λ o. IfSome o (λ x. length x.1.now < length text.now)) }
{
    let Some((line, rest)) = next_line(text) else {
        return Ok(None);
    };
    let Some(mark) = read_path_line(alloc, line)? else {
        return Ok(None);
    };
    let in_order = last <= mark.place && mark.place as u64 <= most;
    if in_order {
        Ok(Some((mark, rest)))
    } else {
        Ok(None)
    }
}

/// The changes of the tree, in order of their places, of so many entries.
pub(crate) fn read_marks<'a>(
    alloc: Global,
    most: u64,
    text: &'a [u8],
) -> Result<(Items<TreeMark>, &'a [u8]), NoMemory>
    ensures { IfOk result (λ x. (x.0, lines_in x.1.now) ≡ marks_in 0 most (lines_in text.now)) }
{
    let mut marks = Items::new(alloc);
    let mut last = 0;
    let mut rest = text;
    while let Some((mark, after)) = next_mark(alloc, last, most, rest)? {
        last = mark.place;
        marks.push(mark)?;
        rest = after;
    }
    Ok((marks, rest))
}
