//! Lines of group.log, and the names of groups.

ghost use Rattle.std.specs.Prelude.{◌≡◌, length, map, IfOk};
ghost use Rattle.std.specs.List.{list_all, slice_split};
ghost use Rattle.log_grammar.specs.LineText.{is_group_byte, is_group};
ghost use Rattle.annex_base.specs.Lines.{is_space};
ghost use Rattle.log_grammar.specs.Reading.{all_groups, groups_after, group_body, groups_of};

use crate::entry::{Entry, Topic, Value};
use crate::group_list::GroupList;
use crate::repo::split_repo_line;
use annex_base::{NoMemory, Text};
use std::alloc::{AllocError, Global};

fn all_group_bytes(word: &[u8]) -> bool
    ensures { result ≡ list_all is_group_byte word.now }
{
    word.iter().all(|b| !b.is_ascii_control() && *b != b' ')
}

/// Whether the word may name a group.
pub(crate) fn is_group(word: &[u8]) -> bool
    ensures { result ≡ is_group word.now }
{
    match word {
        [] => false,
        _ => all_group_bytes(word),
    }
}

fn words(alloc: Global, text: &[u8]) -> Result<Vec<&[u8]>, AllocError>
    ensures { IfOk result (λ v. map (λ w. w.now) v.items ≡ slice_split is_space text.now) }
{
    text.split(|b| *b == b' ').collect(alloc)
}

fn all_are_groups(words: &[&[u8]]) -> bool
    ensures { result ≡ list_all (λ w. is_group w.now) words.now }
{
    words.iter().all(|word| is_group(word))
}

fn names(alloc: Global, words: &[&[u8]]) -> Result<GroupList, NoMemory>
    ensures { IfOk result (λ names. names ≡ map (λ w. w.now) words.now) }
{
    let mut names = GroupList::new(alloc);
    for word in words {
        names.push(Text::new(alloc, word)?)?;
    }
    Ok(names)
}

fn split_groups(alloc: Global, text: &[u8]) -> Result<Option<GroupList>, NoMemory>
    ensures { IfOk result (λ o. o ≡ all_groups (slice_split is_space text.now)) }
{
    let words = words(alloc, text)?;
    let words = words.as_slice();
    if all_are_groups(words) {
        Ok(Some(names(alloc, words)?))
    } else {
        Ok(None)
    }
}

/// The groups after the first space. Where a stamp follows there may be none: git-annex leaves two spaces when the last
/// group is left.
fn groups_after(alloc: Global, stamped: bool, text: &[u8]) -> Result<Option<GroupList>, NoMemory>
    ensures { IfOk result (λ o. o ≡ groups_after stamped text.now) }
{
    if stamped && text.is_empty() {
        Ok(Some(GroupList::new(alloc)))
    } else {
        split_groups(alloc, text)
    }
}

fn group_body(alloc: Global, stamped: bool, body: &[u8]) -> Result<Option<GroupList>, NoMemory>
    ensures { IfOk result (λ o. o ≡ group_body stamped body.now) }
{
    match body.split_first() {
        None => Ok(Some(GroupList::new(alloc))),
        Some((first, text)) => {
            if *first == b' ' {
                groups_after(alloc, stamped, text)
            } else {
                Ok(None)
            }
        }
    }
}

/// Reads `UUID GROUP GROUP .. timestamp=STAMP`.
#[tactic(auto, unfolding(crate::specs::Reading::groups_of))]
pub(crate) fn read_groups(alloc: Global, line: &[u8]) -> Result<Option<Entry>, NoMemory>
    ensures { IfOk result (λ o. o ≡ groups_of line.now) }
{
    let Some((id, body, stamp)) = split_repo_line(line) else {
        return Ok(None);
    };
    let Some(names) = group_body(alloc, stamp.is_some(), body)? else {
        return Ok(None);
    };
    Ok(Some(Entry {
        topic: Topic::Repo(id),
        stamp,
        value: Value::Groups(names),
    }))
}
