//! The first line of an entry.
ghost use Rattle.std.specs.Prelude.{◌≡◌, ◌<◌, ◌^◌, List, length, IfOk, option_map};
ghost use Rattle.run_data.specs.declared.entry.Entry.{Entry};
ghost use Rattle.journal_kinds.specs.Begun.{AreBegun};
ghost use Rattle.journal_reading.specs.Forms.{or_dash, up_to};
ghost use Rattle.journal_reading.specs.Fields.{repo_number};
ghost use Rattle.journal_reading.specs.Kinds.{did_form};
ghost use Rattle.journal_reading.specs.Lines.{head_form};
ghost use Rattle.journal_reader.specs.Heads.{as_head};

use annex_base::NoMemory;
use annex_key::Tree;
use journal_fields::{cut, read_large, read_repo_or_dash};
use journal_kinds::{Begun, read_did};
use run_data::{EntryKind, RepoView};
use std::alloc::Global;

/// What the first line of an entry says; it ends with the number of the lines that the entry adds, where it adds some.
#[derive(Drop)]
pub(crate) struct Head {
    pub time: u64,
    pub count: u64,
    pub repo: Option<u32>,
    pub kind: EntryKind,
    pub adds: u64,
}

/// The repository of an entry, what it did, and how many lines it adds.
fn read_actor(
    alloc: Global,
    repos: &[RepoView],
    tree: &Tree,
    begun: &Begun,
    bytes: &[u8],
) -> Result<Option<(Option<u32>, (EntryKind, u64))>, NoMemory>
    requires few { length repos.now < 2 ^ 32 }
    ensures { (past : List Entry) → AreBegun past begun.now → IfOk result (λ o. o ≡ (up_to 32 (or_dash (repo_number repos.now)) (λ r. did_form repos.now tree.now past r)).read bytes.now) }
{
    let Some((word, rest)) = cut(bytes, b' ') else {
        return Ok(None);
    };
    let Some(repo) = read_repo_or_dash(repos, word) else {
        return Ok(None);
    };
    let Some(did) = read_did(alloc, repos, tree, begun, repo, rest)? else {
        return Ok(None);
    };
    Ok(Some((repo, did)))
}

/// The first line of an entry, by the tree at its place and the jobs that were begun before.
pub(crate) fn read_head(
    alloc: Global,
    repos: &[RepoView],
    tree: &Tree,
    begun: &Begun,
    line: &[u8],
) -> Result<Option<Head>, NoMemory>
    requires few { length repos.now < 2 ^ 32 }
    ensures { (past : List Entry) → AreBegun past begun.now → IfOk result (λ o. option_map as_head o ≡ (head_form repos.now tree.now past).read line.now) }
{
    let Some((word, rest)) = cut(line, b'.') else {
        return Ok(None);
    };
    let Some(time) = read_large(word) else {
        return Ok(None);
    };
    let Some((word, rest)) = cut(rest, b' ') else {
        return Ok(None);
    };
    let Some(count) = read_large(word) else {
        return Ok(None);
    };
    let Some((repo, (kind, adds))) = read_actor(alloc, repos, tree, begun, rest)? else {
        return Ok(None);
    };
    Ok(Some(Head {
        time,
        count,
        repo,
        kind,
        adds,
    }))
}
