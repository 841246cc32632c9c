//! What an entry did, by the first row of its table that reads it.
ghost use Rattle.std.specs.Prelude.{◌≡◌, ◌<◌, ◌^◌, List, length, IfOk};
ghost use Rattle.run_data.specs.declared.entry.Entry.{Entry};
ghost use Rattle.journal_reading.specs.Forms.{by_rows};
ghost use Rattle.journal_reading.specs.Kinds.{did_form, kind_rows};
ghost use Rattle.journal_kinds.specs.Begun.{AreBegun, word_at};
ghost use Rattle.journal_kinds.specs.Rows.{rows_from_crash, rows_from_log, rows_from_check, rows_by};

use crate::begun::Begun;
use crate::job_kinds::{read_bar, read_begin, read_end, read_order};
use crate::kinds::{read_check, read_gain, read_gone, read_release, read_share};
use crate::rows::{
    read_close, read_compact, read_crash, read_fault, read_log, read_talk, read_wait,
};
use annex_base::NoMemory;
use annex_key::Tree;
use run_data::{EntryKind, RepoView};
use std::alloc::Global;

/// What an entry did, and how many lines it adds to a log.
pub(crate) type Did = (EntryKind, u64);

fn read_from_crash(
    alloc: Global,
    repos: &[RepoView],
    begun: &Begun,
    own: u32,
    bytes: &[u8],
) -> Result<Option<Did>, NoMemory>
    requires few { length repos.now < 2 ^ 32 }
    ensures { IfOk result (λ o. o ≡ by_rows (rows_from_crash repos.now (word_at begun.now own) own) bytes.now) }
{
    if let Some(did) = read_crash(bytes) {
        return Ok(Some(did));
    }
    if let Some(did) = read_fault(repos, bytes) {
        return Ok(Some(did));
    }
    if let Some(did) = read_end(alloc, repos, begun, own, bytes)? {
        return Ok(Some(did));
    }
    Ok(None)
}

fn read_from_log(
    alloc: Global,
    repos: &[RepoView],
    begun: &Begun,
    own: u32,
    bytes: &[u8],
) -> Result<Option<Did>, NoMemory>
    requires few { length repos.now < 2 ^ 32 }
    ensures { IfOk result (λ o. o ≡ by_rows (rows_from_log repos.now (word_at begun.now own) own) bytes.now) }
{
    if let Some(did) = read_log(alloc, bytes)? {
        return Ok(Some(did));
    }
    if let Some(did) = read_compact(alloc, bytes)? {
        return Ok(Some(did));
    }
    if let Some(did) = read_talk(bytes) {
        return Ok(Some(did));
    }
    if let Some(did) = read_close(repos, bytes) {
        return Ok(Some(did));
    }
    read_from_crash(alloc, repos, begun, own, bytes)
}

fn read_from_check(
    alloc: Global,
    repos: &[RepoView],
    begun: &Begun,
    own: u32,
    bytes: &[u8],
) -> Result<Option<Did>, NoMemory>
    requires few { length repos.now < 2 ^ 32 }
    ensures { IfOk result (λ o. o ≡ by_rows (rows_from_check repos.now (word_at begun.now own) own) bytes.now) }
{
    if let Some(did) = read_check(alloc, bytes)? {
        return Ok(Some(did));
    }
    if let Some(did) = read_bar(alloc, bytes)? {
        return Ok(Some(did));
    }
    if let Some(did) = read_order(alloc, repos, bytes)? {
        return Ok(Some(did));
    }
    if let Some(did) = read_gone(alloc, repos, bytes)? {
        return Ok(Some(did));
    }
    read_from_log(alloc, repos, begun, own, bytes)
}

fn read_rows(
    alloc: Global,
    repos: &[RepoView],
    tree: &Tree,
    begun: &Begun,
    own: u32,
    bytes: &[u8],
) -> Result<Option<Did>, NoMemory>
    requires few { length repos.now < 2 ^ 32 }
    ensures { IfOk result (λ o. o ≡ by_rows (rows_by repos.now tree.now (word_at begun.now own) own) bytes.now) }
{
    if let Some(did) = read_begin(alloc, repos, tree, own, bytes)? {
        return Ok(Some(did));
    }
    if let Some(did) = read_gain(alloc, repos, bytes)? {
        return Ok(Some(did));
    }
    if let Some(did) = read_share(alloc, repos, bytes)? {
        return Ok(Some(did));
    }
    if let Some(did) = read_release(alloc, bytes)? {
        return Ok(Some(did));
    }
    read_from_check(alloc, repos, begun, own, bytes)
}

/// What an entry of repository `own` did.
fn read_kind(
    alloc: Global,
    repos: &[RepoView],
    tree: &Tree,
    begun: &Begun,
    own: u32,
    bytes: &[u8],
) -> Result<Option<Did>, NoMemory>
    requires few { length repos.now < 2 ^ 32 }
    ensures { (past : List Entry) → AreBegun past begun.now → IfOk result (λ o. o ≡ by_rows (kind_rows repos.now tree.now past own) bytes.now) }
{
    read_rows(alloc, repos, tree, begun, own, bytes)
}

/// What an entry did, as a journal says it behind the entry's repository and a space, and how many lines it says that
/// follow (own). Exactly the waits have no repository.
pub fn read_did(
    alloc: Global,
    repos: &[RepoView],
    tree: &Tree,
    begun: &Begun,
    repo: Option<u32>,
    bytes: &[u8],
) -> Result<Option<(EntryKind, u64)>, NoMemory>
    requires few { length repos.now < 2 ^ 32 }
    ensures { (past : List Entry) → AreBegun past begun.now → IfOk result (λ o. o ≡ (did_form repos.now tree.now past repo).read bytes.now) }
{
    match repo {
        None => Ok(read_wait(bytes)),
        Some(own) => read_kind(alloc, repos, tree, begun, own, bytes),
    }
}
