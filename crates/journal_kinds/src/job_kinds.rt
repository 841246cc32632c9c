//! Entries that name their job first.
ghost use Rattle.std.specs.Prelude.{◌≡◌, ◌<◌, ◌^◌, length, IfOk};
ghost use Rattle.journal_reading.specs.Forms.{row_in};
ghost use Rattle.journal_kinds.specs.Begun.{word_at};
ghost use Rattle.journal_kinds.specs.Rows.{need_form, deadline_form, target_form, bar_row, order_row, begin_row, end_row};

use crate::begun::Begun;
use crate::did::Did;
use annex_base::NoMemory;
use annex_key::{Key, Tree};
use drop_proof::Need;
use journal_fields::{behind, cut, read_key_last, read_large_or_dash, read_repo, read_small};
use journal_jobs::{read_job, read_outcome};
use run_data::{EntryKind, RepoView};
use std::alloc::Global;

/// The two numbers of a need, and a key.
type Needed = (u32, (u32, Key));

/// `need=N,M key=KEY`
fn read_needed(alloc: Global, bytes: &[u8]) -> Result<Option<Needed>, NoMemory>
    ensures { IfOk result (λ o. o ≡ need_form.read bytes.now) }
{
    let Some(need) = behind(bytes, b"need=") else {
        return Ok(None);
    };
    let Some((n, after)) = cut(need, b',') else {
        return Ok(None);
    };
    let Some(n) = read_small(n) else {
        return Ok(None);
    };
    let Some((m, after)) = cut(after, b' ') else {
        return Ok(None);
    };
    let Some(m) = read_small(m) else {
        return Ok(None);
    };
    let Some(key) = read_key_last(alloc, after)? else {
        return Ok(None);
    };
    Ok(Some((n, (m, key))))
}

/// `bar JOB need=N,M key=KEY`
pub(crate) fn read_bar(alloc: Global, bytes: &[u8]) -> Result<Option<Did>, NoMemory>
    ensures { IfOk result (λ o. o ≡ row_in bytes.now bar_row) }
{
    let Some(job) = behind(bytes, b"bar ") else {
        return Ok(None);
    };
    let Some((job, after)) = cut(job, b' ') else {
        return Ok(None);
    };
    let Some(job) = read_small(job) else {
        return Ok(None);
    };
    let Some((n, (m, key))) = read_needed(alloc, after)? else {
        return Ok(None);
    };
    let need = Need { n, m };
    Ok(Some((EntryKind::Bar { job, need, key }, 0)))
}

/// `deadline=TIME need=N,M key=KEY`
fn read_deadline(alloc: Global, bytes: &[u8]) -> Result<Option<(Option<u64>, Needed)>, NoMemory>
    ensures { IfOk result (λ o. o ≡ deadline_form.read bytes.now) }
{
    let Some(deadline) = behind(bytes, b"deadline=") else {
        return Ok(None);
    };
    let Some((deadline, after)) = cut(deadline, b' ') else {
        return Ok(None);
    };
    let Some(deadline) = read_large_or_dash(deadline) else {
        return Ok(None);
    };
    let Some(needed) = read_needed(alloc, after)? else {
        return Ok(None);
    };
    Ok(Some((deadline, needed)))
}

/// `target=REPO deadline=TIME need=N,M key=KEY`
fn read_target(
    alloc: Global,
    repos: &[RepoView],
    bytes: &[u8],
) -> Result<Option<(u32, (Option<u64>, Needed))>, NoMemory>
    requires few { length repos.now < 2 ^ 32 }
    ensures { IfOk result (λ o. o ≡ (target_form repos.now).read bytes.now) }
{
    let Some(target) = behind(bytes, b"target=") else {
        return Ok(None);
    };
    let Some((target, after)) = cut(target, b' ') else {
        return Ok(None);
    };
    let Some(target) = read_repo(repos, target) else {
        return Ok(None);
    };
    let Some(order) = read_deadline(alloc, after)? else {
        return Ok(None);
    };
    Ok(Some((target, order)))
}

/// `order JOB target=REPO deadline=TIME need=N,M key=KEY`
pub(crate) fn read_order(
    alloc: Global,
    repos: &[RepoView],
    bytes: &[u8],
) -> Result<Option<Did>, NoMemory>
    requires few { length repos.now < 2 ^ 32 }
    ensures { IfOk result (λ o. o ≡ row_in bytes.now (order_row repos.now)) }
{
    let Some(job) = behind(bytes, b"order ") else {
        return Ok(None);
    };
    let Some((job, after)) = cut(job, b' ') else {
        return Ok(None);
    };
    let Some(job) = read_small(job) else {
        return Ok(None);
    };
    let Some((target, (deadline, (n, (m, key))))) = read_target(alloc, repos, after)? else {
        return Ok(None);
    };
    let order = EntryKind::Order {
        job,
        target,
        deadline,
        need: Need { n, m },
        key,
    };
    Ok(Some((order, 0)))
}

/// `begin JOB LINE`
pub(crate) fn read_begin(
    alloc: Global,
    repos: &[RepoView],
    tree: &Tree,
    own: u32,
    bytes: &[u8],
) -> Result<Option<Did>, NoMemory>
    requires few { length repos.now < 2 ^ 32 }
    ensures { IfOk result (λ o. o ≡ row_in bytes.now (begin_row repos.now tree.now own)) }
{
    let Some(job) = behind(bytes, b"begin ") else {
        return Ok(None);
    };
    let Some((job, after)) = cut(job, b' ') else {
        return Ok(None);
    };
    let Some(job) = read_small(job) else {
        return Ok(None);
    };
    let Some(what) = read_job(alloc, repos, tree, own, after)? else {
        return Ok(None);
    };
    Ok(Some((EntryKind::Begin { job, what }, 0)))
}

/// `end JOB OUTCOME`
pub(crate) fn read_end(
    alloc: Global,
    repos: &[RepoView],
    begun: &Begun,
    own: u32,
    bytes: &[u8],
) -> Result<Option<Did>, NoMemory>
    requires few { length repos.now < 2 ^ 32 }
    ensures { IfOk result (λ o. o ≡ row_in bytes.now (end_row repos.now (word_at begun.now own) own)) }
{
    let Some(job) = behind(bytes, b"end ") else {
        return Ok(None);
    };
    let Some((job, after)) = cut(job, b' ') else {
        return Ok(None);
    };
    let Some(job) = read_small(job) else {
        return Ok(None);
    };
    let word = begun.word_of(own, job);
    let Some(outcome) = read_outcome(alloc, repos, own, word, after)? else {
        return Ok(None);
    };
    Ok(Some((EntryKind::End { job, outcome }, 0)))
}
