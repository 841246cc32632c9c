//! Entries that say what became of a key, which ends their line.
ghost use Rattle.std.specs.Prelude.{◌≡◌, ◌<◌, ◌^◌, length, IfOk};
ghost use Rattle.journal_reading.specs.Forms.{row_in};
ghost use Rattle.journal_reading.specs.Kinds.{gone_form};
ghost use Rattle.journal_kinds.specs.Rows.{size_form, hold_end_form, gain_row, share_row, release_row, check_row, gone_row};

use crate::did::Did;
use annex_base::NoMemory;
use annex_key::Key;
use journal_fields::{behind, cut, read_by, read_found, read_key_last, read_large, read_other_by};
use run_data::{By, EntryKind, RepoView};
use std::alloc::Global;

/// `size=BYTES key=KEY`
fn read_size(alloc: Global, bytes: &[u8]) -> Result<Option<(u64, Key)>, NoMemory>
    ensures { IfOk result (λ o. o ≡ size_form.read bytes.now) }
{
    let Some(size) = behind(bytes, b"size=") else {
        return Ok(None);
    };
    let Some((size, after)) = cut(size, b' ') else {
        return Ok(None);
    };
    let Some(size) = read_large(size) else {
        return Ok(None);
    };
    let Some(key) = read_key_last(alloc, after)? else {
        return Ok(None);
    };
    Ok(Some((size, key)))
}

/// `gain by=BY size=BYTES key=KEY`
pub(crate) fn read_gain(
    alloc: Global,
    repos: &[RepoView],
    bytes: &[u8],
) -> Result<Option<Did>, NoMemory>
    requires few { length repos.now < 2 ^ 32 }
    ensures { IfOk result (λ o. o ≡ row_in bytes.now (gain_row repos.now)) }
{
    let Some(by) = behind(bytes, b"gain by=") else {
        return Ok(None);
    };
    let Some((by, after)) = cut(by, b' ') else {
        return Ok(None);
    };
    let Some(by) = read_by(repos, by) else {
        return Ok(None);
    };
    let Some((size, key)) = read_size(alloc, after)? else {
        return Ok(None);
    };
    Ok(Some((EntryKind::Gain { by, size, key }, 0)))
}

/// `BY key=KEY`, where it isn't by the script.
fn read_other(
    alloc: Global,
    repos: &[RepoView],
    bytes: &[u8],
) -> Result<Option<(By, Key)>, NoMemory>
    requires few { length repos.now < 2 ^ 32 }
    ensures { IfOk result (λ o. o ≡ (gone_form repos.now).read bytes.now) }
{
    let Some((by, after)) = cut(bytes, b' ') else {
        return Ok(None);
    };
    let Some(by) = read_other_by(repos, by) else {
        return Ok(None);
    };
    let Some(key) = read_key_last(alloc, after)? else {
        return Ok(None);
    };
    Ok(Some((by, key)))
}

/// `end=TIME for=BY key=KEY`
fn read_hold_end(
    alloc: Global,
    repos: &[RepoView],
    bytes: &[u8],
) -> Result<Option<(u64, (By, Key))>, NoMemory>
    requires few { length repos.now < 2 ^ 32 }
    ensures { IfOk result (λ o. o ≡ (hold_end_form repos.now).read bytes.now) }
{
    let Some(end) = behind(bytes, b"end=") else {
        return Ok(None);
    };
    let Some((end, after)) = cut(end, b' ') else {
        return Ok(None);
    };
    let Some(end) = read_large(end) else {
        return Ok(None);
    };
    let Some(by) = behind(after, b"for=") else {
        return Ok(None);
    };
    let Some(other) = read_other(alloc, repos, by)? else {
        return Ok(None);
    };
    Ok(Some((end, other)))
}

/// `share hold=HOLD end=TIME for=BY key=KEY`
pub(crate) fn read_share(
    alloc: Global,
    repos: &[RepoView],
    bytes: &[u8],
) -> Result<Option<Did>, NoMemory>
    requires few { length repos.now < 2 ^ 32 }
    ensures { IfOk result (λ o. o ≡ row_in bytes.now (share_row repos.now)) }
{
    let Some(hold) = behind(bytes, b"share hold=") else {
        return Ok(None);
    };
    let Some((hold, after)) = cut(hold, b' ') else {
        return Ok(None);
    };
    let Some(hold) = read_large(hold) else {
        return Ok(None);
    };
    let Some((end, (by, key))) = read_hold_end(alloc, repos, after)? else {
        return Ok(None);
    };
    Ok(Some((EntryKind::Share { hold, end, by, key }, 0)))
}

/// `release hold=HOLD key=KEY`
pub(crate) fn read_release(alloc: Global, bytes: &[u8]) -> Result<Option<Did>, NoMemory>
    ensures { IfOk result (λ o. o ≡ row_in bytes.now release_row) }
{
    let Some(hold) = behind(bytes, b"release hold=") else {
        return Ok(None);
    };
    let Some((hold, after)) = cut(hold, b' ') else {
        return Ok(None);
    };
    let Some(hold) = read_large(hold) else {
        return Ok(None);
    };
    let Some(key) = read_key_last(alloc, after)? else {
        return Ok(None);
    };
    Ok(Some((EntryKind::Release { hold, key }, 0)))
}

/// `check found=FOUND key=KEY`
pub(crate) fn read_check(alloc: Global, bytes: &[u8]) -> Result<Option<Did>, NoMemory>
    ensures { IfOk result (λ o. o ≡ row_in bytes.now check_row) }
{
    let Some(found) = behind(bytes, b"check found=") else {
        return Ok(None);
    };
    let Some((found, after)) = cut(found, b' ') else {
        return Ok(None);
    };
    let Some(found) = read_found(found) else {
        return Ok(None);
    };
    let Some(key) = read_key_last(alloc, after)? else {
        return Ok(None);
    };
    Ok(Some((EntryKind::Check { found, key }, 0)))
}

/// `gone by=BY key=KEY`
pub(crate) fn read_gone(
    alloc: Global,
    repos: &[RepoView],
    bytes: &[u8],
) -> Result<Option<Did>, NoMemory>
    requires few { length repos.now < 2 ^ 32 }
    ensures { IfOk result (λ o. o ≡ row_in bytes.now (gone_row repos.now)) }
{
    let Some(by) = behind(bytes, b"gone by=") else {
        return Ok(None);
    };
    let Some((by, key)) = read_other(alloc, repos, by)? else {
        return Ok(None);
    };
    Ok(Some((EntryKind::Gone { by, key }, 0)))
}
