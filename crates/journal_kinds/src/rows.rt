//! Entries of logs, of sessions and of stores, and waits.
ghost use Rattle.std.specs.Prelude.{◌≡◌, ◌<◌, ◌^◌, length, IfOk};
ghost use Rattle.journal_reading.specs.Forms.{by_rows, row_in};
ghost use Rattle.journal_reading.specs.Kinds.{wait_rows};
ghost use Rattle.journal_kinds.specs.Rows.{slot_form, log_row, compact_row, talk_row, close_row, crash_row, fault_row};

use crate::did::Did;
use annex_base::NoMemory;
use journal_fields::{
    behind, cut, read_by, read_file, read_large, read_repo, read_side, read_small,
    read_small_or_dash,
};
use run_data::{EntryKind, RepoView};
use script_words::{read_call, read_number};
use std::alloc::Global;

/// The greatest clock of a crash, in milliseconds.
const GREATEST_CLOCK: u64 = 100_000_000_000;

/// `log LINES FILE`
pub(crate) fn read_log(alloc: Global, bytes: &[u8]) -> Result<Option<Did>, NoMemory>
    ensures { IfOk result (λ o. o ≡ row_in bytes.now log_row) }
{
    let Some(lines) = behind(bytes, b"log ") else {
        return Ok(None);
    };
    let Some((lines, after)) = cut(lines, b' ') else {
        return Ok(None);
    };
    let Some(lines) = read_large(lines) else {
        return Ok(None);
    };
    let Some(file) = read_file(alloc, after)? else {
        return Ok(None);
    };
    Ok(Some((EntryKind::Log { file }, lines)))
}

/// `compact FILE`
pub(crate) fn read_compact(alloc: Global, bytes: &[u8]) -> Result<Option<Did>, NoMemory>
    ensures { IfOk result (λ o. o ≡ row_in bytes.now compact_row) }
{
    let Some(file) = behind(bytes, b"compact ") else {
        return Ok(None);
    };
    let Some(file) = read_file(alloc, file)? else {
        return Ok(None);
    };
    Ok(Some((EntryKind::Compact { file }, 0)))
}

/// `talk JOB`, or a dash for a session.
pub(crate) fn read_talk(bytes: &[u8]) -> Option<Did>
    ensures { result ≡ row_in bytes.now talk_row }
{
    let job = behind(bytes, b"talk ")?;
    let job = read_small_or_dash(job)?;
    Some((EntryKind::Talk { job }, 0))
}

/// `slot=SLOT side=SIDE`
fn read_slot(bytes: &[u8]) -> Option<(u32, bool)>
    ensures { result ≡ slot_form.read bytes.now }
{
    let slot = behind(bytes, b"slot=")?;
    let (slot, after) = cut(slot, b' ')?;
    let slot = read_small(slot)?;
    let side = behind(after, b"side=")?;
    let client = read_side(side)?;
    Some((slot, client))
}

/// `close peer=REPO slot=SLOT side=SIDE`
pub(crate) fn read_close(repos: &[RepoView], bytes: &[u8]) -> Option<Did>
    requires few { length repos.now < 2 ^ 32 }
    ensures { result ≡ row_in bytes.now (close_row repos.now) }
{
    let peer = behind(bytes, b"close peer=")?;
    let (peer, after) = cut(peer, b' ')?;
    let peer = read_repo(repos, peer)?;
    let (slot, client) = read_slot(after)?;
    Some((EntryKind::Close { peer, slot, client }, 0))
}

/// `crash clock=TIME`
pub(crate) fn read_crash(bytes: &[u8]) -> Option<Did>
    ensures { result ≡ row_in bytes.now crash_row }
{
    let clock = behind(bytes, b"crash clock=")?;
    let clock = read_number(clock, GREATEST_CLOCK)?;
    Some((EntryKind::Crash { clock }, 0))
}

/// `fault CALL BY`
pub(crate) fn read_fault(repos: &[RepoView], bytes: &[u8]) -> Option<Did>
    requires few { length repos.now < 2 ^ 32 }
    ensures { result ≡ row_in bytes.now (fault_row repos.now) }
{
    let call = behind(bytes, b"fault ")?;
    let (call, by) = cut(call, b' ')?;
    let call = read_call(call)?;
    let by = read_by(repos, by)?;
    Some((EntryKind::Fault { call, by }, 0))
}

/// `wait MILLISECONDS`
pub(crate) fn read_wait(bytes: &[u8]) -> Option<Did>
    ensures { result ≡ by_rows wait_rows bytes.now }
{
    let milliseconds = behind(bytes, b"wait ")?;
    let milliseconds = read_large(milliseconds)?;
    Some((EntryKind::Wait(milliseconds), 0))
}
