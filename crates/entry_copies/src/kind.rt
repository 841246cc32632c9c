//! Copies of what entries did.
ghost use Rattle.std.specs.Prelude.{◌≡◌, IfOk};

use crate::outcome::outcome_copy;
use annex_base::NoMemory;
use run_data::EntryKind;

/// An equal kind.
pub(crate) fn kind_copy(kind: &EntryKind) -> Result<EntryKind, NoMemory>
    ensures { IfOk result (λ copy. copy ≡ kind.now) }
{
    match kind {
        EntryKind::Begin { job, what } => Ok(EntryKind::Begin {
            job: *job,
            what: what.clone()?,
        }),
        EntryKind::Gain { by, size, key } => Ok(EntryKind::Gain {
            by: *by,
            size: *size,
            key: key.copy()?,
        }),
        EntryKind::Share { hold, end, by, key } => Ok(EntryKind::Share {
            hold: *hold,
            end: *end,
            by: *by,
            key: key.copy()?,
        }),
        EntryKind::Release { hold, key } => Ok(EntryKind::Release {
            hold: *hold,
            key: key.copy()?,
        }),
        EntryKind::Check { found, key } => Ok(EntryKind::Check {
            found: *found,
            key: key.copy()?,
        }),
        EntryKind::Bar { job, need, key } => Ok(EntryKind::Bar {
            job: *job,
            need: *need,
            key: key.copy()?,
        }),
        EntryKind::Order {
            job,
            target,
            deadline,
            need,
            key,
        } => Ok(EntryKind::Order {
            job: *job,
            target: *target,
            deadline: *deadline,
            need: *need,
            key: key.copy()?,
        }),
        EntryKind::Gone { by, key } => Ok(EntryKind::Gone {
            by: *by,
            key: key.copy()?,
        }),
        EntryKind::Log { file } => Ok(EntryKind::Log {
            file: file.clone()?,
        }),
        EntryKind::Compact { file } => Ok(EntryKind::Compact {
            file: file.clone()?,
        }),
        EntryKind::Talk { job } => Ok(EntryKind::Talk { job: *job }),
        EntryKind::Close { peer, slot, client } => Ok(EntryKind::Close {
            peer: *peer,
            slot: *slot,
            client: *client,
        }),
        EntryKind::Crash { clock } => Ok(EntryKind::Crash { clock: *clock }),
        EntryKind::Wait(milliseconds) => Ok(EntryKind::Wait(*milliseconds)),
        EntryKind::Fault { call, by } => Ok(EntryKind::Fault {
            call: *call,
            by: *by,
        }),
        EntryKind::End { job, outcome } => Ok(EntryKind::End {
            job: *job,
            outcome: outcome_copy(outcome)?,
        }),
    }
}
