//! Whether an entry is of a kind, and says this of it.
ghost use Rattle.std.specs.Prelude.{◌≡◌};
ghost use Rattle.run_data.specs.declared.entry.EntryKind.TheVariants as kinds;
ghost use Rattle.run_data.specs.declared.entry.LogFile.TheVariants as files;
ghost use Rattle.step_judging.specs.Same.{same_kind};

use crate::names::{
    is_number, is_number_if, same_bool, same_call, same_found, same_need, same_number, same_owner,
};
use annex_base::{Call, Found};
use annex_key::Key;
use drop_proof::Need;
use run_data::{By, EntryKind, LogFile};

/// The step of a job, or of a session, that changes no row.
pub fn is_talk(kind: &EntryKind, job: Option<u32>) -> bool
    ensures { result ≡ same_kind (kinds.Talk job) kind.now }
{
    match kind {
        EntryKind::Talk { job: told } => same_number(job, *told),
        _ => false,
    }
}

/// The fault of a call.
pub fn is_fault(kind: &EntryKind, call: Call, by: By) -> bool
    ensures { result ≡ same_kind (kinds.Fault call by) kind.now }
{
    match kind {
        EntryKind::Fault {
            call: told,
            by: owner,
        } => same_call(call, *told) && same_owner(by, *owner),
        _ => false,
    }
}

/// The gain of a content of this size, in bytes.
pub fn is_gain(kind: &EntryKind, by: By, size: u128, key: &Key) -> bool
    ensures { result ≡ same_kind (kinds.Gain by size key.now) kind.now }
{
    match kind {
        EntryKind::Gain {
            by: owner,
            size: told,
            key: other,
        } => same_owner(by, *owner) && is_number(size, *told) && *key == *other,
        _ => false,
    }
}

/// The share of a hold of this number; its end is in milliseconds.
pub fn is_share(kind: &EntryKind, hold: u64, end: u128, by: By, key: &Key) -> bool
    ensures { result ≡ same_kind (kinds.Share hold end by key.now) kind.now }
{
    match kind {
        EntryKind::Share {
            hold: number,
            end: told,
            by: owner,
            key: other,
        } => {
            hold == *number && is_number(end, *told) && same_owner(by, *owner) && *key == *other
        }
        _ => false,
    }
}

/// The release of a hold of this number.
pub fn is_release(kind: &EntryKind, hold: u64, key: &Key) -> bool
    ensures { result ≡ same_kind (kinds.Release hold key.now) kind.now }
{
    match kind {
        EntryKind::Release {
            hold: number,
            key: other,
        } => hold == *number && *key == *other,
        _ => false,
    }
}

/// A look at the row, where this was found.
pub fn is_check(kind: &EntryKind, found: Found, key: &Key) -> bool
    ensures { result ≡ same_kind (kinds.Check found key.now) kind.now }
{
    match kind {
        EntryKind::Check {
            found: told,
            key: other,
        } => same_found(found, *told) && *key == *other,
        _ => false,
    }
}

/// The bar of a job.
pub fn is_bar(kind: &EntryKind, job: u32, need: Need, key: &Key) -> bool
    ensures { result ≡ same_kind (kinds.Bar job need key.now) kind.now }
{
    match kind {
        EntryKind::Bar {
            job: number,
            need: told,
            key: other,
        } => job == *number && same_need(need, *told) && *key == *other,
        _ => false,
    }
}

/// The order of a job to its target; the deadline is in seconds.
pub fn is_order(
    kind: &EntryKind,
    job: u32,
    target: u32,
    deadline: Option<u128>,
    need: Need,
    key: &Key,
) -> bool
    ensures { result ≡ same_kind (kinds.Order job target deadline need key.now) kind.now }
{
    match kind {
        EntryKind::Order {
            job: number,
            target: peer,
            deadline: told,
            need: other,
            key: text,
        } => {
            job == *number
                && target == *peer
                && is_number_if(deadline, *told)
                && same_need(need, *other)
                && *key == *text
        }
        _ => false,
    }
}

/// The removal of a content.
pub fn is_gone(kind: &EntryKind, by: By, key: &Key) -> bool
    ensures { result ≡ same_kind (kinds.Gone by key.now) kind.now }
{
    match kind {
        EntryKind::Gone {
            by: owner,
            key: other,
        } => same_owner(by, *owner) && *key == *other,
        _ => false,
    }
}

/// Lines of the location log of the key.
pub fn is_location(kind: &EntryKind, key: &Key) -> bool
    ensures { result ≡ same_kind (kinds.Log (files.Location key.now)) kind.now }
{
    match kind {
        EntryKind::Log {
            file: LogFile::Location(other),
        } => *key == *other,
        _ => false,
    }
}

/// The close of one end of a connection.
pub fn is_close(kind: &EntryKind, peer: u32, slot: u32, client: bool) -> bool
    ensures { result ≡ same_kind (kinds.Close peer slot client) kind.now }
{
    match kind {
        EntryKind::Close {
            peer: other,
            slot: place,
            client: side,
        } => peer == *other && slot == *place && same_bool(client, *side),
        _ => false,
    }
}
