//! One hold: whether it blocks, until when, and how it changes.
ghost use Rattle.std.specs.Prelude.{◌≡◌, ◌+◌, ◌<◌, ◌^◌};
ghost use Rattle.std.specs.Option.{option_copied};
ghost use Rattle.node_model.specs.Rows.{blocks, restart};
ghost use Rattle.content_lock.specs.Indexed.{after_hold, blocker_with, end_of, outlasts};
ghost use Rattle.content_lock.specs.Stored.{kept_hold};

use annex_key::Key;
use object_store::HoldRecord;
use run_data::{By, Hold};

/// How long a hold lasts, in milliseconds: ten minutes.
pub const HOLD_TIME: u64 = 600_000;

/// The hold that is named where a removal is blocked, and until when holds block: none where an open one does.
#[derive(Clone, Copy, Debug, PartialEq, Eq)]
pub struct Blocker {
    pub hold: u64,
    pub until: Option<u64>,
}

/// Whether the hold blocks a removal of the key.
fn is_blocking(hold: &Hold, key: &Key, now: u64) -> bool
    ensures { result ≡ blocks key.now now hold.now }
{
    hold.key == *key && (!hold.kept || now < hold.end)
}

/// When the hold ends, where it isn't open.
fn end_of(hold: &Hold) -> Option<u64>
    ensures { result ≡ end_of hold.now }
{
    if hold.kept { Some(hold.end) } else { None }
}

/// Whether the hold blocks longer than until then.
fn is_longer(hold: &Hold, until: Option<u64>) -> bool
    ensures { result ≡ outlasts hold.now until }
{
    match until {
        None => false,
        Some(end) => !hold.kept || end < hold.end,
    }
}

/// Which hold is named, with one more of a greater number.
fn named_with(hold: &Hold, found: Option<Blocker>) -> Blocker
    ensures { result ≡ blocker_with hold.now found }
{
    match found {
        Some(found) if !is_longer(hold, found.until) => found,
        _ => Blocker {
            hold: hold.number,
            until: end_of(hold),
        },
    }
}

/// The same where the hold blocks.
pub(crate) fn named_after(
    hold: Option<&Hold>,
    found: Option<Blocker>,
    key: &Key,
    now: u64,
) -> Option<Blocker>
    ensures { result ≡ after_hold key.now now (option_copied hold.entry) found }
{
    match hold {
        Some(hold) if is_blocking(hold, key, now) => Some(named_with(hold, found)),
        _ => found,
    }
}

/// The hold as a clock that was set anew finds it.
pub(crate) fn restart(hold: &mut Hold, now: u64)
    requires { now + 600000 < 2 ^ 62 }
    ensures { hold.new ≡ restart now hold.old }
{
    hold.kept = true;
    hold.end = now + HOLD_TIME;
}

/// The hold that a crash leaves of a record. It is nobody's.
pub(crate) fn kept_hold(stored: HoldRecord, now: u64) -> Hold
    requires { now + 600000 < 2 ^ 62 }
    ensures { result ≡ kept_hold now stored }
{
    let HoldRecord {
        number,
        key,
        end: _,
    } = stored;
    Hold {
        number,
        key,
        end: now + HOLD_TIME,
        kept: true,
        owner: By::Script,
    }
}
