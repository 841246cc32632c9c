//! The holds of a repository, as its entries change them.
ghost use Rattle.std.specs.Prelude.{◌≡◌, ◌<◌, ◌+◌, ◌^◌, filter, map, not, ◌==◌, reverse, vec_len, vec_capacity, IfOk};
ghost use Rattle.run_data.specs.declared.entry.By.TheVariants.{Peer};
ghost use Rattle.run_data.specs.declared.entry.EntryKind.TheVariants.{Close, Fault};
ghost use Rattle.node_model.specs.Clocks.{hold_time};
ghost use Rattle.node_model.specs.Rows.{holds_after, is_lost_ordered, keep_of, restart, same_owner};
ghost use Rattle.state_rows.specs.Changes.{SetsClock, holds_after_end, new_hold, outlives};

use annex_base::{Call, NoMemory};
use run_data::{By, DropRefusal, EntryKind, Hold, Outcome};

/// How long a hold lasts, in milliseconds: ten minutes.
const HOLD_TIME: u64 = 600_000;

/// The hold that an entry of this kind takes, if it takes one.
pub(crate) fn new_hold(kind: &EntryKind) -> Result<Option<Hold>, NoMemory>
    ensures { IfOk result (λ hold. hold ≡ new_hold kind.now) }
{
    match kind {
        EntryKind::Share { hold, end, by, key } => Ok(Some(Hold {
            number: *hold,
            key: key.copy()?,
            end: *end,
            kept: false,
            owner: *by,
        })),
        _ => Ok(None),
    }
}

/// Takes note of what an entry of this kind changes; the oldest stands first.
pub(crate) fn change_holds(holds: &mut Vec<Hold>, kind: &EntryKind, new: Option<Hold>)
    requires room { vec_len holds.old < vec_capacity holds.old }
    requires new { new ≡ new_hold kind.now }
    requires clock { SetsClock kind.now }
    ensures { reverse holds.new.items ≡ holds_after (reverse holds.old.items) kind.now }
{
    match kind {
        EntryKind::Share { .. } => holds.push_reserved(new.unwrap()),
        EntryKind::Release { hold, .. } => release(holds, *hold),
        EntryKind::Close { peer, slot, client } => close(holds, *peer, *slot, *client),
        EntryKind::Fault { call, by } => fail(holds, *call, *by),
        EntryKind::End { job, outcome } => end(holds, *job, is_lost(outcome)),
        EntryKind::Crash { clock } => restart_all(holds, *clock),
        _ => {}
    }
}

/// Whether the two are the same job or session.
fn same_owner(one: By, other: By) -> bool
    ensures { result ≡ same_owner one other }
{
    match (one, other) {
        (By::Script, By::Script) => true,
        (By::Job(job), By::Job(number)) => job == number,
        (By::Peer { peer, slot }, By::Peer { peer: p, slot: s }) => peer == p && slot == s,
        _ => false,
    }
}

/// Keeps the hold, if it is for this job or session.
fn keep_if(hold: &mut Hold, owner: By)
    ensures { hold.new ≡ keep_of owner hold.old }
{
    if same_owner(hold.owner, owner) {
        hold.kept = true;
    }
}

/// Keeps the holds that are for this job or session.
fn keep(holds: &mut Vec<Hold>, owner: By)
    ensures { holds.new.items ≡ map (keep_of owner) holds.old.items }
{
    for hold in holds.iter_mut() {
        keep_if(hold, owner);
    }
}

/// Keeps the hold for ten minutes of a clock that was set to this.
fn restart(hold: &mut Hold, clock: u64)
    requires { clock + hold_time < 2 ^ 64 }
    ensures { hold.new ≡ restart clock hold.old }
{
    hold.kept = true;
    hold.end = clock + HOLD_TIME;
}

/// Keeps each hold so.
fn restart_all(holds: &mut Vec<Hold>, clock: u64)
    requires { clock + hold_time < 2 ^ 64 }
    ensures { holds.new.items ≡ map (restart clock) holds.old.items }
{
    for hold in holds.iter_mut() {
        restart(hold, clock);
    }
}

fn release(holds: &mut Vec<Hold>, number: u64)
    ensures { holds.new.items ≡ filter (λ h. not (h.number == number)) holds.old.items }
{
    holds.retain(|hold| hold.number != number);
}

/// Keeps what a peer's session held, if the server's end is the one that is closed.
fn close(holds: &mut Vec<Hold>, peer: u32, slot: u32, client: bool)
    ensures { holds.new.items ≡ holds_after holds.old.items (Close peer slot client) }
{
    if !client {
        keep(holds, By::Peer { peer, slot });
    }
}

/// Keeps the hold whose release failed.
fn fail(holds: &mut Vec<Hold>, call: Call, by: By)
    ensures { holds.new.items ≡ holds_after holds.old.items (Fault call by) }
{
    if call == Call::Unhold {
        keep(holds, by);
    }
}

/// Whether the job ends without the answer to an order that it sent.
fn is_lost(outcome: &Outcome) -> bool
    ensures { result ≡ is_lost_ordered outcome.now }
{
    match outcome {
        Outcome::Refused(DropRefusal::Lost { ordered }) => *ordered,
        _ => false,
    }
}

fn outlives(hold: &Hold, job: u32) -> bool
    ensures { result ≡ outlives job hold.now }
{
    hold.kept || !same_owner(hold.owner, By::Job(job))
}

fn release_of(holds: &mut Vec<Hold>, job: u32)
    ensures { holds.new.items ≡ filter (outlives job) holds.old.items }
{
    holds.retain(|hold| outlives(hold, job));
}

/// Releases what a job held, or keeps it after a lost order.
fn end(holds: &mut Vec<Hold>, job: u32, lost: bool)
    ensures { holds.new.items ≡ holds_after_end job lost holds.old.items }
{
    if lost {
        keep(holds, By::Job(job));
    } else {
        release_of(holds, job);
    }
}
