//! A node crashes, by one entry.
ghost use Rattle.std.specs.Prelude.{◌≡◌, ◌⊎◌, ℕ, ◌+◌, ◌≤◌, ◌<◌, ◌++◌, [], true, All, Err, length, nat_le, option_to_list, vec_capacity, vec_len, IfErr, IfOk, IsErrOf};
ghost use Rattle.node_ends.specs.Joined.{StayPaired};
ghost use Rattle.node_past.specs.Pasts.{IsReady, SamePast};
ghost use Rattle.run_data.specs.Histories.{most_entries};
ghost use Rattle.node_steps.specs.Crashing.{Crashes, HasRoom, all_ended, ended_in};
ghost use Rattle.node_steps.specs.Falling.{Falls};
ghost use Rattle.node_steps.specs.Kept.{Stands};
ghost use Rattle.node_steps.specs.Nodes.{beside, told_of};

use crate::entering::{moment_of, note_ended};
use node_ledger::Ledger;
use node_parts::{Done, Parts, tables_fill_as_states};
use node_past::{Ended, NodeRefused, Past};
use object_store::Keeper;
use run_data::{Entry, FrameView};
use std::marker::Model;

/// How many jobs run at once.
const SLOTS: usize = 4;

/// Memory for a crash (own): a list for its Closes, and two in which the entries of a node and its jobs that have ended find places, with
/// those that the crash adds, where they have none left.
#[derive(Drop)]
pub struct Room {
    closes: Vec<FrameView>,
    history: Vec<Entry>,
    outcomes: Vec<Ended>,
}

impl Model for Room {
    ghost use Rattle.std.specs.Prelude.{◌≡◌, [], vec_capacity};
    ghost use Rattle.node_steps.specs.Crashing.{RoomView};

    ghost Value = { RoomView };

    ghost view = { λ r. record { closes = vec_capacity r.closes; entries = vec_capacity r.history; ended = vec_capacity r.outcomes } };

    ghost invariant = { λ r. (r.closes.items ≡ []) × (r.history.items ≡ []) × (r.outcomes.items ≡ []) };
}

/// The job in this slot, if one runs there, as one that the entry at this place ends.
fn ended_in(parts: &Parts, slot: u32, place: usize) -> Option<Ended>
    ensures { option_to_list result ≡ ended_in parts.now.jobs.running place slot }
{
    match parts.job_in(slot) {
        None => None,
        Some(number) => Some(Ended { number, place }),
    }
}

/// Notes that all running jobs end by the entry at this place, in order of slot.
fn note_all_ended(outcomes: &mut Vec<Ended>, parts: &Parts, place: usize)
    requires room { vec_len outcomes.old + 4 ≤ vec_capacity outcomes.old }
    ensures { outcomes.new.items ≡ outcomes.old.items ++ all_ended parts.now.jobs.running place }
{
    for slot in 0..4 {
        note_ended(outcomes, ended_in(parts, slot, place));
    }
}

/// Crashes, by one entry, whose Closes take their places on an empty list. It takes no memory.
fn fall(past: &mut Past, parts: &mut Parts, clock: u64, listing: Vec<FrameView>)
    requires ready { IsReady past.old }
    requires outcomes { vec_len past.old.outcomes + 4 ≤ vec_capacity past.old.outcomes }
    requires near { clock ≤ 100000000000 }
    requires empty { listing.items ≡ [] }
    requires room { length parts.old.links ≤ vec_capacity listing }
    requires numbers { All (λ h. h.number < vec_len past.old.history + 1) parts.old.table.holds }
    ensures { Falls clock parts.old parts.new past.old past.new }
{
    let moment = moment_of(past);
    let place = past.history.len();
    note_all_ended(&mut past.outcomes, parts, place);
    let done = parts.crash(moment, clock, listing);
    // For the proof: what the parts have is sound.
    let _ = parts.table();
    let Done {
        kind: _,
        taken: _,
        sent,
        owes: _,
    } = done;
    past.crash(clock, sent);
}

/// Moves items to this empty list, where their own has fewer places left than this. It takes no memory.
fn have_places<T: Drop>(items: &mut Vec<T>, count: usize, mut larger: Vec<T>)
    requires empty { larger.items ≡ [] }
    requires room { vec_len items.old + count ≤ vec_capacity larger }
    ensures items { items.new.items ≡ items.old.items }
    ensures len { vec_len items.new ≡ vec_len items.old }
    ensures room { vec_len items.new + count ≤ vec_capacity items.new }
{
    if items.capacity() - items.len() < count {
        larger.append(items).unwrap();
        *items = larger;
    }
}

/// Has places for the entry of a crash and for the jobs that it ends, on these empty lists where its own have too few. It takes no memory.
fn take_room(past: &mut Past, history: Vec<Entry>, outcomes: Vec<Ended>)
    requires few { vec_len past.old.history < most_entries }
    requires no_entry { history.items ≡ [] }
    requires entries { vec_len past.old.history + 1 ≤ vec_capacity history }
    requires no_ended { outcomes.items ≡ [] }
    requires ended { vec_len past.old.outcomes + 4 ≤ vec_capacity outcomes }
    ensures ready { IsReady past.new }
    ensures outcomes { vec_len past.new.outcomes + 4 ≤ vec_capacity past.new.outcomes }
    ensures same { SamePast past.old past.new }
{
    have_places(&mut past.history, 1, history);
    have_places(&mut past.outcomes, SLOTS, outcomes);
}

/// Makes room for a crash. Full comes exactly where the history has as many entries as it may have.
pub fn make_ready<K: Keeper>(ledger: &Ledger<K>, parts: &Parts) -> Result<Room, NodeRefused>
    ensures ok { IfOk result (λ room. HasRoom room (beside parts.now ledger.now)) }
    ensures full { IsErrOf result NodeRefused.Full → nat_le most_entries (length ledger.now.history) ≡ true }
    ensures lacks { nat_le most_entries (length ledger.now.history) ≡ true → result ≡ Err NodeRefused.Full }
    ensures refused { IfErr result (λ e. (e ≡ NodeRefused.Full) ⊎ (e ≡ NodeRefused.NoMemory)) }
{
    if ledger.is_full() {
        return Err(NodeRefused::Full);
    }
    let alloc = ledger.allocator();
    let entries = ledger.history().len();
    let ended = ledger.outcomes().len();
    // Where lists are moved, they have twice the places, so that crashes one after the other don't move them each time.
    let closes = Vec::with_capacity(alloc, parts.most_closes())?;
    let history = Vec::with_capacity(alloc, entries * 2 + 1)?;
    let outcomes = Vec::with_capacity(alloc, ended * 2 + SLOTS)?;
    Ok(Room {
        closes,
        history,
        outcomes,
    })
}

/// Crashes, by one entry, and is up again, with the clock at this, in milliseconds. It takes no memory but this.
pub fn crash<K: Keeper>(ledger: &mut Ledger<K>, parts: &mut Parts, room: Room, clock: u64)
    requires stands { Stands ledger.old parts.old (K.contents ledger.old.keeper) (K.parts ledger.old.keeper) (K.records ledger.old.keeper) }
    requires near { clock ≤ 100000000000 }
    requires room { HasRoom room (beside parts.old ledger.old) }
    ensures stands { Stands ledger.new parts.new (K.contents ledger.new.keeper) (K.parts ledger.new.keeper) (K.records ledger.new.keeper) }
    ensures ok { Crashes (told_of (K.contents ledger.old.keeper) (K.parts ledger.old.keeper)) clock (beside parts.old ledger.old) (beside parts.new ledger.new) }
    ensures paired { StayPaired parts.old.links parts.new.links }
{
    // A law, for the proof: the keys that the parts fill are the state's.
    tables_fill_as_states();
    let Room {
        closes,
        history,
        outcomes,
    } = room;
    take_room(&mut ledger.past, history, outcomes);
    fall(&mut ledger.past, parts, clock, closes);
    ledger.debts.clear();
}
