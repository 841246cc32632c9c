//! Turns, and rounds of turns until all are idle.
ghost use Rattle.std.specs.Prelude.{◌≡◌, ℕ, ◌+◌, ◌<◌, ◌==◌, if◌then◌else◌, true, false, length, map, slice_get, Err, OnErr, OnOk, Some};
ghost use Rattle.std.specs.List.{list_any};
ghost use Rattle.link_ring.specs.Ends.{after_drop, has_frames};
ghost use Rattle.fleet_entries.specs.Nodes.{NodeView};
ghost use Rattle.fleet_entries.specs.Stored.{store_view};
ghost use Rattle.fleet_entries.specs.Joined.{AreNodes};
ghost use Rattle.driver_model.specs.Driving.{turns};
ghost use Rattle.driver_model.specs.Rounds.{round, settles};
ghost use Rattle.driver_model.specs.Turning.{turn};
ghost use Rattle.fleet_entries.specs.AtDriver.{EndsAtFull, GoesOn, IsDriven, OnlyAddsEntries, StopsWithin};

use driver_model::{drivers_only_add, runs_are_cut_where_histories_are_full};
use fleet_entries::{
    FleetStop, Running, Turn, fleets_rest, fleets_settle, fleets_stop_at_full_histories,
    fleets_take_turns,
};
use object_store::FailingKeeper;

/// Two to the power 22. Of each two rounds one behind the other, but for the last two, one adds an entry, and no repository of at most
/// sixteen makes more than 100,000 entries; so this many are never made.
const MOST_ROUNDS: u32 = 4_194_304;

/// Whether a turn found no step ready, and began where no frame was at hand.
fn is_still(turn: Turn, frames: bool) -> bool
    ensures turn { result ≡ true → turn ≡ Turn.Idle }
    ensures frames { result ≡ true → frames ≡ false }
    ensures still { turn ≡ Turn.Idle → frames ≡ false → result ≡ true }
{
    match turn {
        Turn::Idle => !frames,
        Turn::Moved | Turn::Full | Turn::NoMemory => false,
    }
}

/// How many rounds one behind the other were idle, after one more before and after which there were so many entries.
fn idle_rounds(before: usize, after: usize, idle: u32) -> u32
    requires { idle < 2 }
    ensures { result ≡ (if before == after then idle + 1 else 0) }
{
    if before == after { idle + 1 } else { 0 }
}

/// Whether a frame is at hand at an end of a repository's node. Where none is, none is dropped there.
fn has_frames<K: FailingKeeper>(running: &Running<K>, repo: u32) -> bool
    requires there { repo < length running.now.nodes }
    ensures any { (n : NodeView K) → slice_get running.now.nodes repo ≡ Some n → result ≡ list_any has_frames n.parts.links }
    ensures kept { (n : NodeView K) → slice_get running.now.nodes repo ≡ Some n → result ≡ false → map after_drop n.parts.links ≡ n.parts.links }
    ensures joined { AreNodes running.now.nodes }
{
    // For the proof: each two nodes are joined.
    let _ = running.nodes.count();
    running.nodes.node(repo as usize).has_frames()
}

/// A turn of a repository, after which frames are carried between it and all others. Where it was idle and no frame was at hand, there
/// is none to carry.
fn turn<K: FailingKeeper>(running: &mut Running<K>, repo: u32) -> Result<(), FleetStop>
    requires there { repo < length running.old.nodes }
    requires driven { IsDriven (λ k. store_view (K.contents k) (K.parts k) (K.failing k) (K.faults k)) running.old }
    ensures ok { OnOk result (GoesOn (λ k. store_view (K.contents k) (K.parts k) (K.failing k) (K.faults k)) (λ g d. turn g repo d) running.old running.new) }
    ensures full { (r : ℕ) → result ≡ Err (FleetStop.Full r) → EndsAtFull (λ k. store_view (K.contents k) (K.parts k) (K.failing k) (K.faults k)) r (λ g d. turn g repo d) running.old running.new }
    ensures stopped { OnErr result (StopsWithin (λ k. store_view (K.contents k) (K.parts k) (K.failing k) (K.faults k)) (λ g d. turn g repo d) running.old running.new) }
    ensures rest { OnlyAddsEntries running.old running.new }
    ensures count { length running.new.nodes ≡ length running.old.nodes }
{
    // Laws: the fleet takes turns, or rests, as the driver, which only adds entries, or stops at a full history.
    fleets_take_turns::<K>();
    fleets_rest::<K>();
    drivers_only_add();
    fleets_stop_at_full_histories::<K>();
    let frames = has_frames(running, repo);
    let had = running.raise(repo);
    let turn = running.nodes.turn(repo as usize);
    if is_still(turn, frames) {
        return Ok(());
    }
    // For the proof: what the node has is the state that its history leaves.
    running.see(repo);
    running.nodes.carry(repo as usize);
    let line = running.after_turn(repo, turn);
    running.end_call(repo, had, line)
}

/// So many turns of a repository.
pub fn take_turns<K: FailingKeeper>(
    running: &mut Running<K>,
    repo: u32,
    number: u32,
) -> Result<(), FleetStop>
    requires there { repo < length running.old.nodes }
    requires driven { IsDriven (λ k. store_view (K.contents k) (K.parts k) (K.failing k) (K.faults k)) running.old }
    ensures ok { OnOk result (GoesOn (λ k. store_view (K.contents k) (K.parts k) (K.failing k) (K.faults k)) (λ g d. turns g repo number d) running.old running.new) }
    ensures full { (r : ℕ) → result ≡ Err (FleetStop.Full r) → EndsAtFull (λ k. store_view (K.contents k) (K.parts k) (K.failing k) (K.faults k)) r (λ g d. turns g repo number d) running.old running.new }
    ensures stopped { OnErr result (StopsWithin (λ k. store_view (K.contents k) (K.parts k) (K.failing k) (K.faults k)) (λ g d. turns g repo number d) running.old running.new) }
    ensures rest { OnlyAddsEntries running.old running.new }
{
    // Laws: turns come one behind the other and only add entries; a full history that one meets is met by all.
    fleets_settle();
    drivers_only_add();
    runs_are_cut_where_histories_are_full();
    for _ in 0..number {
        turn(running, repo)?;
    }
    Ok(())
}

/// One turn of each repository, in order of number.
fn round<K: FailingKeeper>(running: &mut Running<K>) -> Result<(), FleetStop>
    requires driven { IsDriven (λ k. store_view (K.contents k) (K.parts k) (K.failing k) (K.faults k)) running.old }
    ensures ok { OnOk result (GoesOn (λ k. store_view (K.contents k) (K.parts k) (K.failing k) (K.faults k)) (λ g d. round g d) running.old running.new) }
    ensures full { (r : ℕ) → result ≡ Err (FleetStop.Full r) → EndsAtFull (λ k. store_view (K.contents k) (K.parts k) (K.failing k) (K.faults k)) r (λ g d. round g d) running.old running.new }
    ensures stopped { OnErr result (StopsWithin (λ k. store_view (K.contents k) (K.parts k) (K.failing k) (K.faults k)) (λ g d. round g d) running.old running.new) }
    ensures rest { OnlyAddsEntries running.old running.new }
{
    // Laws: a round is a turn of each, which only adds entries; a full history that one meets is met by the round.
    fleets_settle();
    drivers_only_add();
    runs_are_cut_where_histories_are_full();
    for repo in 0..running.count() {
        turn(running, repo)?;
    }
    Ok(())
}

/// Rounds until two after each other are idle.
pub fn settle<K: FailingKeeper>(running: &mut Running<K>) -> Result<(), FleetStop>
    requires driven { IsDriven (λ k. store_view (K.contents k) (K.parts k) (K.failing k) (K.faults k)) running.old }
    ensures ok { OnOk result (GoesOn (λ k. store_view (K.contents k) (K.parts k) (K.failing k) (K.faults k)) (λ g d. settles g d) running.old running.new) }
    ensures full { (r : ℕ) → result ≡ Err (FleetStop.Full r) → EndsAtFull (λ k. store_view (K.contents k) (K.parts k) (K.failing k) (K.faults k)) r (λ g d. settles g d) running.old running.new }
    ensures stopped { OnErr result (StopsWithin (λ k. store_view (K.contents k) (K.parts k) (K.failing k) (K.faults k)) (λ g d. settles g d) running.old running.new) }
    ensures rest { OnlyAddsEntries running.old running.new }
{
    // Laws: a settling is rounds, which only add entries; a full history that one meets is met by the settling.
    fleets_settle();
    drivers_only_add();
    runs_are_cut_where_histories_are_full();
    let mut idle = 0u32;
    for _ in 0..MOST_ROUNDS {
        if idle >= 2 {
            return Ok(());
        }
        let before = running.made();
        round(running)?;
        idle = idle_rounds(before, running.made(), idle);
    }
    Ok(())
}
