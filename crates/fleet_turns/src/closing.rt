//! Ends of connections that a script closes.
ghost use Rattle.std.specs.Prelude.{◌≡◌, ◌≢◌, ℕ, ◌<◌, length, Err, OnErr, OnOk};
ghost use Rattle.fleet_entries.specs.Joined.{AreNodes};
ghost use Rattle.fleet_entries.specs.Stored.{store_view};
ghost use Rattle.driver_model.specs.ScriptSteps.{closes};
ghost use Rattle.fleet_entries.specs.AtDriver.{ClosesNone, GoesOn, HasPlaces, IsDriven, OnlyAddsEntries, StopsWithin};
ghost use Rattle.fleet_entries.specs.Telling.{AreFew};

use driver_model::{drivers_only_add, drivers_stay_sound, runs_are_cut_where_histories_are_full};
use fleet_entries::{FleetStop, Running, fleets_close};
use object_store::FailingKeeper;

/// For the proof: each two nodes are joined, and no history is longer than it may be.
fn are_joined<K: FailingKeeper>(running: &Running<K>)
    ensures joined { AreNodes running.now.nodes }
    ensures few { AreFew running.now.nodes }
{
    let _ = running.nodes.count();
    running.nodes.histories_are_few();
}

/// A repository closes its ends of the connections with another that are open, each by one entry, and then frames are carried between it
/// and all others. Where its history has too few places left for all of them, it closes none.
pub fn close<K: FailingKeeper>(
    running: &mut Running<K>,
    repo: u32,
    other: u32,
) -> Result<(), FleetStop>
    requires there { repo < length running.old.nodes }
    requires other { other < length running.old.nodes }
    requires apart { other ≢ repo }
    requires driven { IsDriven (λ k. store_view (K.contents k) (K.parts k) (K.failing k) (K.faults k)) running.old }
    ensures ok { OnOk result (GoesOn (λ k. store_view (K.contents k) (K.parts k) (K.failing k) (K.faults k)) (λ g d. closes g repo other d) running.old running.new) }
    ensures places { OnOk result (HasPlaces (λ k. store_view (K.contents k) (K.parts k) (K.failing k) (K.faults k)) repo other running.old) }
    ensures full { (r : ℕ) → result ≡ Err (FleetStop.Full r) → (r ≡ repo) × ClosesNone (λ k. store_view (K.contents k) (K.parts k) (K.failing k) (K.faults k)) repo other running.old running.new }
    ensures stopped { OnErr result (StopsWithin (λ k. store_view (K.contents k) (K.parts k) (K.failing k) (K.faults k)) (λ g d. closes g repo other d) running.old running.new) }
    ensures rest { OnlyAddsEntries running.old running.new }
{
    // Laws: the fleet closes ends, or lacks places for that, as the driver, which stays sound and only adds entries; and no past with few
    // entries of each repository is too long.
    fleets_close::<K>();
    drivers_stay_sound();
    drivers_only_add();
    runs_are_cut_where_histories_are_full();
    are_joined(running);
    let had = running.raise(repo);
    let done = running.nodes.close_end(repo as usize, other);
    running.nodes.carry(repo as usize);
    let line = running.after_step(repo, done);
    running.end_call(repo, had, line)
}
