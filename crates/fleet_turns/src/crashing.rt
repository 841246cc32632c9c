//! A repository that crashes, as a script has it.
ghost use Rattle.std.specs.Prelude.{◌≡◌, ℕ, ◌<◌, ◌≤◌, length, Err, OnErr, OnOk};
ghost use Rattle.fleet_entries.specs.Stored.{store_view};
ghost use Rattle.driver_model.specs.ScriptSteps.{crashes};
ghost use Rattle.fleet_entries.specs.AtDriver.{EndsAtFull, GoesOn, IsDriven, OnlyAddsEntries, StopsWithin};
ghost use Rattle.fleet_entries.specs.Telling.{AreFew};

use driver_model::{drivers_only_add, drivers_stay_sound};
use fleet_entries::{FleetStop, Running, fleets_crash, fleets_stop_at_full_histories};
use object_store::FailingKeeper;

/// For the proof: no history is longer than it may be.
fn are_few<K: FailingKeeper>(running: &Running<K>)
    ensures { AreFew running.now.nodes }
{
    running.nodes.histories_are_few();
}

/// A repository crashes by one entry, which closes each of its ends that is open, and is up again at once, with its clock at this; and
/// then frames are carried between it and all others.
pub fn crash<K: FailingKeeper>(
    running: &mut Running<K>,
    repo: u32,
    clock: u64,
) -> Result<(), FleetStop>
    requires there { repo < length running.old.nodes }
    requires near { clock ≤ 100000000000 }
    requires driven { IsDriven (λ k. store_view (K.contents k) (K.parts k) (K.failing k) (K.faults k)) running.old }
    ensures ok { OnOk result (GoesOn (λ k. store_view (K.contents k) (K.parts k) (K.failing k) (K.faults k)) (λ g d. crashes g repo clock d) running.old running.new) }
    ensures full { (r : ℕ) → result ≡ Err (FleetStop.Full r) → EndsAtFull (λ k. store_view (K.contents k) (K.parts k) (K.failing k) (K.faults k)) r (λ g d. crashes g repo clock d) running.old running.new }
    ensures stopped { OnErr result (StopsWithin (λ k. store_view (K.contents k) (K.parts k) (K.failing k) (K.faults k)) (λ g d. crashes g repo clock d) running.old running.new) }
    ensures rest { OnlyAddsEntries running.old running.new }
{
    // Laws: the fleet crashes as the driver, which stays sound and only adds entries, or stops at a full history.
    fleets_crash::<K>();
    drivers_stay_sound();
    drivers_only_add();
    fleets_stop_at_full_histories::<K>();
    are_few(running);
    let had = running.raise(repo);
    let done = running.nodes.crash(repo as usize, clock);
    running.nodes.carry(repo as usize);
    let line = running.after_step(repo, done);
    running.end_call(repo, had, line)
}
