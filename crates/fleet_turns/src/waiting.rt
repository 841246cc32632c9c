//! Time that passes.
ghost use Rattle.std.specs.Prelude.{◌≡◌, ℕ, ◌+◌, ◌≤◌, reverse, Err, OnErr, OnOk};
ghost use Rattle.fleet_entries.specs.Stored.{store_view};
ghost use Rattle.run_model.specs.Past.{now};
ghost use Rattle.driver_model.specs.ScriptSteps.{waits};
ghost use Rattle.fleet_entries.specs.AtDriver.{GoesOn, IsDriven, OnlyAddsEntries, StopsWithin};

use annex_base::Items;
use driver_model::{drivers_only_add, drivers_stay_sound};
use fleet_entries::{FleetStop, Running, fleets_do_lines};
use object_store::FailingKeeper;
use run_data::{Entry, EntryKind};

/// The time rises by so many milliseconds.
pub fn wait<K: FailingKeeper>(running: &mut Running<K>, milliseconds: u64) -> Result<(), FleetStop>
    requires driven { IsDriven (λ k. store_view (K.contents k) (K.parts k) (K.failing k) (K.faults k)) running.old }
    requires early { now (reverse running.old.run.entries) + milliseconds ≤ 1000000000000 }
    ensures ok { OnOk result (GoesOn (λ k. store_view (K.contents k) (K.parts k) (K.failing k) (K.faults k)) (λ g d. waits milliseconds d) running.old running.new) }
    ensures full { (r : ℕ) → result ≡ Err (FleetStop.Full r) → ⊥ }
    ensures stopped { OnErr result (StopsWithin (λ k. store_view (K.contents k) (K.parts k) (K.failing k) (K.faults k)) (λ g d. waits milliseconds d) running.old running.new) }
    ensures rest { OnlyAddsEntries running.old running.new }
{
    // Laws: the fleet goes on as the driver, which stays sound and only adds entries.
    fleets_do_lines::<K>();
    drivers_stay_sound();
    drivers_only_add();
    // For the proof: the count has room.
    running.entries_are_few();
    let count = running.newest_count();
    let entry = Entry {
        time: running.now() + milliseconds,
        count: count + 1,
        repo: None,
        kind: EntryKind::Wait(milliseconds),
        taken: None,
        sent: Items::new(running.alloc),
        lines: Items::new(running.alloc),
    };
    running.run.entries.push(entry)?;
    Ok(())
}
