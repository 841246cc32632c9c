//! Lines that a script lets nodes write into their logs, and what it does with whole branches.
ghost use Rattle.std.specs.Prelude.{◌≡◌, ◌≢◌, ℕ, ◌<◌, length, None, Err, OnErr, OnOk};
ghost use Rattle.run_data.specs.Files.{HasPath, kind_of};
ghost use Rattle.union_merge.specs.LineSet.{IsLine};
ghost use Rattle.fleet_entries.specs.Stored.{store_view};
ghost use Rattle.driver_model.specs.ScriptSteps.{compacts, merges, writes};
ghost use Rattle.fleet_entries.specs.AtDriver.{EndsAtFull, GoesOn, IsDriven, OnlyAddsEntries, StopsWithin};

use annex_base::Line;
use driver_model::{drivers_only_add, drivers_stay_sound};
use fleet_entries::{FleetStop, Running, fleets_do_lines, fleets_stop_at_full_histories};
use object_store::FailingKeeper;
use run_data::{LogFile, files_have_their_paths};

/// A line as it stands.
pub fn write<K: FailingKeeper>(
    running: &mut Running<K>,
    repo: u32,
    file: &LogFile,
    line: &Line,
) -> Result<(), FleetStop>
    requires there { repo < length running.old.nodes }
    requires driven { IsDriven (λ k. store_view (K.contents k) (K.parts k) (K.failing k) (K.faults k)) running.old }
    requires file { HasPath file.now }
    requires kind { kind_of file.now ≢ None }
    requires line { IsLine line.now }
    ensures ok { OnOk result (GoesOn (λ k. store_view (K.contents k) (K.parts k) (K.failing k) (K.faults k)) (λ g d. writes repo file.now line.now d) running.old running.new) }
    ensures full { (r : ℕ) → result ≡ Err (FleetStop.Full r) → EndsAtFull (λ k. store_view (K.contents k) (K.parts k) (K.failing k) (K.faults k)) r (λ g d. writes repo file.now line.now d) running.old running.new }
    ensures stopped { OnErr result (StopsWithin (λ k. store_view (K.contents k) (K.parts k) (K.failing k) (K.faults k)) (λ g d. writes repo file.now line.now d) running.old running.new) }
    ensures rest { OnlyAddsEntries running.old running.new }
{
    // Laws: the fleet goes on as the driver, which stays sound and only adds entries, or stops at a full history.
    fleets_do_lines::<K>();
    drivers_stay_sound();
    drivers_only_add();
    fleets_stop_at_full_histories::<K>();
    // A law: a file is read off its path.
    files_have_their_paths();
    let path = file.path(running.alloc)?;
    let had = running.raise(repo);
    let done = running
        .nodes
        .write_raw(repo as usize, path.bytes(), line.bytes());
    let line = running.after_step(repo, done);
    running.end_call(repo, had, line)
}

/// The lines of another's branch.
pub fn merge<K: FailingKeeper>(
    running: &mut Running<K>,
    repo: u32,
    other: u32,
) -> Result<(), FleetStop>
    requires there { repo < length running.old.nodes }
    requires driven { IsDriven (λ k. store_view (K.contents k) (K.parts k) (K.failing k) (K.faults k)) running.old }
    requires other { other < length running.old.nodes }
    ensures ok { OnOk result (GoesOn (λ k. store_view (K.contents k) (K.parts k) (K.failing k) (K.faults k)) (λ g d. merges repo other d) running.old running.new) }
    ensures full { (r : ℕ) → result ≡ Err (FleetStop.Full r) → EndsAtFull (λ k. store_view (K.contents k) (K.parts k) (K.failing k) (K.faults k)) r (λ g d. merges repo other d) running.old running.new }
    ensures stopped { OnErr result (StopsWithin (λ k. store_view (K.contents k) (K.parts k) (K.failing k) (K.faults k)) (λ g d. merges repo other d) running.old running.new) }
    ensures rest { OnlyAddsEntries running.old running.new }
{
    // Laws: the fleet goes on as the driver, which stays sound and only adds entries, or stops at a full history.
    fleets_do_lines::<K>();
    drivers_stay_sound();
    drivers_only_add();
    fleets_stop_at_full_histories::<K>();
    let had = running.raise(repo);
    let done = running.nodes.merge(repo as usize, other as usize);
    let line = running.after_step(repo, done);
    running.end_call(repo, had, line)
}

/// The outdated lines of its branch are taken away.
pub fn compact<K: FailingKeeper>(running: &mut Running<K>, repo: u32) -> Result<(), FleetStop>
    requires there { repo < length running.old.nodes }
    requires driven { IsDriven (λ k. store_view (K.contents k) (K.parts k) (K.failing k) (K.faults k)) running.old }
    ensures ok { OnOk result (GoesOn (λ k. store_view (K.contents k) (K.parts k) (K.failing k) (K.faults k)) (λ g d. compacts repo d) running.old running.new) }
    ensures full { (r : ℕ) → result ≡ Err (FleetStop.Full r) → EndsAtFull (λ k. store_view (K.contents k) (K.parts k) (K.failing k) (K.faults k)) r (λ g d. compacts repo d) running.old running.new }
    ensures stopped { OnErr result (StopsWithin (λ k. store_view (K.contents k) (K.parts k) (K.failing k) (K.faults k)) (λ g d. compacts repo d) running.old running.new) }
    ensures rest { OnlyAddsEntries running.old running.new }
{
    // Laws: the fleet goes on as the driver, which stays sound and only adds entries, or stops at a full history.
    fleets_do_lines::<K>();
    drivers_stay_sound();
    drivers_only_add();
    fleets_stop_at_full_histories::<K>();
    let had = running.raise(repo);
    let done = running.nodes.compact(repo as usize);
    let line = running.after_step(repo, done);
    running.end_call(repo, had, line)
}
