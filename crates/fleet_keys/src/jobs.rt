//! Jobs that begin.
ghost use Rattle.std.specs.Prelude.{◌≡◌, ℕ, ◌<◌, length, None, Err, IfOk, OnErr, OnOk};
ghost use Rattle.annex_key.specs.Tree.{paths_of};
ghost use Rattle.annex_key.specs.View.{first_fault};
ghost use Rattle.fleet_entries.specs.Stored.{store_view};
ghost use Rattle.run_model.specs.Run.{tree_at};
ghost use Rattle.driver_model.specs.ScriptSteps.{begins};
ghost use Rattle.fleet_entries.specs.AtDriver.{EndsAtFull, GoesOn, IsDriven, OnlyAddsEntries, StopsWithin};
ghost use Rattle.fleet_keys.specs.Jobs.{MayBeginAmong};

use crate::naming::paths;
use annex_base::{Items, NoMemory, Text};
use driver_model::{drivers_only_add, drivers_stay_sound};
use fleet_entries::{FleetStop, Running, fleets_do_lines, fleets_stop_at_full_histories};
use object_store::FailingKeeper;
use run_data::Job;

/// A copy of the job.
fn copied(job: &Job) -> Result<Job, NoMemory>
    ensures { IfOk result (λ copy. copy ≡ job.now) }
{
    Ok(job.clone()?)
}

/// A job begins where fewer than four run: a drop, a get, or a copy or a move, whose peer is another repository.
pub fn begin<K: FailingKeeper>(
    running: &mut Running<K>,
    repo: u32,
    job: &Job,
) -> Result<(), FleetStop>
    requires there { repo < length running.old.nodes }
    requires driven { IsDriven (λ k. store_view (K.contents k) (K.parts k) (K.failing k) (K.faults k)) running.old }
    requires may { MayBeginAmong (length running.old.nodes) repo job.now }
    requires key { first_fault job.now.key ≡ None }
    ensures ok { OnOk result (GoesOn (λ k. store_view (K.contents k) (K.parts k) (K.failing k) (K.faults k)) (λ g d. begins repo job.now d) running.old running.new) }
    ensures full { (r : ℕ) → result ≡ Err (FleetStop.Full r) → EndsAtFull (λ k. store_view (K.contents k) (K.parts k) (K.failing k) (K.faults k)) r (λ g d. begins repo job.now d) running.old running.new }
    ensures stopped { OnErr result (StopsWithin (λ k. store_view (K.contents k) (K.parts k) (K.failing k) (K.faults k)) (λ g d. begins repo job.now d) running.old running.new) }
    ensures rest { OnlyAddsEntries running.old running.new }
{
    // A law: a beginning only adds entries, so the run is a start of them where memory runs out.
    drivers_only_add();
    let paths = paths(running, &job.key)?;
    begin_with(running, repo, job, paths)
}

/// The same of a key with these paths.
fn begin_with<K: FailingKeeper>(
    running: &mut Running<K>,
    repo: u32,
    job: &Job,
    paths: Items<Text>,
) -> Result<(), FleetStop>
    requires there { repo < length running.old.nodes }
    requires driven { IsDriven (λ k. store_view (K.contents k) (K.parts k) (K.failing k) (K.faults k)) running.old }
    requires may { MayBeginAmong (length running.old.nodes) repo job.now }
    requires key { first_fault job.now.key ≡ None }
    requires paths { paths ≡ paths_of (tree_at running.old.run.tree (length running.old.run.entries)) job.now.key }
    ensures ok { OnOk result (GoesOn (λ k. store_view (K.contents k) (K.parts k) (K.failing k) (K.faults k)) (λ g d. begins repo job.now d) running.old running.new) }
    ensures full { (r : ℕ) → result ≡ Err (FleetStop.Full r) → EndsAtFull (λ k. store_view (K.contents k) (K.parts k) (K.failing k) (K.faults k)) r (λ g d. begins repo job.now d) running.old running.new }
    ensures stopped { OnErr result (StopsWithin (λ k. store_view (K.contents k) (K.parts k) (K.failing k) (K.faults k)) (λ g d. begins repo job.now d) running.old running.new) }
    ensures rest { OnlyAddsEntries running.old running.new }
{
    // Laws: the fleet goes on as the driver, which stays sound and only adds entries, or stops at a full history.
    fleets_do_lines::<K>();
    drivers_stay_sound();
    drivers_only_add();
    fleets_stop_at_full_histories::<K>();
    let job = copied(job)?;
    let had = running.raise(repo);
    let begun = running.nodes.begin(repo as usize, job, paths);
    let line = running.after_begin(repo, begun);
    running.end_call(repo, had, line)
}
