//! Actions of a plan as jobs, one after the other.
ghost use Rattle.std.specs.Prelude.{◌≡◌, ℕ, ◌<◌, [], ◌∷◌, length, Err, IfOk, None, OnErr, OnOk};
ghost use Rattle.annex_base.specs.Lists.{Each};
ghost use Rattle.annex_key.specs.View.{first_fault};
ghost use Rattle.driver_model.specs.Rounds.{settles};
ghost use Rattle.driver_model.specs.ScriptSteps.{begins};
ghost use Rattle.driver_model.specs.Syncs.{carries_out, job_for};
ghost use Rattle.fleet_entries.specs.Stored.{store_view};
ghost use Rattle.fleet_entries.specs.AtDriver.{EndsAtFull, GoesOn, IsDriven, OnlyAddsEntries, StopsWithin};
ghost use Rattle.fleet_keys.specs.Jobs.{MayBeginAmong};

use annex_base::NoMemory;
use annex_key::{Key, key_texts_have_no_fault};
use driver_model::{drivers_only_add, runs_are_cut_where_histories_are_full};
use fleet_entries::{FleetStop, Running};
use fleet_keys::begin;
use fleet_turns::settle;
use object_store::FailingKeeper;
use run_data::{Job, JobKind};
use wanted_rules::Action;

/// The job begins, and then all settles.
pub fn begin_and_settle<K: FailingKeeper>(
    running: &mut Running<K>,
    repo: u32,
    job: &Job,
) -> Result<(), FleetStop>
    requires there { repo < length running.old.nodes }
    requires driven { IsDriven (λ k. store_view (K.contents k) (K.parts k) (K.failing k) (K.faults k)) running.old }
    requires may { MayBeginAmong (length running.old.nodes) repo job.now }
    requires key { first_fault job.now.key ≡ None }
    ensures ok { OnOk result (GoesOn (λ k. store_view (K.contents k) (K.parts k) (K.failing k) (K.faults k)) (λ g d. settles g (begins repo job.now d)) running.old running.new) }
    ensures full { (r : ℕ) → result ≡ Err (FleetStop.Full r) → EndsAtFull (λ k. store_view (K.contents k) (K.parts k) (K.failing k) (K.faults k)) r (λ g d. settles g (begins repo job.now d)) running.old running.new }
    ensures stopped { OnErr result (StopsWithin (λ k. store_view (K.contents k) (K.parts k) (K.failing k) (K.faults k)) (λ g d. settles g (begins repo job.now d)) running.old running.new) }
    ensures rest { OnlyAddsEntries running.old running.new }
{
    // Laws: a settling only adds entries, and a full history that the job meets is met still.
    drivers_only_add();
    runs_are_cut_where_histories_are_full();
    begin(running, repo, job)?;
    settle(running)
}

/// A job of a key that no path names.
fn job_of(kind: JobKind, key: &Key, peer: Option<u32>) -> Result<Job, NoMemory>
    ensures job { IfOk result (λ job. job ≡ record { kind = kind; key = key.now; path = None; peer = peer }) }
    ensures key { first_fault key.now ≡ None }
{
    // A law, and what is known of a key: its text has no fault.
    key_texts_have_no_fault();
    let _ = key.text();
    let key = key.copy()?;
    Ok(Job {
        kind,
        key,
        path: None,
        peer,
    })
}

/// The action as a job of the repository whose plan it is of.
fn job_for(action: &Action) -> Result<Job, NoMemory>
    ensures job { IfOk result (λ job. job ≡ job_for action.now) }
    ensures key { IfOk result (λ job. first_fault job.key ≡ None) }
{
    match action {
        Action::Get(key) => job_of(JobKind::Get, key, None),
        Action::Put(key, peer) => job_of(JobKind::Copy, key, Some(*peer)),
        Action::DropHere(key) => job_of(JobKind::Drop, key, None),
        Action::DropFrom(key, peer) => job_of(JobKind::Drop, key, Some(*peer)),
    }
}

/// The action begins as a job where a slot is free, and then all settles.
fn carry<K: FailingKeeper>(
    running: &mut Running<K>,
    repo: u32,
    action: &Action,
) -> Result<(), FleetStop>
    requires there { repo < length running.old.nodes }
    requires driven { IsDriven (λ k. store_view (K.contents k) (K.parts k) (K.failing k) (K.faults k)) running.old }
    requires may { MayBeginAmong (length running.old.nodes) repo (job_for action.now) }
    ensures ok { OnOk result (GoesOn (λ k. store_view (K.contents k) (K.parts k) (K.failing k) (K.faults k)) (λ g d. carries_out g repo (action.now ∷ []) d) running.old running.new) }
    ensures full { (r : ℕ) → result ≡ Err (FleetStop.Full r) → EndsAtFull (λ k. store_view (K.contents k) (K.parts k) (K.failing k) (K.faults k)) r (λ g d. carries_out g repo (action.now ∷ []) d) running.old running.new }
    ensures stopped { OnErr result (StopsWithin (λ k. store_view (K.contents k) (K.parts k) (K.failing k) (K.faults k)) (λ g d. carries_out g repo (action.now ∷ []) d) running.old running.new) }
    ensures rest { OnlyAddsEntries running.old running.new }
{
    // A law: jobs and settlings only add entries, so the run is a start of them where memory runs out.
    drivers_only_add();
    let job = job_for(action)?;
    begin_and_settle(running, repo, &job)
}

/// The actions one after the other.
pub(crate) fn carry_out<K: FailingKeeper>(
    running: &mut Running<K>,
    repo: u32,
    actions: &[Action],
) -> Result<(), FleetStop>
    requires there { repo < length running.old.nodes }
    requires driven { IsDriven (λ k. store_view (K.contents k) (K.parts k) (K.failing k) (K.faults k)) running.old }
    requires may { Each (λ action. MayBeginAmong (length running.old.nodes) repo (job_for action)) actions.now }
    ensures ok { OnOk result (GoesOn (λ k. store_view (K.contents k) (K.parts k) (K.failing k) (K.faults k)) (λ g d. carries_out g repo actions.now d) running.old running.new) }
    ensures full { (r : ℕ) → result ≡ Err (FleetStop.Full r) → EndsAtFull (λ k. store_view (K.contents k) (K.parts k) (K.failing k) (K.faults k)) r (λ g d. carries_out g repo actions.now d) running.old running.new }
    ensures stopped { OnErr result (StopsWithin (λ k. store_view (K.contents k) (K.parts k) (K.failing k) (K.faults k)) (λ g d. carries_out g repo actions.now d) running.old running.new) }
    ensures rest { OnlyAddsEntries running.old running.new }
{
    // Laws: actions only add entries; a full history that one meets is met by all.
    drivers_only_add();
    runs_are_cut_where_histories_are_full();
    for action in actions {
        carry(running, repo, action)?;
    }
    Ok(())
}
