//! What a plan brings and drops, and whole syncs.
ghost use Rattle.std.specs.Prelude.{◌≡◌, ℕ, ◌<◌, Err, OnErr, OnOk, filter, length, not};
ghost use Rattle.driver_model.specs.Syncs.{drops_spared, is_transfer, shares_logs, syncs, transfers};
ghost use Rattle.fleet_entries.specs.Stored.{store_view};
ghost use Rattle.fleet_entries.specs.AtDriver.{EndsAtFull, GoesOn, IsDriven, OnlyAddsEntries, StopsWithin};

use crate::carrying::carry_out;
use crate::planning::plan_of;
use crate::sharing::share_logs;
use driver_model::{drivers_only_add, runs_are_cut_where_histories_are_full};
use fleet_entries::{FleetStop, Running};
use object_store::FailingKeeper;
use std::thread::Threads;
use wanted_rules::Action;

/// Whether the action brings a content somewhere.
fn is_transfer(action: &Action) -> bool
    ensures { result ≡ is_transfer action.now }
{
    match action {
        Action::Get(_) | Action::Put(..) => true,
        Action::DropHere(_) | Action::DropFrom(..) => false,
    }
}

/// Keeps the actions that bring contents.
fn keep_transfers(actions: &mut Vec<Action>)
    ensures { actions.new.items ≡ filter is_transfer actions.old.items }
{
    actions.retain(|action: &Action| is_transfer(action));
}

/// Keeps the actions that drop contents.
fn keep_drops(actions: &mut Vec<Action>)
    ensures { actions.new.items ≡ filter (λ action. not (is_transfer action)) actions.old.items }
{
    actions.retain(|action: &Action| !is_transfer(action));
}

/// Carries out those actions of the repository's plan that bring contents.
fn transfer<R: Threads + Sync, K: FailingKeeper>(
    rt: &R,
    running: &mut Running<K>,
    repo: u32,
) -> Result<(), FleetStop>
    requires there { repo < length running.old.nodes }
    requires driven { IsDriven (λ k. store_view (K.contents k) (K.parts k) (K.failing k) (K.faults k)) running.old }
    ensures ok { OnOk result (GoesOn (λ k. store_view (K.contents k) (K.parts k) (K.failing k) (K.faults k)) (λ g d. transfers g repo d) running.old running.new) }
    ensures full { (r : ℕ) → result ≡ Err (FleetStop.Full r) → EndsAtFull (λ k. store_view (K.contents k) (K.parts k) (K.failing k) (K.faults k)) r (λ g d. transfers g repo d) running.old running.new }
    ensures stopped { OnErr result (StopsWithin (λ k. store_view (K.contents k) (K.parts k) (K.failing k) (K.faults k)) (λ g d. transfers g repo d) running.old running.new) }
    ensures rest { OnlyAddsEntries running.old running.new }
{
    // A law: transfers only add entries, so the run is a start of them where memory runs out.
    drivers_only_add();
    let mut actions = plan_of(rt, running, repo)?;
    keep_transfers(&mut actions);
    carry_out(running, repo, &actions)
}

/// Carries out those actions of the repository's plan that drop contents.
fn drop_spared<R: Threads + Sync, K: FailingKeeper>(
    rt: &R,
    running: &mut Running<K>,
    repo: u32,
) -> Result<(), FleetStop>
    requires there { repo < length running.old.nodes }
    requires driven { IsDriven (λ k. store_view (K.contents k) (K.parts k) (K.failing k) (K.faults k)) running.old }
    ensures ok { OnOk result (GoesOn (λ k. store_view (K.contents k) (K.parts k) (K.failing k) (K.faults k)) (λ g d. drops_spared g repo d) running.old running.new) }
    ensures full { (r : ℕ) → result ≡ Err (FleetStop.Full r) → EndsAtFull (λ k. store_view (K.contents k) (K.parts k) (K.failing k) (K.faults k)) r (λ g d. drops_spared g repo d) running.old running.new }
    ensures stopped { OnErr result (StopsWithin (λ k. store_view (K.contents k) (K.parts k) (K.failing k) (K.faults k)) (λ g d. drops_spared g repo d) running.old running.new) }
    ensures rest { OnlyAddsEntries running.old running.new }
{
    // A law: drops only add entries, so the run is a start of them where memory runs out.
    drivers_only_add();
    let mut actions = plan_of(rt, running, repo)?;
    keep_drops(&mut actions);
    carry_out(running, repo, &actions)
}

/// Logs are shared, and what a plan brings is brought.
fn share_and_transfer<R: Threads + Sync, K: FailingKeeper>(
    rt: &R,
    running: &mut Running<K>,
    repo: u32,
) -> Result<(), FleetStop>
    requires there { repo < length running.old.nodes }
    requires driven { IsDriven (λ k. store_view (K.contents k) (K.parts k) (K.failing k) (K.faults k)) running.old }
    ensures ok { OnOk result (GoesOn (λ k. store_view (K.contents k) (K.parts k) (K.failing k) (K.faults k)) (λ g d. transfers g repo (shares_logs g repo d)) running.old running.new) }
    ensures full { (r : ℕ) → result ≡ Err (FleetStop.Full r) → EndsAtFull (λ k. store_view (K.contents k) (K.parts k) (K.failing k) (K.faults k)) r (λ g d. transfers g repo (shares_logs g repo d)) running.old running.new }
    ensures stopped { OnErr result (StopsWithin (λ k. store_view (K.contents k) (K.parts k) (K.failing k) (K.faults k)) (λ g d. transfers g repo (shares_logs g repo d)) running.old running.new) }
    ensures rest { OnlyAddsEntries running.old running.new }
{
    // Laws: transfers only add entries, and a full history that a sharing meets is met still.
    drivers_only_add();
    runs_are_cut_where_histories_are_full();
    share_logs(running, repo)?;
    transfer(rt, running, repo)
}

/// What a plan drops is dropped, and logs are shared.
fn drop_and_share<R: Threads + Sync, K: FailingKeeper>(
    rt: &R,
    running: &mut Running<K>,
    repo: u32,
) -> Result<(), FleetStop>
    requires there { repo < length running.old.nodes }
    requires driven { IsDriven (λ k. store_view (K.contents k) (K.parts k) (K.failing k) (K.faults k)) running.old }
    ensures ok { OnOk result (GoesOn (λ k. store_view (K.contents k) (K.parts k) (K.failing k) (K.faults k)) (λ g d. shares_logs g repo (drops_spared g repo d)) running.old running.new) }
    ensures full { (r : ℕ) → result ≡ Err (FleetStop.Full r) → EndsAtFull (λ k. store_view (K.contents k) (K.parts k) (K.failing k) (K.faults k)) r (λ g d. shares_logs g repo (drops_spared g repo d)) running.old running.new }
    ensures stopped { OnErr result (StopsWithin (λ k. store_view (K.contents k) (K.parts k) (K.failing k) (K.faults k)) (λ g d. shares_logs g repo (drops_spared g repo d)) running.old running.new) }
    ensures rest { OnlyAddsEntries running.old running.new }
{
    // Laws: a sharing only adds entries, and a full history that a drop meets is met still.
    drivers_only_add();
    runs_are_cut_where_histories_are_full();
    drop_spared(rt, running, repo)?;
    share_logs(running, repo)
}

/// Logs are shared; what one plan of the repository brings is brought, and what a second plan drops is dropped; and logs are shared again.
/// Threads make the plans.
pub fn sync<R: Threads + Sync, K: FailingKeeper>(
    rt: &R,
    running: &mut Running<K>,
    repo: u32,
) -> Result<(), FleetStop>
    requires there { repo < length running.old.nodes }
    requires driven { IsDriven (λ k. store_view (K.contents k) (K.parts k) (K.failing k) (K.faults k)) running.old }
    ensures ok { OnOk result (GoesOn (λ k. store_view (K.contents k) (K.parts k) (K.failing k) (K.faults k)) (λ g d. syncs g repo d) running.old running.new) }
    ensures full { (r : ℕ) → result ≡ Err (FleetStop.Full r) → EndsAtFull (λ k. store_view (K.contents k) (K.parts k) (K.failing k) (K.faults k)) r (λ g d. syncs g repo d) running.old running.new }
    ensures stopped { OnErr result (StopsWithin (λ k. store_view (K.contents k) (K.parts k) (K.failing k) (K.faults k)) (λ g d. syncs g repo d) running.old running.new) }
    ensures rest { OnlyAddsEntries running.old running.new }
{
    // Laws: drops and sharings only add entries, and a full history that a transfer meets is met still.
    drivers_only_add();
    runs_are_cut_where_histories_are_full();
    share_and_transfer(rt, running, repo)?;
    drop_and_share(rt, running, repo)
}
