//! Repositories share their logs.
ghost use Rattle.std.specs.Prelude.{◌≡◌, ℕ, ◌<◌, [], ◌∷◌, length, Err, OnErr, OnOk};
ghost use Rattle.driver_model.specs.Syncs.{each_merges, merges_each, numbers_but, shares_logs};
ghost use Rattle.fleet_entries.specs.Stored.{store_view};
ghost use Rattle.fleet_entries.specs.AtDriver.{EndsAtFull, GoesOn, IsDriven, OnlyAddsEntries, StopsWithin};
ghost use Rattle.fleet_syncs.specs.Others.{others_among};

use driver_model::{drivers_only_add, runs_are_cut_where_histories_are_full};
use fleet_entries::{FleetStop, Running};
use fleet_logs::merge;
use fleet_turns::settle;
use object_store::FailingKeeper;

/// The repository merges the branch of the other one, unless they are the same.
fn merge_other<K: FailingKeeper>(
    running: &mut Running<K>,
    repo: u32,
    other: u32,
) -> Result<(), FleetStop>
    requires there { repo < length running.old.nodes }
    requires driven { IsDriven (λ k. store_view (K.contents k) (K.parts k) (K.failing k) (K.faults k)) running.old }
    requires other { other < length running.old.nodes }
    ensures ok { OnOk result (GoesOn (λ k. store_view (K.contents k) (K.parts k) (K.failing k) (K.faults k)) (λ g d. merges_each repo (others_among repo (other ∷ [])) d) running.old running.new) }
    ensures full { (r : ℕ) → result ≡ Err (FleetStop.Full r) → EndsAtFull (λ k. store_view (K.contents k) (K.parts k) (K.failing k) (K.faults k)) r (λ g d. merges_each repo (others_among repo (other ∷ [])) d) running.old running.new }
    ensures stopped { OnErr result (StopsWithin (λ k. store_view (K.contents k) (K.parts k) (K.failing k) (K.faults k)) (λ g d. merges_each repo (others_among repo (other ∷ [])) d) running.old running.new) }
    ensures rest { OnlyAddsEntries running.old running.new }
{
    if other == repo {
        return Ok(());
    }
    merge(running, repo, other)
}

/// The repository merges the branch of each other one, in order of number.
fn merge_each<K: FailingKeeper>(running: &mut Running<K>, repo: u32) -> Result<(), FleetStop>
    requires there { repo < length running.old.nodes }
    requires driven { IsDriven (λ k. store_view (K.contents k) (K.parts k) (K.failing k) (K.faults k)) running.old }
    ensures ok { OnOk result (GoesOn (λ k. store_view (K.contents k) (K.parts k) (K.failing k) (K.faults k)) (λ g d. merges_each repo (numbers_but g repo) d) running.old running.new) }
    ensures full { (r : ℕ) → result ≡ Err (FleetStop.Full r) → EndsAtFull (λ k. store_view (K.contents k) (K.parts k) (K.failing k) (K.faults k)) r (λ g d. merges_each repo (numbers_but g repo) d) running.old running.new }
    ensures stopped { OnErr result (StopsWithin (λ k. store_view (K.contents k) (K.parts k) (K.failing k) (K.faults k)) (λ g d. merges_each repo (numbers_but g repo) d) running.old running.new) }
    ensures rest { OnlyAddsEntries running.old running.new }
{
    // Laws: merges only add entries; a full history that one meets is met by all.
    drivers_only_add();
    runs_are_cut_where_histories_are_full();
    for other in 0..running.count() {
        merge_other(running, repo, other)?;
    }
    Ok(())
}

/// The other repository merges the branch of this one, unless they are the same.
fn merge_into<K: FailingKeeper>(
    running: &mut Running<K>,
    repo: u32,
    other: u32,
) -> Result<(), FleetStop>
    requires there { repo < length running.old.nodes }
    requires driven { IsDriven (λ k. store_view (K.contents k) (K.parts k) (K.failing k) (K.faults k)) running.old }
    requires other { other < length running.old.nodes }
    ensures ok { OnOk result (GoesOn (λ k. store_view (K.contents k) (K.parts k) (K.failing k) (K.faults k)) (λ g d. each_merges repo (others_among repo (other ∷ [])) d) running.old running.new) }
    ensures full { (r : ℕ) → result ≡ Err (FleetStop.Full r) → EndsAtFull (λ k. store_view (K.contents k) (K.parts k) (K.failing k) (K.faults k)) r (λ g d. each_merges repo (others_among repo (other ∷ [])) d) running.old running.new }
    ensures stopped { OnErr result (StopsWithin (λ k. store_view (K.contents k) (K.parts k) (K.failing k) (K.faults k)) (λ g d. each_merges repo (others_among repo (other ∷ [])) d) running.old running.new) }
    ensures rest { OnlyAddsEntries running.old running.new }
{
    if other == repo {
        return Ok(());
    }
    merge(running, other, repo)
}

/// Each other repository merges the branch of this one, in order of number.
fn merge_into_each<K: FailingKeeper>(running: &mut Running<K>, repo: u32) -> Result<(), FleetStop>
    requires there { repo < length running.old.nodes }
    requires driven { IsDriven (λ k. store_view (K.contents k) (K.parts k) (K.failing k) (K.faults k)) running.old }
    ensures ok { OnOk result (GoesOn (λ k. store_view (K.contents k) (K.parts k) (K.failing k) (K.faults k)) (λ g d. each_merges repo (numbers_but g repo) d) running.old running.new) }
    ensures full { (r : ℕ) → result ≡ Err (FleetStop.Full r) → EndsAtFull (λ k. store_view (K.contents k) (K.parts k) (K.failing k) (K.faults k)) r (λ g d. each_merges repo (numbers_but g repo) d) running.old running.new }
    ensures stopped { OnErr result (StopsWithin (λ k. store_view (K.contents k) (K.parts k) (K.failing k) (K.faults k)) (λ g d. each_merges repo (numbers_but g repo) d) running.old running.new) }
    ensures rest { OnlyAddsEntries running.old running.new }
{
    // Laws: merges only add entries; a full history that one meets is met by all.
    drivers_only_add();
    runs_are_cut_where_histories_are_full();
    for other in 0..running.count() {
        merge_into(running, repo, other)?;
    }
    Ok(())
}

/// The repository merges the branch of each other one, and then each of these merges the branch of the repository.
fn exchange<K: FailingKeeper>(running: &mut Running<K>, repo: u32) -> Result<(), FleetStop>
    requires there { repo < length running.old.nodes }
    requires driven { IsDriven (λ k. store_view (K.contents k) (K.parts k) (K.failing k) (K.faults k)) running.old }
    ensures ok { OnOk result (GoesOn (λ k. store_view (K.contents k) (K.parts k) (K.failing k) (K.faults k)) (λ g d. each_merges repo (numbers_but g repo) (merges_each repo (numbers_but g repo) d)) running.old running.new) }
    ensures full { (r : ℕ) → result ≡ Err (FleetStop.Full r) → EndsAtFull (λ k. store_view (K.contents k) (K.parts k) (K.failing k) (K.faults k)) r (λ g d. each_merges repo (numbers_but g repo) (merges_each repo (numbers_but g repo) d)) running.old running.new }
    ensures stopped { OnErr result (StopsWithin (λ k. store_view (K.contents k) (K.parts k) (K.failing k) (K.faults k)) (λ g d. each_merges repo (numbers_but g repo) (merges_each repo (numbers_but g repo) d)) running.old running.new) }
    ensures rest { OnlyAddsEntries running.old running.new }
{
    // Laws: merges only add entries, and a full history that one meets is met still.
    drivers_only_add();
    runs_are_cut_where_histories_are_full();
    merge_each(running, repo)?;
    merge_into_each(running, repo)
}

/// All settles; then the repository merges the branch of each other one, and each of these merges its branch.
pub(crate) fn share_logs<K: FailingKeeper>(
    running: &mut Running<K>,
    repo: u32,
) -> Result<(), FleetStop>
    requires there { repo < length running.old.nodes }
    requires driven { IsDriven (λ k. store_view (K.contents k) (K.parts k) (K.failing k) (K.faults k)) running.old }
    ensures ok { OnOk result (GoesOn (λ k. store_view (K.contents k) (K.parts k) (K.failing k) (K.faults k)) (λ g d. shares_logs g repo d) running.old running.new) }
    ensures full { (r : ℕ) → result ≡ Err (FleetStop.Full r) → EndsAtFull (λ k. store_view (K.contents k) (K.parts k) (K.failing k) (K.faults k)) r (λ g d. shares_logs g repo d) running.old running.new }
    ensures stopped { OnErr result (StopsWithin (λ k. store_view (K.contents k) (K.parts k) (K.failing k) (K.faults k)) (λ g d. shares_logs g repo d) running.old running.new) }
    ensures rest { OnlyAddsEntries running.old running.new }
{
    // Laws: merges only add entries, and a full history that a settling meets is met still.
    drivers_only_add();
    runs_are_cut_where_histories_are_full();
    settle(running)?;
    exchange(running, repo)
}
