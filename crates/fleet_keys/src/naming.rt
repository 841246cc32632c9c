//! Paths that lines give keys.
ghost use Rattle.std.specs.Prelude.{◌≡◌, ℕ, length, Err, IfOk, OnErr, OnOk};
ghost use Rattle.annex_key.specs.KeyText.{IsKeyText};
ghost use Rattle.annex_key.specs.Tree.{paths_of};
ghost use Rattle.fleet_entries.specs.Stored.{store_view};
ghost use Rattle.run_model.specs.Run.{tree_at};
ghost use Rattle.driver_model.specs.ScriptSteps.{enters};
ghost use Rattle.fleet_entries.specs.AtDriver.{GoesOn, IsDriven, OnlyAddsBehind, StopsWithin};

use annex_base::{Items, NoMemory, Text};
use annex_key::Key;
use driver_model::{drivers_only_add, drivers_stay_sound};
use fleet_entries::{FleetStop, Running, fleets_do_lines};
use object_store::FailingKeeper;
use run_data::TreeMark;
use run_paths::trees_have_all_marks_before;

/// The mark of a path that names the key from this place on.
fn mark_of(place: u32, path: &Text, key: &Key) -> Result<TreeMark, NoMemory>
    ensures { IfOk result (λ mark. mark ≡ record { place = place; path = path.now; key = key.now }) }
{
    let path = path.clone()?;
    let key = key.copy()?;
    Ok(TreeMark { place, path, key })
}

/// The paths of the key, in byte order.
pub(crate) fn paths<K: FailingKeeper>(
    running: &mut Running<K>,
    key: &Key,
) -> Result<Items<Text>, NoMemory>
    ensures value { IfOk result (λ paths. paths ≡ paths_of (tree_at running.old.run.tree (length running.old.run.entries)) key.now) }
    ensures same { running.new ≡ running.old }
{
    // A law: none of the marks stands behind the entries so far.
    trees_have_all_marks_before();
    running
        .index
        .paths(running.alloc, running.run.tree.as_slice(), key)
}

/// The path names the key from now on.
pub fn enter<K: FailingKeeper>(
    running: &mut Running<K>,
    path: &Text,
    key: &Key,
) -> Result<(), FleetStop>
    requires driven { IsDriven (λ k. store_view (K.contents k) (K.parts k) (K.failing k) (K.faults k)) running.old }
    requires key { IsKeyText key.now }
    ensures ok { OnOk result (GoesOn (λ k. store_view (K.contents k) (K.parts k) (K.failing k) (K.faults k)) (λ g d. enters path.now key.now d) running.old running.new) }
    ensures full { (r : ℕ) → result ≡ Err (FleetStop.Full r) → ⊥ }
    ensures stopped { OnErr result (StopsWithin (λ k. store_view (K.contents k) (K.parts k) (K.failing k) (K.faults k)) (λ g d. enters path.now key.now d) running.old running.new) }
    ensures rest { OnlyAddsBehind running.old running.new }
    ensures same { OnErr result (running.new.run ≡ running.old.run) }
    ensures count { length running.new.nodes ≡ length running.old.nodes }
{
    // Laws: with a path more the fleet goes on as the driver, which stays sound and adds no entry; an index stays one.
    fleets_do_lines::<K>();
    drivers_stay_sound();
    drivers_only_add();
    trees_have_all_marks_before();
    // For the proof: the place fits.
    running.entries_are_few();
    let place = running.made() as u32;
    let mark = mark_of(place, path, key)?;
    running.run.tree.push(mark)?;
    Ok(())
}
