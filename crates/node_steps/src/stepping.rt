//! The step of a node: the line that it owes first, or else the step of a session, or else of a job.
ghost use Rattle.std.specs.Prelude.{◌≡◌, ◌≤◌, ◌<◌, true, false, length, is_some, IfOk, OnErr};
ghost use Rattle.std.specs.Option.{ForSome};
ghost use Rattle.node_ends.specs.Joined.{StayPaired};
ghost use Rattle.node_model.specs.OwedStep.{owed_step};
ghost use Rattle.node_model.specs.SessionStep.{session_step};
ghost use Rattle.node_model.specs.Step.{step};
ghost use Rattle.node_model.specs.Turns.{job_step};
ghost use Rattle.object_store.specs.Stores.{AreSmallParts};
ghost use Rattle.node_steps.specs.Nodes.{told_of, beside};
ghost use Rattle.node_past.specs.Owing.{is_owing};
ghost use Rattle.node_steps.specs.Stepping.{AddsIf, MovesSo, ReadySo};
ghost use Rattle.node_past.specs.Stored.{TellsSame, store_view};
ghost use Rattle.run_data.specs.Histories.{most_entries};
ghost use Rattle.node_steps.specs.Kept.{Stands};

use crate::entering::{enter_if, make_room, moment_of};
use crate::laws::direct_entries_keep_parts;
use annex_base::NoMemory;
use node_ends::ends_go_on;
use node_ledger::Ledger;
use node_parts::{
    Parts, sessions_make_their_own_entries, states_have_their_settings, tables_fill_as_states,
};
use node_past::NodeRefused;
use object_store::Keeper;
use store_entries::make_index;
use trust_groups::settings_are_those_of_the_lines_read;
use union_merge::files_are_changed_alone;

/// Whether a step is ready; nothing changes.
pub fn is_ready<K: Keeper>(ledger: &Ledger<K>, parts: &mut Parts) -> Result<bool, NoMemory>
    requires stands { Stands ledger.now parts.old (K.contents ledger.now.keeper) (K.parts ledger.now.keeper) (K.records ledger.now.keeper) }
    ensures ready { IfOk result (λ b. ForSome (told_of (K.contents ledger.now.keeper) (K.parts ledger.now.keeper)) (λ c. ReadySo b step (beside parts.old ledger.now))) }
    ensures same { parts.new ≡ parts.old }
{
    // A law, for the proof: the number of the next entry.
    states_have_their_settings();
    if ledger.owes() {
        return Ok(true);
    }
    let moment = moment_of(&ledger.past);
    parts.is_ready(ledger.past.alloc, moment)
}

/// Makes the first step that is ready, by one entry, and tells whether there was one.
pub fn step<K: Keeper>(ledger: &mut Ledger<K>, parts: &mut Parts) -> Result<bool, NoMemory>
    requires stands { Stands ledger.old parts.old (K.contents ledger.old.keeper) (K.parts ledger.old.keeper) (K.records ledger.old.keeper) }
    requires room { length ledger.old.history < most_entries }
    ensures stands { Stands ledger.new parts.new (K.contents ledger.new.keeper) (K.parts ledger.new.keeper) (K.records ledger.new.keeper) }
    ensures adds { IfOk result (λ b. AddsIf b parts.old.links (store_view (K.contents ledger.old.keeper) (K.parts ledger.old.keeper) (K.failing ledger.old.keeper) (K.faults ledger.old.keeper)) (store_view (K.contents ledger.new.keeper) (K.parts ledger.new.keeper) (K.failing ledger.new.keeper) (K.faults ledger.new.keeper)) (beside parts.old ledger.old) (beside parts.new ledger.new)) }
    ensures step { IfOk result (λ b. ForSome (told_of (K.contents ledger.old.keeper) (K.parts ledger.old.keeper)) (λ c. MovesSo b step (store_view (K.contents ledger.old.keeper) (K.parts ledger.old.keeper) (K.failing ledger.old.keeper) (K.faults ledger.old.keeper)) (store_view (K.contents ledger.new.keeper) (K.parts ledger.new.keeper) (K.failing ledger.new.keeper) (K.faults ledger.new.keeper)) (beside parts.old ledger.old) (beside parts.new ledger.new))) }
    ensures told_parts { is_some (K.parts ledger.new.keeper) ≡ is_some (K.parts ledger.old.keeper) }
    ensures small { AreSmallParts (K.parts ledger.old.keeper) → AreSmallParts (K.parts ledger.new.keeper) }
    ensures told_contents { is_some (K.parts ledger.old.keeper) ≡ true → is_some (K.contents ledger.new.keeper) ≡ is_some (K.contents ledger.old.keeper) }
    ensures err_store { OnErr result (TellsSame (K.contents ledger.old.keeper) (K.contents ledger.new.keeper) (K.parts ledger.old.keeper) (K.parts ledger.new.keeper) (K.records ledger.old.keeper) (K.records ledger.new.keeper) (K.files ledger.old.keeper) (K.files ledger.new.keeper) (K.failing ledger.old.keeper) (K.failing ledger.new.keeper)) }
    ensures paired { StayPaired parts.old.links parts.new.links }
    ensures later { K.faults ledger.old.keeper ≤ K.faults ledger.new.keeper }
    ensures err { OnErr result (beside parts.new ledger.new ≡ record (beside parts.old ledger.old) { keeper = ledger.new.keeper }) }
{
    if ledger.owes() {
        return pay_first(ledger, parts);
    }
    let served = serve(ledger, parts)?;
    if served {
        return Ok(true);
    }
    act(ledger, parts)
}

/// Pays the first line that is owed.
fn pay_first<K: Keeper>(ledger: &mut Ledger<K>, parts: &Parts) -> Result<bool, NoMemory>
    requires stands { Stands ledger.old parts.now (K.contents ledger.old.keeper) (K.parts ledger.old.keeper) (K.records ledger.old.keeper) }
    requires owes { is_owing ledger.old.owed ≡ true }
    requires room { length ledger.old.history < most_entries }
    ensures stands { Stands ledger.new parts.now (K.contents ledger.new.keeper) (K.parts ledger.new.keeper) (K.records ledger.new.keeper) }
    ensures made { IfOk result (λ b. b ≡ true) }
    ensures adds { IfOk result (λ b. AddsIf b parts.now.links (store_view (K.contents ledger.old.keeper) (K.parts ledger.old.keeper) (K.failing ledger.old.keeper) (K.faults ledger.old.keeper)) (store_view (K.contents ledger.new.keeper) (K.parts ledger.new.keeper) (K.failing ledger.new.keeper) (K.faults ledger.new.keeper)) (beside parts.now ledger.old) (beside parts.now ledger.new)) }
    ensures step { IfOk result (λ b. ForSome (told_of (K.contents ledger.old.keeper) (K.parts ledger.old.keeper)) (λ c. MovesSo b owed_step (store_view (K.contents ledger.old.keeper) (K.parts ledger.old.keeper) (K.failing ledger.old.keeper) (K.faults ledger.old.keeper)) (store_view (K.contents ledger.new.keeper) (K.parts ledger.new.keeper) (K.failing ledger.new.keeper) (K.faults ledger.new.keeper)) (beside parts.now ledger.old) (beside parts.now ledger.new))) }
    ensures contents { K.contents ledger.new.keeper ≡ K.contents ledger.old.keeper }
    ensures parts { K.parts ledger.new.keeper ≡ K.parts ledger.old.keeper }
    ensures err_store { OnErr result (TellsSame (K.contents ledger.old.keeper) (K.contents ledger.new.keeper) (K.parts ledger.old.keeper) (K.parts ledger.new.keeper) (K.records ledger.old.keeper) (K.records ledger.new.keeper) (K.files ledger.old.keeper) (K.files ledger.new.keeper) (K.failing ledger.old.keeper) (K.failing ledger.new.keeper)) }
    ensures later { K.faults ledger.old.keeper ≤ K.faults ledger.new.keeper }
    ensures err { OnErr result (beside parts.now ledger.new ≡ record (beside parts.now ledger.old) { keeper = ledger.new.keeper }) }
{
    // Laws, for the proof that ends that take and send nothing stay as they are, and that the rest does by an entry of a file.
    ends_go_on();
    direct_entries_keep_parts();
    files_are_changed_alone();
    let _ = parts.table();
    // Written out for the proof, which names each answer.
    match ledger.pay() {
        Ok(()) => Ok(true),
        Err(NodeRefused::StoreFault) => Ok(true),
        Err(NodeRefused::Full) => unreachable!(),
        Err(NodeRefused::BadBundle { .. }) => unreachable!(),
        Err(NodeRefused::NoMemory) => Err(NoMemory),
    }
}

/// The step of a session.
fn serve<K: Keeper>(ledger: &mut Ledger<K>, parts: &mut Parts) -> Result<bool, NoMemory>
    requires stands { Stands ledger.old parts.old (K.contents ledger.old.keeper) (K.parts ledger.old.keeper) (K.records ledger.old.keeper) }
    requires paid { is_owing ledger.old.owed ≡ false }
    requires room { length ledger.old.history < most_entries }
    ensures stands { Stands ledger.new parts.new (K.contents ledger.new.keeper) (K.parts ledger.new.keeper) (K.records ledger.new.keeper) }
    ensures adds { IfOk result (λ b. AddsIf b parts.old.links (store_view (K.contents ledger.old.keeper) (K.parts ledger.old.keeper) (K.failing ledger.old.keeper) (K.faults ledger.old.keeper)) (store_view (K.contents ledger.new.keeper) (K.parts ledger.new.keeper) (K.failing ledger.new.keeper) (K.faults ledger.new.keeper)) (beside parts.old ledger.old) (beside parts.new ledger.new)) }
    ensures step { IfOk result (λ b. ForSome (told_of (K.contents ledger.old.keeper) (K.parts ledger.old.keeper)) (λ c. MovesSo b session_step (store_view (K.contents ledger.old.keeper) (K.parts ledger.old.keeper) (K.failing ledger.old.keeper) (K.faults ledger.old.keeper)) (store_view (K.contents ledger.new.keeper) (K.parts ledger.new.keeper) (K.failing ledger.new.keeper) (K.faults ledger.new.keeper)) (beside parts.old ledger.old) (beside parts.new ledger.new))) }
    ensures told_parts { is_some (K.parts ledger.new.keeper) ≡ is_some (K.parts ledger.old.keeper) }
    ensures small { AreSmallParts (K.parts ledger.old.keeper) → AreSmallParts (K.parts ledger.new.keeper) }
    ensures told_contents { is_some (K.parts ledger.old.keeper) ≡ true → is_some (K.contents ledger.new.keeper) ≡ is_some (K.contents ledger.old.keeper) }
    ensures err_store { OnErr result (TellsSame (K.contents ledger.old.keeper) (K.contents ledger.new.keeper) (K.parts ledger.old.keeper) (K.parts ledger.new.keeper) (K.records ledger.old.keeper) (K.records ledger.new.keeper) (K.files ledger.old.keeper) (K.files ledger.new.keeper) (K.failing ledger.old.keeper) (K.failing ledger.new.keeper)) }
    ensures paired { StayPaired parts.old.links parts.new.links }
    ensures later { K.faults ledger.old.keeper ≤ K.faults ledger.new.keeper }
    ensures err { OnErr result (beside parts.new ledger.new ≡ record (beside parts.old ledger.old) { keeper = ledger.new.keeper }) }
{
    // For the proof: laws, and what the parts have of the table.
    sessions_make_their_own_entries();
    tables_fill_as_states();
    states_have_their_settings();
    let _ = parts.table();
    make_room(&mut ledger.past, &mut ledger.debts)?;
    let moment = moment_of(&ledger.past);
    let done = parts.serve(ledger.past.alloc, &mut ledger.keeper, moment)?;
    // For the proof: what the parts have is sound.
    let _ = parts.table();
    Ok(enter_if(&mut ledger.past, &mut ledger.debts, done))
}

/// The step of a job.
fn act<K: Keeper>(ledger: &mut Ledger<K>, parts: &mut Parts) -> Result<bool, NoMemory>
    requires stands { Stands ledger.old parts.old (K.contents ledger.old.keeper) (K.parts ledger.old.keeper) (K.records ledger.old.keeper) }
    requires paid { is_owing ledger.old.owed ≡ false }
    requires room { length ledger.old.history < most_entries }
    ensures stands { Stands ledger.new parts.new (K.contents ledger.new.keeper) (K.parts ledger.new.keeper) (K.records ledger.new.keeper) }
    ensures adds { IfOk result (λ b. AddsIf b parts.old.links (store_view (K.contents ledger.old.keeper) (K.parts ledger.old.keeper) (K.failing ledger.old.keeper) (K.faults ledger.old.keeper)) (store_view (K.contents ledger.new.keeper) (K.parts ledger.new.keeper) (K.failing ledger.new.keeper) (K.faults ledger.new.keeper)) (beside parts.old ledger.old) (beside parts.new ledger.new)) }
    ensures step { IfOk result (λ b. ForSome (told_of (K.contents ledger.old.keeper) (K.parts ledger.old.keeper)) (λ c. MovesSo b job_step (store_view (K.contents ledger.old.keeper) (K.parts ledger.old.keeper) (K.failing ledger.old.keeper) (K.faults ledger.old.keeper)) (store_view (K.contents ledger.new.keeper) (K.parts ledger.new.keeper) (K.failing ledger.new.keeper) (K.faults ledger.new.keeper)) (beside parts.old ledger.old) (beside parts.new ledger.new))) }
    ensures told_parts { is_some (K.parts ledger.new.keeper) ≡ is_some (K.parts ledger.old.keeper) }
    ensures small { AreSmallParts (K.parts ledger.old.keeper) → AreSmallParts (K.parts ledger.new.keeper) }
    ensures told_contents { is_some (K.parts ledger.old.keeper) ≡ true → is_some (K.contents ledger.new.keeper) ≡ is_some (K.contents ledger.old.keeper) }
    ensures err_store { OnErr result (TellsSame (K.contents ledger.old.keeper) (K.contents ledger.new.keeper) (K.parts ledger.old.keeper) (K.parts ledger.new.keeper) (K.records ledger.old.keeper) (K.records ledger.new.keeper) (K.files ledger.old.keeper) (K.files ledger.new.keeper) (K.failing ledger.old.keeper) (K.failing ledger.new.keeper)) }
    ensures paired { StayPaired parts.old.links parts.new.links }
    ensures later { K.faults ledger.old.keeper ≤ K.faults ledger.new.keeper }
    ensures err { OnErr result (beside parts.new ledger.new ≡ record (beside parts.old ledger.old) { keeper = ledger.new.keeper }) }
{
    // For the proof: laws, and what the parts have of the table.
    tables_fill_as_states();
    states_have_their_settings();
    settings_are_those_of_the_lines_read();
    let _ = parts.table();
    make_room(&mut ledger.past, &mut ledger.debts)?;
    make_index(ledger.past.alloc, &mut ledger.index, &ledger.branch)?;
    let moment = moment_of(&ledger.past);
    let Some(settings) = &ledger.index else {
        unreachable!()
    };
    let done = parts.act(ledger.past.alloc, settings, &mut ledger.keeper, moment)?;
    // For the proof: what the parts have is sound.
    let _ = parts.table();
    Ok(enter_if(&mut ledger.past, &mut ledger.debts, done))
}
