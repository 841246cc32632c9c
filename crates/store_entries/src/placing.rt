//! Contents and parts that a script puts into a store, each content with its entry.
ghost use Rattle.std.specs.Prelude.{◌≡◌, ◌≤◌, ◌<◌, ◌++◌, Bool, true, false, [], ◌∷◌, None, length, option_map, IfOk, IfErr, IsErrOf, OnOk, OnErr};
ghost use Rattle.annex_base.specs.Causes.{Rose};
ghost use Rattle.annex_base.specs.declared.kinds.Call.TheVariants as calls;
ghost use Rattle.content_lock.specs.Rows.{is_filling};
ghost use Rattle.object_store.specs.Stores.{contents_after_commit, with_at};
ghost use Rattle.run_data.specs.Histories.{most_entries};
ghost use Rattle.run_data.specs.declared.entry.By.TheVariants as bys;
ghost use Rattle.run_data.specs.declared.entry.EntryKind.TheVariants as kinds;
ghost use Rattle.node_past.specs.Calls.{Makes};
ghost use Rattle.store_entries.specs.Calls.{StopsEarly, to_place_part};
ghost use Rattle.content_lock.specs.CallsMade.{MakesCalls};
ghost use Rattle.node_past.specs.Pasts.{AddsTo, FailsAtScripts, FailsFor, IsReady, SamePast};
ghost use Rattle.store_entries.specs.Placing.{HasPart, IsTaken, LeavesFilled, LeavesOthers};

use annex_base::{Call, Items};
use annex_key::Key;
use content_lock::LockTable;
use node_past::{NodeRefused, Past};
use object_store::{Keeper, KeeperFault};
use run_data::{By, EntryKind};

/// Whether the content is there or being filled.
fn is_taken<K: Keeper>(
    keeper: &mut K,
    table: &LockTable,
    past: &mut Past,
    key: &Key,
) -> Result<bool, NodeRefused>
    requires { IsReady past.old }
    ensures value { IfOk result (λ taken. IsTaken taken (K.contents keeper.old) table.now key.now) }
    ensures free { IfOk result (λ taken. taken ≡ false → is_filling table.now key.now ≡ false) }
    ensures same { OnOk result (SamePast past.old past.new) }
    ensures ready { OnOk result (IsReady past.new) }
    ensures err { IfErr result (λ e. FailsAtScripts e past.old past.new) }
    ensures fails { IfErr result (λ e. FailsFor bys.Script e calls.Has past.old past.new) }
    ensures contents { K.contents keeper.new ≡ K.contents keeper.old }
    ensures parts { K.parts keeper.new ≡ K.parts keeper.old }
    ensures records { K.records keeper.new ≡ K.records keeper.old }
    ensures files { K.files keeper.new ≡ K.files keeper.old }
    ensures later { K.faults keeper.old ≤ K.faults keeper.new }
    ensures cause { IsErrOf result NodeRefused.StoreFault → Rose (K.faults keeper.old) (K.faults keeper.new) }
    ensures calls { Makes (calls.Has ∷ []) calls.Has result (K.failing keeper.old) (K.failing keeper.new) }
{
    match keeper.has(key) {
        Ok(here) => Ok(here || table.is_filling(key)),
        Err(_) => Err(past.fail(KeeperFault::Failed, Call::Has, By::Script)),
    }
}

/// Leaves the empty part.
fn drop_part<K: Keeper>(keeper: &mut K, past: &mut Past, key: &Key) -> Result<(), NodeRefused>
    requires { IsReady past.old }
    ensures part { OnOk result (K.parts keeper.new ≡ option_map (λ p. with_at p key.now []) (K.parts keeper.old)) }
    ensures others { LeavesOthers key.now (K.parts keeper.old) (K.parts keeper.new) }
    ensures same { OnOk result (SamePast past.old past.new) }
    ensures ready { OnOk result (IsReady past.new) }
    ensures err { IfErr result (λ e. FailsAtScripts e past.old past.new) }
    ensures fails { IfErr result (λ e. FailsFor bys.Script e calls.DropPart past.old past.new) }
    ensures contents { K.contents keeper.new ≡ K.contents keeper.old }
    ensures records { K.records keeper.new ≡ K.records keeper.old }
    ensures files { K.files keeper.new ≡ K.files keeper.old }
    ensures later { K.faults keeper.old ≤ K.faults keeper.new }
    ensures cause { IsErrOf result NodeRefused.StoreFault → Rose (K.faults keeper.old) (K.faults keeper.new) }
    ensures err_parts { OnErr result (K.parts keeper.new ≡ K.parts keeper.old) }
    ensures calls { Makes (calls.DropPart ∷ []) calls.DropPart result (K.failing keeper.old) (K.failing keeper.new) }
{
    match keeper.drop_part(key) {
        Ok(()) => Ok(()),
        Err(_) => Err(past.fail(KeeperFault::Failed, Call::DropPart, By::Script)),
    }
}

/// Puts the bytes at the end of the part.
fn append_part<K: Keeper>(
    keeper: &mut K,
    past: &mut Past,
    key: &Key,
    bytes: &[u8],
) -> Result<(), NodeRefused>
    requires { IsReady past.old }
    ensures part { OnOk result (K.parts keeper.new ≡ option_map (λ p. with_at p key.now (p key.now ++ bytes.now)) (K.parts keeper.old)) }
    ensures others { LeavesOthers key.now (K.parts keeper.old) (K.parts keeper.new) }
    ensures same { OnOk result (SamePast past.old past.new) }
    ensures err { IfErr result (λ e. FailsAtScripts e past.old past.new) }
    ensures fails { IfErr result (λ e. FailsFor bys.Script e calls.Append past.old past.new) }
    ensures contents { K.contents keeper.new ≡ K.contents keeper.old }
    ensures records { K.records keeper.new ≡ K.records keeper.old }
    ensures files { K.files keeper.new ≡ K.files keeper.old }
    ensures later { K.faults keeper.old ≤ K.faults keeper.new }
    ensures cause { IsErrOf result NodeRefused.StoreFault → Rose (K.faults keeper.old) (K.faults keeper.new) }
    ensures err_parts { OnErr result (K.parts keeper.new ≡ K.parts keeper.old) }
    ensures calls { Makes (calls.Append ∷ []) calls.Append result (K.failing keeper.old) (K.failing keeper.new) }
{
    match keeper.append_part(key, bytes) {
        Ok(()) => Ok(()),
        Err(fault) => Err(past.fail(fault, Call::Append, By::Script)),
    }
}

/// Reserves the place of one more entry.
fn ready(past: &mut Past) -> Result<(), NodeRefused>
    ensures ready { OnOk result (IsReady past.new) }
    ensures same { SamePast past.old past.new }
    ensures err { IfErr result (λ e. FailsAtScripts e past.old past.new) }
    ensures fails { IfErr result (λ e. FailsFor bys.Script e calls.Has past.old past.new) }
    ensures no_fault { IsErrOf result NodeRefused.StoreFault → ⊥ }
{
    past.ready()
}

/// Makes the bytes the key's part.
fn replace_part<K: Keeper>(
    keeper: &mut K,
    past: &mut Past,
    key: &Key,
    bytes: &[u8],
) -> Result<(), NodeRefused>
    requires { IsReady past.old }
    ensures part { OnOk result (HasPart key.now bytes.now (K.parts keeper.old) (K.parts keeper.new)) }
    ensures others { LeavesOthers key.now (K.parts keeper.old) (K.parts keeper.new) }
    ensures same { OnOk result (SamePast past.old past.new) }
    ensures err { IfErr result (λ e. FailsAtScripts e past.old past.new) }
    ensures contents { K.contents keeper.new ≡ K.contents keeper.old }
    ensures records { K.records keeper.new ≡ K.records keeper.old }
    ensures files { K.files keeper.new ≡ K.files keeper.old }
    ensures later { K.faults keeper.old ≤ K.faults keeper.new }
    ensures cause { IsErrOf result NodeRefused.StoreFault → Rose (K.faults keeper.old) (K.faults keeper.new) }
    ensures put { OnOk result (K.parts keeper.new ≡ option_map (λ p. with_at p key.now bytes.now) (K.parts keeper.old)) }
    ensures done { OnOk result (MakesCalls (calls.DropPart ∷ calls.Append ∷ []) None (K.failing keeper.old) (K.failing keeper.new)) }
    ensures stops { IfErr result (λ e. StopsEarly (calls.DropPart ∷ calls.Append ∷ []) key.now bytes.now (K.parts keeper.old) (K.parts keeper.new) (K.failing keeper.old) (K.failing keeper.new) e past.old past.new) }
{
    drop_part(keeper, past, key)?;
    append_part(keeper, past, key, bytes)
}

/// Makes the bytes the key's part; where the content is there or being filled, it answers so and does nothing.
fn bring_ready<K: Keeper>(
    keeper: &mut K,
    table: &LockTable,
    past: &mut Past,
    key: &Key,
    bytes: &[u8],
) -> Result<bool, NodeRefused>
    requires { IsReady past.old }
    ensures taken { IfOk result (λ taken. IsTaken taken (K.contents keeper.old) table.now key.now) }
    ensures free { IfOk result (λ taken. taken ≡ false → is_filling table.now key.now ≡ false) }
    ensures part { IfOk result (λ taken. taken ≡ false → HasPart key.now bytes.now (K.parts keeper.old) (K.parts keeper.new)) }
    ensures left { IfOk result (λ taken. taken ≡ true → K.parts keeper.new ≡ K.parts keeper.old) }
    ensures filled { LeavesFilled table.now (K.parts keeper.old) (K.parts keeper.new) }
    ensures same { OnOk result (SamePast past.old past.new) }
    ensures err { IfErr result (λ e. FailsAtScripts e past.old past.new) }
    ensures contents { K.contents keeper.new ≡ K.contents keeper.old }
    ensures records { K.records keeper.new ≡ K.records keeper.old }
    ensures files { K.files keeper.new ≡ K.files keeper.old }
    ensures later { K.faults keeper.old ≤ K.faults keeper.new }
    ensures cause { IsErrOf result NodeRefused.StoreFault → Rose (K.faults keeper.old) (K.faults keeper.new) }
    ensures put { IfOk result (λ taken. taken ≡ false → K.parts keeper.new ≡ option_map (λ p. with_at p key.now bytes.now) (K.parts keeper.old)) }
    ensures done { IfOk result (λ taken. MakesCalls (to_place_part taken) None (K.failing keeper.old) (K.failing keeper.new)) }
    ensures stops { IfErr result (λ e. (taken : Bool) × IsTaken taken (K.contents keeper.old) table.now key.now × StopsEarly (to_place_part taken) key.now bytes.now (K.parts keeper.old) (K.parts keeper.new) (K.failing keeper.old) (K.failing keeper.new) e past.old past.new) }
{
    let taken = is_taken(keeper, table, past, key)?;
    if taken {
        return Ok(true);
    }
    // Written out for the proof, which names the refusal.
    match replace_part(keeper, past, key, bytes) {
        Ok(()) => Ok(false),
        Err(refused) => Err(refused),
    }
}

/// The same, with room for an entry first.
pub fn bring<K: Keeper>(
    keeper: &mut K,
    table: &LockTable,
    past: &mut Past,
    key: &Key,
    bytes: &[u8],
) -> Result<bool, NodeRefused>
    ensures taken { IfOk result (λ taken. IsTaken taken (K.contents keeper.old) table.now key.now) }
    ensures free { IfOk result (λ taken. taken ≡ false → is_filling table.now key.now ≡ false) }
    ensures part { IfOk result (λ taken. taken ≡ false → HasPart key.now bytes.now (K.parts keeper.old) (K.parts keeper.new)) }
    ensures left { IfOk result (λ taken. taken ≡ true → K.parts keeper.new ≡ K.parts keeper.old) }
    ensures filled { LeavesFilled table.now (K.parts keeper.old) (K.parts keeper.new) }
    ensures same { OnOk result (SamePast past.old past.new) }
    ensures err { IfErr result (λ e. FailsAtScripts e past.old past.new) }
    ensures contents { K.contents keeper.new ≡ K.contents keeper.old }
    ensures records { K.records keeper.new ≡ K.records keeper.old }
    ensures files { K.files keeper.new ≡ K.files keeper.old }
    ensures later { K.faults keeper.old ≤ K.faults keeper.new }
    ensures cause { IsErrOf result NodeRefused.StoreFault → Rose (K.faults keeper.old) (K.faults keeper.new) }
    ensures put { IfOk result (λ taken. taken ≡ false → K.parts keeper.new ≡ option_map (λ p. with_at p key.now bytes.now) (K.parts keeper.old)) }
    ensures done { IfOk result (λ taken. MakesCalls (to_place_part taken) None (K.failing keeper.old) (K.failing keeper.new)) }
    ensures stops { IfErr result (λ e. (taken : Bool) × IsTaken taken (K.contents keeper.old) table.now key.now × StopsEarly (to_place_part taken) key.now bytes.now (K.parts keeper.old) (K.parts keeper.new) (K.failing keeper.old) (K.failing keeper.new) e past.old past.new) }
    ensures room { OnOk result (length past.old.history.items < most_entries) }
{
    ready(past)?;
    bring_ready(keeper, table, past, key, bytes)
}

/// Makes the key's part its content, and adds the entry that it has come from the script.
pub fn commit<K: Keeper>(
    keeper: &mut K,
    past: &mut Past,
    key: &Key,
    size: u64,
) -> Result<(), NodeRefused>
    ensures past { OnOk result (AddsTo (kinds.Gain bys.Script size key.now) [] past.old past.new) }
    ensures content { OnOk result (K.contents keeper.new ≡ contents_after_commit (K.contents keeper.old) (K.parts keeper.old) key.now) }
    ensures part { OnOk result (K.parts keeper.new ≡ option_map (λ p. with_at p key.now []) (K.parts keeper.old)) }
    ensures err { IfErr result (λ e. FailsFor bys.Script e calls.Commit past.old past.new) }
    ensures err_contents { OnErr result (K.contents keeper.new ≡ K.contents keeper.old) }
    ensures err_parts { OnErr result (K.parts keeper.new ≡ K.parts keeper.old) }
    ensures records { K.records keeper.new ≡ K.records keeper.old }
    ensures files { K.files keeper.new ≡ K.files keeper.old }
    ensures later { K.faults keeper.old ≤ K.faults keeper.new }
    ensures cause { IsErrOf result NodeRefused.StoreFault → Rose (K.faults keeper.old) (K.faults keeper.new) }
    ensures calls { Makes (calls.Commit ∷ []) calls.Commit result (K.failing keeper.old) (K.failing keeper.new) }
{
    past.ready()?;
    let copy = key.clone()?;
    match keeper.commit(key) {
        Ok(()) => {
            let none = Items::new(past.alloc);
            past.add(
                EntryKind::Gain {
                    by: By::Script,
                    size,
                    key: copy,
                },
                none,
            );
            Ok(())
        }
        Err(fault) => Err(past.fail(fault, Call::Commit, By::Script)),
    }
}
