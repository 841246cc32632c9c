//! Contents and parts that a script puts into a ledger's store.
ghost use Rattle.std.specs.Prelude.{◌≡◌, ◌≤◌, ◌<◌, Bool, true, false, [], ◌∷◌, None, length, option_map, IfOk, IfErr, IsErrOf, OnOk, OnErr};
ghost use Rattle.annex_base.specs.Causes.{Rose};
ghost use Rattle.annex_base.specs.declared.kinds.Call.TheVariants as calls;
ghost use Rattle.content_lock.specs.Rows.{is_filling};
ghost use Rattle.object_store.specs.Stores.{contents_after_commit, with_at};
ghost use Rattle.run_data.specs.Histories.{most_entries};
ghost use Rattle.node_past.specs.Calls.{Makes};
ghost use Rattle.store_entries.specs.Calls.{to_place_part, StopsWhere};
ghost use Rattle.content_lock.specs.CallsMade.{MakesCalls};
ghost use Rattle.store_entries.specs.Placing.{HasPart, IsTaken, LeavesFilled};
ghost use Rattle.node_ledger.specs.Placing.{StopsBefore, with_gain};
ghost use Rattle.node_ledger.specs.Refusals.{RefusesSo};
ghost use Rattle.node_ledger.specs.Walks.{over};

use crate::ledger::Ledger;
use annex_key::Key;
use content_lock::LockTable;
use node_past::NodeRefused;
use object_store::Keeper;
use store_entries::{bring, commit};

impl<K: Keeper> Ledger<K> {
    /// Makes the bytes the key's part; where the content is there or being filled, as the table has it, it answers so and does nothing.
    pub fn bring(&mut self, table: &LockTable, key: &Key, bytes: &[u8]) -> Result<bool, NodeRefused>
        ensures ok { OnOk result (self.new ≡ over self.new.keeper self.old) }
        ensures taken { IfOk result (λ taken. IsTaken taken (K.contents self.old.keeper) table.now key.now) }
        ensures free { IfOk result (λ taken. taken ≡ false → is_filling table.now key.now ≡ false) }
        ensures part { IfOk result (λ taken. taken ≡ false → HasPart key.now bytes.now (K.parts self.old.keeper) (K.parts self.new.keeper)) }
        ensures left { IfOk result (λ taken. taken ≡ true → K.parts self.new.keeper ≡ K.parts self.old.keeper) }
        ensures filled { LeavesFilled table.now (K.parts self.old.keeper) (K.parts self.new.keeper) }
        ensures err { IfErr result (λ e. StopsBefore e self.old self.new) }
        ensures contents { K.contents self.new.keeper ≡ K.contents self.old.keeper }
        ensures records { K.records self.new.keeper ≡ K.records self.old.keeper }
        ensures later { K.faults self.old.keeper ≤ K.faults self.new.keeper }
        ensures cause { IsErrOf result NodeRefused.StoreFault → Rose (K.faults self.old.keeper) (K.faults self.new.keeper) }
        ensures put { IfOk result (λ taken. taken ≡ false → K.parts self.new.keeper ≡ option_map (λ p. with_at p key.now bytes.now) (K.parts self.old.keeper)) }
        ensures done { IfOk result (λ taken. MakesCalls (to_place_part taken) None (K.failing self.old.keeper) (K.failing self.new.keeper)) }
        ensures stops { IfErr result (λ e. (taken : Bool) × IsTaken taken (K.contents self.old.keeper) table.now key.now × StopsWhere (to_place_part taken) key.now bytes.now (K.parts self.old.keeper) (K.parts self.new.keeper) (K.failing self.old.keeper) (K.failing self.new.keeper) e (λ call. RefusesSo e call self.old self.new)) }
        ensures room { OnOk result (length self.old.history < most_entries) }
    {
        bring(&mut self.keeper, table, &mut self.past, key, bytes)
    }

    /// Makes the key's part its content, by one entry.
    pub fn gain(&mut self, key: &Key, size: u64) -> Result<(), NodeRefused>
        ensures ok { OnOk result (self.new ≡ with_gain self.old self.new.keeper key.now size) }
        ensures content { OnOk result (K.contents self.new.keeper ≡ contents_after_commit (K.contents self.old.keeper) (K.parts self.old.keeper) key.now) }
        ensures err { IfErr result (λ e. RefusesSo e calls.Commit self.old self.new) }
        ensures err_contents { OnErr result (K.contents self.new.keeper ≡ K.contents self.old.keeper) }
        ensures records { K.records self.new.keeper ≡ K.records self.old.keeper }
        ensures later { K.faults self.old.keeper ≤ K.faults self.new.keeper }
        ensures cause { IsErrOf result NodeRefused.StoreFault → Rose (K.faults self.old.keeper) (K.faults self.new.keeper) }
        ensures part { OnOk result (K.parts self.new.keeper ≡ option_map (λ p. with_at p key.now []) (K.parts self.old.keeper)) }
        ensures err_parts { OnErr result (K.parts self.new.keeper ≡ K.parts self.old.keeper) }
        ensures calls { Makes (calls.Commit ∷ []) calls.Commit result (K.failing self.old.keeper) (K.failing self.new.keeper) }
    {
        commit(&mut self.keeper, &mut self.past, key, size)
    }
}
