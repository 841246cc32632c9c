//! Contents and parts that a script puts into a node.
ghost use Rattle.std.specs.Prelude.{◌≡◌, ◌⊎◌, ◌≤◌, ◌<◌, Bool, true, [], length, IfErr, IsErrOf, OnOk};
ghost use Rattle.annex_base.specs.Causes.{Rose};
ghost use Rattle.key_verify.specs.Matching.{MatchesKey};
ghost use Rattle.run_data.specs.Histories.{most_entries};
ghost use Rattle.repo_node.specs.Calls.{IsDoneBy, MeetsFullBehind, StopsAt};
ghost use Rattle.store_entries.specs.Calls.{to_place, to_place_part};
ghost use Rattle.repo_node.specs.Placing.{IsPlaced, PartAfter, StopsPlacing, without_said};
ghost use Rattle.store_entries.specs.Placing.{IsTaken};
ghost use Rattle.node_ledger.specs.Placing.{StopsBefore};
ghost use Rattle.node_ledger.specs.Walks.{over};

use crate::node::Node;
use annex_key::Key;
use node_past::NodeRefused;
use node_steps::{direct_entries_keep_parts, parts_stay_fed};
use object_store::Keeper;
use run_data::By;
use union_merge::files_are_changed_alone;

/// The answer without what an Ok says.
fn without(brought: Result<bool, NodeRefused>) -> Result<(), NodeRefused>
    ensures { result ≡ without_said brought }
{
    match brought {
        Ok(_) => Ok(()),
        Err(refused) => Err(refused),
    }
}

impl<K: Keeper> Node<K> {
    /// Replaces the part of the key by these bytes; where the content is there or being filled, nothing is done (own).
    pub fn place_part(&mut self, key: &Key, bytes: &[u8]) -> Result<(), NodeRefused>
        ensures ok { OnOk result (self.new ≡ over self.new.keeper self.old) }
        ensures part { OnOk result ((taken : Bool) × IsTaken taken (K.contents self.old.keeper) self.old.parts.table key.now × PartAfter taken key.now bytes.now (K.parts self.old.keeper) (K.parts self.new.keeper)) }
        ensures err { IfErr result (λ e. StopsBefore e self.old self.new) }
        ensures contents { K.contents self.new.keeper ≡ K.contents self.old.keeper }
        ensures records { K.records self.new.keeper ≡ K.records self.old.keeper }
        ensures later { K.faults self.old.keeper ≤ K.faults self.new.keeper }
        ensures cause { IsErrOf result NodeRefused.StoreFault → Rose (K.faults self.old.keeper) (K.faults self.new.keeper) }
        ensures done { OnOk result (IsDoneBy to_place_part key.now bytes.now self.old.parts.table (K.contents self.old.keeper) (K.parts self.old.keeper) (K.parts self.new.keeper) (K.failing self.old.keeper) (K.failing self.new.keeper)) }
        ensures stops { IfErr result (λ e. StopsAt to_place_part key.now bytes.now (K.contents self.old.keeper) (K.contents self.new.keeper) (K.parts self.old.keeper) (K.parts self.new.keeper) (K.failing self.old.keeper) (K.failing self.new.keeper) e self.old self.new) }
        ensures room { OnOk result (length self.old.history < most_entries) }
    {
        // Laws, for the proof that the parts stay those of the state, and that the store's parts are what sessions and gets took.
        direct_entries_keep_parts();
        parts_stay_fed();
        without(self.ledger.bring(self.parts.table(), key, bytes))
    }

    /// Makes the bytes the key's content, by the entry that it has come from the script and the entry that its log says so; where
    /// the content is there or being filled, nothing is done (own). After a refusal in the middle, what was done stands.
    pub fn place(&mut self, key: &Key, bytes: &[u8]) -> Result<(), NodeRefused>
        requires right { MatchesKey key.now bytes.now }
        ensures ok { OnOk result (IsPlaced key.now bytes.now (K.contents self.old.keeper) (K.parts self.old.keeper) (K.contents self.new.keeper) self.old self.new) }
        ensures err { IfErr result (λ e. StopsPlacing key.now bytes.now (K.contents self.old.keeper) (K.parts self.old.keeper) (K.contents self.new.keeper) e self.old self.new) }
        ensures records { K.records self.new.keeper ≡ K.records self.old.keeper }
        ensures later { K.faults self.old.keeper ≤ K.faults self.new.keeper }
        ensures cause { IsErrOf result NodeRefused.StoreFault → Rose (K.faults self.old.keeper) (K.faults self.new.keeper) }
        ensures done { OnOk result (IsDoneBy to_place key.now [] self.old.parts.table (K.contents self.old.keeper) (K.parts self.old.keeper) (K.parts self.new.keeper) (K.failing self.old.keeper) (K.failing self.new.keeper)) }
        ensures stops { IfErr result (λ e. StopsAt to_place key.now bytes.now (K.contents self.old.keeper) (K.contents self.new.keeper) (K.parts self.old.keeper) (K.parts self.new.keeper) (K.failing self.old.keeper) (K.failing self.new.keeper) e self.old self.new) }
        ensures full { IsErrOf result NodeRefused.Full → ((length self.old.history ≡ most_entries) × (self.new ≡ over self.new.keeper self.old)) ⊎ MeetsFullBehind key.now bytes.now (K.contents self.old.keeper) (K.failing self.old.keeper) (K.failing self.new.keeper) self.old self.new }
        ensures room { OnOk result (length self.old.history < most_entries) }
    {
        // Laws, for the proof that the parts stay those of the state, and that the store's parts are what sessions and gets took.
        direct_entries_keep_parts();
        parts_stay_fed();
        // A law, for the proof: files change alone.
        files_are_changed_alone();
        let number = self.ledger.number();
        let taken = self.ledger.bring(self.parts.table(), key, bytes)?;
        if taken {
            return Ok(());
        }
        // Written out for the proof, which names the refusal.
        match self.ledger.gain(key, bytes.len() as u64) {
            Ok(()) => self.ledger.log_status(key, number, true, By::Script),
            Err(refused) => Err(refused),
        }
    }
}
