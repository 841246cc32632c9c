//! Compactions of a node's files.
ghost use Rattle.std.specs.Prelude.{◌≡◌, ◌≤◌, IfErr, IsErrOf, OnOk};
ghost use Rattle.std.specs.Map.{keys_of};
ghost use Rattle.std.specs.Option.{ForSome};
ghost use Rattle.annex_base.specs.Causes.{Rose};
ghost use Rattle.annex_base.specs.declared.kinds.Call.TheVariants as calls;
ghost use Rattle.node_past.specs.Calls.{Makes};
ghost use Rattle.node_ledger.specs.Calls.{MeetsFull, shrinks_at, to_compact};
ghost use Rattle.node_ledger.specs.Refusals.{RefusesSo};
ghost use Rattle.node_ledger.specs.Walks.{StopsAfter, compact_files, over};

use crate::node::Node;
use node_past::NodeRefused;
use node_steps::direct_entries_keep_parts;
use object_store::Keeper;
use union_merge::files_are_changed_alone;

impl<K: Keeper> Node<K> {
    /// Takes the outdated lines of its files away, by one entry for each file that has some, in order of path (own). A refusal in
    /// the middle keeps the files that are done.
    pub fn compact(&mut self) -> Result<(), NodeRefused>
        ensures ok { OnOk result (self.new ≡ over self.new.keeper (compact_files self.old (keys_of self.old.branch))) }
        ensures err { IfErr result (λ e. StopsAfter (compact_files self.old) (keys_of self.old.branch) e self.new) }
        ensures contents { K.contents self.new.keeper ≡ K.contents self.old.keeper }
        ensures parts { K.parts self.new.keeper ≡ K.parts self.old.keeper }
        ensures records { K.records self.new.keeper ≡ K.records self.old.keeper }
        ensures later { K.faults self.old.keeper ≤ K.faults self.new.keeper }
        ensures cause { IsErrOf result NodeRefused.StoreFault → Rose (K.faults self.old.keeper) (K.faults self.new.keeper) }
        ensures calls { Makes (to_compact self.old) calls.PutFile result (K.failing self.old.keeper) (K.failing self.new.keeper) }
        ensures alone { IsErrOf result NodeRefused.StoreFault → ForSome (K.failing self.old.keeper) (λ failing. RefusesSo NodeRefused.StoreFault calls.PutFile self.old self.new) }
        ensures full { IsErrOf result NodeRefused.Full → MeetsFull (compact_files self.old) shrinks_at (keys_of self.old.branch) (K.failing self.old.keeper) (K.failing self.new.keeper) self.old self.new }
    {
        // Laws, for the proof that the parts stay those of the state, and that files change alone.
        direct_entries_keep_parts();
        files_are_changed_alone();
        let _ = self.parts.table();
        self.ledger.compact()
    }
}
