//! Bundles: a node's branch as one text, and merges of such texts into it.
ghost use Rattle.std.specs.Prelude.{◌≡◌, ◌≤◌, ◌⊎◌, ℕ, Err, IfOk, IfErr, IsErrOf, OnOk};
ghost use Rattle.std.specs.Option.{ForSome, option_map};
ghost use Rattle.annex_base.specs.Causes.{Rose};
ghost use Rattle.annex_base.specs.declared.kinds.Call.TheVariants as calls;
ghost use Rattle.branch_bundle.specs.Bundle.{IsBundle, IsFirstWrong};
ghost use Rattle.union_merge.specs.Branch.{Files};
ghost use Rattle.node_past.specs.Calls.{Makes};
ghost use Rattle.node_ledger.specs.Calls.{MeetsFull, lacks_of, to_merge};
ghost use Rattle.content_lock.specs.CallsMade.{fewer};
ghost use Rattle.node_ledger.specs.Debts.{failed_put};
ghost use Rattle.node_ledger.specs.Refusals.{RefusesSo};
ghost use Rattle.node_ledger.specs.Walks.{IsOfBundle, StopsAfter, merge_files, over};

use crate::node::Node;
use annex_base::NoMemory;
use branch_bundle::{BundleFault, bundle, bundles_are_exact, read_bundle};
use node_past::NodeRefused;
use node_steps::direct_entries_keep_parts;
use object_store::Keeper;
use std::alloc::Global;
use union_merge::{Branch, files_are_changed_alone};

/// The branch of a bundle.
fn read(alloc: Global, bytes: &[u8]) -> Result<Branch, NodeRefused>
    ensures found { IfOk result (λ b. IsBundle bytes.now b) }
    ensures wrong { IfErr result (λ e. (at : ℕ) → e ≡ NodeRefused.BadBundle at → IsFirstWrong bytes.now at) }
    ensures first { (at : ℕ) → IsFirstWrong bytes.now at → (result ≡ Err (NodeRefused.BadBundle at)) ⊎ (result ≡ Err NodeRefused.NoMemory) }
    ensures no_fault { IfErr result (λ e. e ≡ NodeRefused.StoreFault → ⊥) }
    ensures not_full { IfErr result (λ e. e ≡ NodeRefused.Full → ⊥) }
{
    match read_bundle(alloc, bytes) {
        Ok(branch) => Ok(branch),
        Err(BundleFault::BadBundle { at }) => Err(NodeRefused::BadBundle { at }),
        Err(BundleFault::NoMemory) => Err(NodeRefused::NoMemory),
    }
}

impl<K: Keeper> Node<K> {
    /// Merges another branch, which travels as a bundle, into its own, by one log entry with the new lines for each file that gains
    /// some, in order of path (git-annex internals: branch files; the bundle is own). A text that is no bundle changes
    /// nothing, and a refusal in the middle keeps the files that are done.
    pub fn merge_bundle(&mut self, bytes: &[u8]) -> Result<(), NodeRefused>
        ensures found { OnOk result (IsOfBundle bytes.now) }
        ensures ok { (files : Files) → IsBundle bytes.now files → OnOk result (self.new ≡ over self.new.keeper (merge_files self.old files)) }
        ensures err { (files : Files) → IsBundle bytes.now files → IfErr result (λ e. StopsAfter (merge_files self.old) files e self.new) }
        ensures wrong { (at : ℕ) → result ≡ Err (NodeRefused.BadBundle at) → IsFirstWrong bytes.now at }
        ensures first { (at : ℕ) → IsFirstWrong bytes.now at → (result ≡ Err (NodeRefused.BadBundle at)) ⊎ (result ≡ Err NodeRefused.NoMemory) }
        ensures unread { (at : ℕ) → IsFirstWrong bytes.now at → self.new ≡ self.old }
        ensures contents { K.contents self.new.keeper ≡ K.contents self.old.keeper }
        ensures parts { K.parts self.new.keeper ≡ K.parts self.old.keeper }
        ensures records { K.records self.new.keeper ≡ K.records self.old.keeper }
        ensures later { K.faults self.old.keeper ≤ K.faults self.new.keeper }
        ensures cause { IsErrOf result NodeRefused.StoreFault → Rose (K.faults self.old.keeper) (K.faults self.new.keeper) }
        ensures calls { (files : Files) → IsBundle bytes.now files → Makes (to_merge self.old files) calls.PutFile result (K.failing self.old.keeper) (K.failing self.new.keeper) }
        ensures left { K.failing self.new.keeper ≡ option_map (fewer (failed_put result)) (K.failing self.old.keeper) }
        ensures alone { IsErrOf result NodeRefused.StoreFault → ForSome (K.failing self.old.keeper) (λ failing. RefusesSo NodeRefused.StoreFault calls.PutFile self.old self.new) }
        ensures full { (files : Files) → IsBundle bytes.now files → IsErrOf result NodeRefused.Full → MeetsFull (merge_files self.old) lacks_of files (K.failing self.old.keeper) (K.failing self.new.keeper) self.old self.new }
    {
        // Laws, for the proof: a text is the bundle of one branch, the parts stay those of the state, and files change alone.
        bundles_are_exact();
        direct_entries_keep_parts();
        files_are_changed_alone();
        let _ = self.parts.table();
        let alloc = self.ledger.allocator();
        // Written out for the proof, which names the refusal.
        match read(alloc, bytes) {
            Ok(other) => self.ledger.merge(&other),
            Err(refused) => Err(refused),
        }
    }

    /// Its branch as one text (own).
    pub fn bundle(&self) -> Result<Vec<u8>, NoMemory>
        ensures { IfOk result (λ v. IsBundle v.items self.now.branch) }
    {
        bundle(self.ledger.allocator(), self.branch())
    }
}
