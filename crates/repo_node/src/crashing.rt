//! A node makes ready to crash, crashes, and is up again at once.
ghost use Rattle.std.specs.Prelude.{◌≡◌, ◌⊎◌, ◌≤◌, true, Err, length, nat_le, IfErr, IfOk, IsErrOf};
ghost use Rattle.std.specs.Borrow.{RestsIfErr, sem};
ghost use Rattle.node_ends.specs.Joined.{StayPaired};
ghost use Rattle.run_data.specs.Histories.{most_entries};
ghost use Rattle.node_steps.specs.Crashing.{Crashes, HasRoom};
ghost use Rattle.node_steps.specs.Nodes.{told_of};
ghost use Rattle.repo_node.specs.contracts.node.Node.{the_row};

use crate::node::Node;
use node_past::NodeRefused;
use node_steps::{Room, crash, make_ready};
use object_store::Keeper;

/// A node that is ready to crash (own), with the memory for it. It holds the node, so it stands until the next call that changes the
/// node.
#[derive(Drop)]
pub struct ReadyNode<'a, K: Keeper> {
    node: &'a mut Node<K>,
    room: Room,
    ghost enough: { HasRoom room node.now },
}

impl<K: Keeper> Node<K> {
    ghost use Rattle.repo_node.specs.Ready.{held};

    /// Makes ready to crash: takes the memory for the crash's entry, for its Closes and for the jobs that it ends. Full comes exactly
    /// where its history has as many entries as it may have. The node is as before, after a refusal too.
    pub fn make_ready(&mut self) -> Result<ReadyNode<'_, K>, NodeRefused>
        ensures* err { sem 𝓛 (RestsIfErr (the_row K.row K.Keeper) self.entry (λ ready. (held ready).ghost_name) result (λ now. now ≡ self.old)) }
        ensures same_reference { IfOk result (λ ready. (held ready).ghost_name ≡ self.entry.ghost_name) }
        ensures same { IfOk result (λ ready. (held ready).now ≡ self.old) }
        ensures full { IsErrOf result NodeRefused.Full → nat_le most_entries (length self.old.history) ≡ true }
        ensures lacks { nat_le most_entries (length self.old.history) ≡ true → result ≡ Err NodeRefused.Full }
        ensures refused { IfErr result (λ e. (e ≡ NodeRefused.Full) ⊎ (e ≡ NodeRefused.NoMemory)) }
    {
        let room = self.room()?;
        Ok(ReadyNode { node: self, room })
    }

    /// Memory for its crash.
    fn room(&self) -> Result<Room, NodeRefused>
        ensures ok { IfOk result (λ room. HasRoom room self.now) }
        ensures full { IsErrOf result NodeRefused.Full → nat_le most_entries (length self.now.history) ≡ true }
        ensures lacks { nat_le most_entries (length self.now.history) ≡ true → result ≡ Err NodeRefused.Full }
        ensures refused { IfErr result (λ e. (e ≡ NodeRefused.Full) ⊎ (e ≡ NodeRefused.NoMemory)) }
    {
        make_ready(&self.ledger, &self.parts)
    }

    /// Crashes within this memory.
    fn fall(&mut self, room: Room, clock: u64)
        requires near { clock ≤ 100000000000 }
        requires room { HasRoom room self.old }
        ensures ok { Crashes (told_of (K.contents self.old.keeper) (K.parts self.old.keeper)) clock self.old self.new }
        ensures paired { StayPaired self.old.parts.links self.new.parts.links }
    {
        crash(&mut self.ledger, &mut self.parts, room, clock);
    }
}

impl<'a, K: Keeper> ReadyNode<'a, K> {
    ghost use Rattle.repo_node.specs.Ready.{held};

    /// Crashes, by one entry, and is up again at once, with its clock at this, in milliseconds: each end that is open is closed, bars are
    /// off, each hold is kept for ten minutes of the new clock, the lines that were owed and the sessions are gone, and each job has
    /// ended. Its store, its branch and its history stay. It takes no memory, and hands the node back.
    pub fn crash(self, clock: u64) -> &'a mut Node<K>
        requires near { clock ≤ 100000000000 }
        ensures same_reference { result.ghost_name ≡ (held self.entry).ghost_name }
        ensures ok { Crashes (told_of (K.contents (held self.entry).now.keeper) (K.parts (held self.entry).now.keeper)) clock (held self.entry).now result.now }
        ensures paired { StayPaired (held self.entry).now.parts.links result.now.parts.links }
    {
        let ReadyNode { node, room } = self;
        node.fall(room, clock);
        node
    }
}
