//! The ends of a node's connections with another are closed.
ghost use Rattle.std.specs.Prelude.{◌≡◌, ◌≢◌, ◌⊎◌, ◌<◌, true, Err, length, IfErr, IsErrOf, OnErr, OnOk};
ghost use Rattle.node_ends.specs.Joined.{StayPaired};
ghost use Rattle.node_steps.specs.Closing.{ClosesEach, ends_to, lacks_places};
ghost use Rattle.node_steps.specs.Nodes.{told_of};

use crate::node::Node;
use node_past::NodeRefused;
use node_steps::close_ends;
use object_store::Keeper;

impl<K: Keeper> Node<K> {
    /// Closes its ends of the connections with another repository that are open, each by one entry, in order of side, the client's
    /// first, and of slot. Full comes exactly where its history has too few places left for all of them, and then none is closed.
    /// After a refusal all is as before.
    pub fn close_end(&mut self, peer: u32) -> Result<(), NodeRefused>
        requires known { peer < length self.old.setup.repos }
        requires other { peer ≢ self.old.setup.number }
        ensures ok { OnOk result (ClosesEach (told_of (K.contents self.old.keeper) (K.parts self.old.keeper)) (ends_to peer) self.old self.new) }
        ensures full { IsErrOf result NodeRefused.Full → lacks_places self.old peer ≡ true }
        ensures lacks { lacks_places self.old peer ≡ true → result ≡ Err NodeRefused.Full }
        ensures refused { IfErr result (λ e. (e ≡ NodeRefused.Full) ⊎ (e ≡ NodeRefused.NoMemory)) }
        ensures paired { StayPaired self.old.parts.links self.new.parts.links }
        ensures err { OnErr result (self.new ≡ self.old) }
    {
        close_ends(&mut self.ledger, &mut self.parts, peer)
    }
}
