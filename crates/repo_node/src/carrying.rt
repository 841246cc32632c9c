//! Frames are carried between two nodes.
ghost use Rattle.std.specs.Prelude.{◌≡◌};
ghost use Rattle.node_ends.specs.Joined.{AreCarried, AreJoined};

use crate::node::Node;
use object_store::Keeper;

/// Carries the frames of all connections between two nodes to the ends that take them. It takes no memory.
pub fn carry_nodes<K: Keeper>(a: &mut Node<K>, b: &mut Node<K>)
    requires joined { AreJoined a.old.setup.number b.old.setup.number a.old.parts.links b.old.parts.links }
    ensures joined { AreJoined a.old.setup.number b.old.setup.number a.new.parts.links b.new.parts.links }
    ensures first { AreCarried a.old.setup.number b.old.setup.number a.old.parts.links a.new.parts.links b.old.parts.links }
    ensures second { AreCarried b.old.setup.number a.old.setup.number b.old.parts.links b.new.parts.links a.old.parts.links }
    ensures rest { a.new ≡ record a.old { parts = record a.old.parts { links = a.new.parts.links } } }
    ensures other_rest { b.new ≡ record b.old { parts = record b.old.parts { links = b.new.parts.links } } }
{
    a.parts.carry(&mut b.parts);
}
