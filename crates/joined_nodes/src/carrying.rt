//! Frames are carried between the nodes.
ghost use Rattle.std.specs.Prelude.{◌≡◌, ◌≢◌, ℕ, ◌<◌, length, slice_get};
ghost use Rattle.node_ends.specs.Joined.{AreCarried};
ghost use Rattle.repo_node.specs.Nodes.{NodeView};
ghost use Rattle.joined_nodes.specs.Carrying.{AreCarriedTo, AreCarriedTwo, AreCarriedWith};
ghost use Rattle.joined_nodes.specs.Joined.{AreAllCarried, AreNodes, AtNode, with_links};

use crate::nodes::Nodes;
use node_ends::ends_stay_joined;
use object_store::Keeper;
use repo_node::{Node, carry_nodes};

/// Carries frames between two of the nodes.
fn carry_two<K: Keeper>(nodes: &mut [Node<K>], low: usize, high: usize)
    requires order { low < high }
    requires there { high < length nodes.old }
    requires nodes { AreNodes nodes.old }
    ensures carried { AreCarriedTwo low high nodes.old nodes.new }
    ensures nodes { AreNodes nodes.new }
{
    // A law: the ends of either node and those of a third stay joined when frames are carried.
    ends_stay_joined();
    let (before, from) = nodes.split_at_mut(high);
    carry_nodes(&mut before[low], &mut from[0]);
}

/// Carries frames between one of the nodes and another one, if it is another one.
fn carry_with<K: Keeper>(nodes: &mut [Node<K>], repo: usize, other: usize)
    requires repo { repo < length nodes.old }
    requires other { other < length nodes.old }
    requires nodes { AreNodes nodes.old }
    ensures { AreCarriedWith repo other nodes.old nodes.new }
{
    if other < repo {
        carry_two(nodes, other, repo);
    } else if repo < other {
        carry_two(nodes, repo, other);
    }
}

/// Carries frames between one of the nodes and each other one.
fn carry_all<K: Keeper>(nodes: &mut [Node<K>], repo: usize)
    requires there { repo < length nodes.old }
    requires nodes { AreNodes nodes.old }
    ensures { AreCarriedTo (length nodes.old) repo nodes.old nodes.new }
{
    for other in 0..nodes.len() {
        carry_with(nodes, repo, other);
    }
}

impl<K: Keeper> Nodes<K> {
    /// Carries the frames of all connections between a node and each other one to the ends that take them. It takes no memory.
    pub fn carry(&mut self, repo: usize)
        requires there { repo < length self.old }
        ensures node { AtNode repo self.old self.new (λ was now. now ≡ with_links was now.parts.links) }
        ensures links { AtNode repo self.old self.new (λ was now. AreAllCarried repo self.old was.parts.links now.parts.links) }
        ensures others { (i : ℕ) → i ≢ repo → AtNode i self.old self.new (λ was now. now ≡ with_links was now.parts.links) }
        ensures other_links { (i : ℕ) (node : NodeView K) → i ≢ repo → slice_get self.old repo ≡ Some node → AtNode i self.old self.new (λ was now. AreCarried i repo was.parts.links now.parts.links node.parts.links) }
        ensures count { length self.new ≡ length self.old }
    {
        carry_all(self.nodes.as_mut_slice(), repo);
    }
}
