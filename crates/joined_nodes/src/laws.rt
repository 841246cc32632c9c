//! A law of nodes: the contract of a function that does nothing.
ghost use Rattle.std.specs.Prelude.{◌≡◌, ◌<◌, ℕ, List, Some, length, slice_get, slice_set};
ghost use Rattle.node_ends.specs.Joined.{StayPaired};
ghost use Rattle.repo_node.specs.Nodes.{NodeView};
ghost use Rattle.joined_nodes.specs.Joined.{AreNodes};

use node_ends::ends_stay_joined;
use object_store::Keeper;

/// Nodes stay joined, whatever one of them takes and sends.
pub(crate) fn nodes_stay_joined<K: Keeper>()
    ensures { (nodes : List (NodeView K)) (repo : ℕ) (was now : NodeView K) → AreNodes nodes → slice_get nodes repo ≡ Some was → now.setup ≡ was.setup → StayPaired was.parts.links now.parts.links → AreNodes (slice_set nodes repo now) }
{
    // A law: the ends of two repositories stay joined, whatever either takes and sends.
    ends_stay_joined();
}
