//! The nodes of a run.
ghost use Rattle.std.specs.Prelude.{◌≡◌, ◌≤◌, ◌<◌, ◌^◌, All, Some, IfOk, length, max, slice_get};
ghost use Rattle.annex_base.specs.Lists.{Each};
ghost use Rattle.run_data.specs.Histories.{most_entries};
ghost use Rattle.repo_node.specs.Stored.{HasNothing};
ghost use Rattle.joined_nodes.specs.Joined.{AreNew, AreNodes, AtNode, MayRun};

use crate::making::{make, spend};
use annex_base::NoMemory;
use object_store::Keeper;
use repo_node::Node;
use run_data::RepoView;
use std::alloc::Global;
use std::marker::Model;

/// The nodes of a run, in order of number, each two of them joined (own). They have tokens to spend, so they are dissolved and
/// never dropped.
pub struct Nodes<K: Keeper> {
    pub(crate) nodes: Vec<Node<K>>,
}

impl<K: Keeper> Model for Nodes<K> {
    ghost use Rattle.std.specs.Prelude.{List};
    ghost use Rattle.repo_node.specs.Nodes.{NodeView};
    ghost use Rattle.joined_nodes.specs.Joined.{AreNodes};

    ghost Value = { List (NodeView K) };

    ghost view = { λ n. n.nodes.items };

    ghost invariant = { λ n. AreNodes n.nodes.items };
}

impl<K: Keeper> Nodes<K> {
    /// A node for each of these repositories, before its first entry. Their stores, in the same order, are empty.
    pub fn new(alloc: Global, repos: &[RepoView], keepers: Vec<K>) -> Result<Nodes<K>, NoMemory>
        requires run { MayRun repos.now }
        requires keepers { length keepers.items ≡ length repos.now }
        requires empty { All (λ k. HasNothing (K.contents k) (K.parts k) (K.records k) (K.files k)) keepers.items }
        ensures { IfOk result (λ nodes. AreNew repos.now keepers.items nodes) }
    {
        let nodes = make(alloc, repos, keepers)?;
        Ok(Nodes { nodes })
    }

    /// How many there are.
    pub fn count(&self) -> usize
        ensures count { result ≡ length self.now }
        ensures joined { AreNodes self.now }
    {
        self.nodes.len()
    }

    /// The node of this number.
    pub fn node(&self, repo: usize) -> &Node<K>
        requires there { repo < length self.now }
        ensures { slice_get self.now repo ≡ Some result.now }
    {
        &self.nodes[repo]
    }

    /// For a caller's proof: no history is longer than it may be.
    pub fn histories_are_few(&self)
        ensures { Each (λ n. length n.history ≤ most_entries) self.now }
    {
        for node in self.nodes.iter() {
            // For the proof: how long a history may be.
            let _ = node.history();
        }
    }

    /// Spends the nodes with their stores.
    pub fn dissolve(self) {
        let Nodes { nodes } = self;
        spend(nodes);
    }
}
