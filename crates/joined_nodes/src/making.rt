//! Nodes are made.
ghost use Rattle.std.specs.Prelude.{◌≡◌, ◌+◌, ◌≤◌, ◌<◌, [], All, IfOk, OnOk, length, vec_capacity, vec_len};
ghost use Rattle.repo_node.specs.Stored.{HasNothing};
ghost use Rattle.annex_base.specs.Lists.{Each};
ghost use Rattle.joined_nodes.specs.Making.{AddsNew, AreFresh, AreNewSoFar};
ghost use Rattle.joined_nodes.specs.Joined.{AreNew, AreNodes, MayRun};

use crate::repos::setup_of;
use annex_base::NoMemory;
use link_ring::{Links, make_links};
use node_ends::ends_stay_joined;
use object_store::Keeper;
use repo_node::Node;
use run_data::RepoView;
use std::alloc::Global;

/// Adds the node of the next one of these repositories, over this store.
fn add_node<K: Keeper>(
    alloc: Global,
    nodes: &mut Vec<Node<K>>,
    repos: &[RepoView],
    keeper: K,
    links: &mut Vec<Links>,
) -> Result<(), NoMemory>
    requires run { MayRun repos.now }
    requires there { length nodes.old.items < length repos.now }
    requires empty { HasNothing (K.contents keeper) (K.parts keeper) (K.records keeper) (K.files keeper) }
    requires links { vec_len links.old + length nodes.old.items ≡ length repos.now }
    requires fresh { Each (AreFresh (length repos.now)) links.old.items }
    requires room { length repos.now ≤ vec_capacity nodes.old }
    ensures ok { OnOk result (AddsNew repos.now keeper nodes.old.items nodes.new.items) }
    ensures links { vec_len links.new + 1 ≡ vec_len links.old }
    ensures fresh { Each (AreFresh (length repos.now)) links.new.items }
    ensures room { vec_capacity nodes.old ≤ vec_capacity nodes.new }
{
    let Some(own) = links.pop() else {
        unreachable!();
    };
    let setup = setup_of(alloc, repos, nodes.len())?;
    let node = Node::new(alloc, setup, keeper, own)?;
    nodes.push_reserved(node);
    Ok(())
}

/// Adds a node for each of these repositories, in order, over the store at its place.
fn add_all<K: Keeper>(
    alloc: Global,
    nodes: &mut Vec<Node<K>>,
    repos: &[RepoView],
    keepers: Vec<K>,
    mut links: Vec<Links>,
) -> Result<(), NoMemory>
    requires run { MayRun repos.now }
    requires keepers { length keepers.items ≡ length repos.now }
    requires empty { All (λ k. HasNothing (K.contents k) (K.parts k) (K.records k) (K.files k)) keepers.items }
    requires links { vec_len links ≡ length repos.now }
    requires fresh { Each (AreFresh (length repos.now)) links.items }
    requires none { nodes.old.items ≡ [] }
    requires room { length repos.now ≤ vec_capacity nodes.old }
    ensures { OnOk result (AreNewSoFar repos.now keepers.items nodes.new.items) }
{
    for keeper in keepers {
        add_node(alloc, nodes, repos, keeper, &mut links)?;
    }
    Ok(())
}

/// Spends nodes with their stores.
pub(crate) fn spend<K: Keeper>(mut nodes: Vec<Node<K>>) {
    while let Some(node) = nodes.pop() {
        let _keeper = node.dissolve();
    }
    nodes.destroy_empty();
}

/// A node for each of these repositories, over the store at its place.
pub(crate) fn make<K: Keeper>(
    alloc: Global,
    repos: &[RepoView],
    keepers: Vec<K>,
) -> Result<Vec<Node<K>>, NoMemory>
    requires run { MayRun repos.now }
    requires keepers { length keepers.items ≡ length repos.now }
    requires empty { All (λ k. HasNothing (K.contents k) (K.parts k) (K.records k) (K.files k)) keepers.items }
    ensures new { IfOk result (λ nodes. AreNew repos.now keepers.items nodes.items) }
    ensures nodes { IfOk result (λ nodes. AreNodes nodes.items) }
{
    // A law: the ends of each two repositories are joined at first.
    ends_stay_joined();
    let links = make_links(alloc, repos.len() as u32)?;
    let mut nodes = Vec::with_capacity(alloc, repos.len())?;
    match add_all(alloc, &mut nodes, repos, keepers, links) {
        Ok(()) => Ok(nodes),
        Err(e) => {
            spend(nodes);
            Err(e)
        }
    }
}
