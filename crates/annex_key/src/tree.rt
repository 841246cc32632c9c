//! A working tree: the key of each path, and the paths of each key.
ghost use Rattle.std.specs.Prelude.{◌≡◌, ◌≢◌, ◌↔◌, List, ℕ, [], ◌∷◌, ◌++◌, map, Contains, AllPairs, Some, None, IfOk, OnOk, OnErr};
ghost use Rattle.std.specs.List.Sorted.{IsStrictlySortedBy};
ghost use Rattle.std.specs.Map.{keys_of, values_of};
ghost use Rattle.std.specs.Option.{option_copied};
ghost use Rattle.annex_base.specs.ByteOrder.{text_cmp};
ghost use Rattle.annex_key.specs.Tree.{with_key, key_of, paths_of, distinct_keys};
ghost use Rattle.annex_key.specs.TreeView.{view_of, IsIndexed};

use crate::index::{PathIndex, add_path, firsts_of, leave_key, paths_of, take_path};
use crate::key::Key;
use annex_base::{NoMemory, Text};
use std::alloc::Global;
use std::collections::BTreeMap;
use std::marker::Model;

/// The paths of a working tree and the key of each, which contracts see as the list of both in byte order of the
/// paths (own). A path is a byte string.
#[derive(Debug, Drop)]
pub struct Tree {
    keys: BTreeMap<Vec<u8>, Key>,
    // The same the other way round.
    paths: PathIndex,
}

impl Model for Tree {
    ghost use Rattle.std.specs.Prelude.{List, ℕ};
    ghost use Rattle.annex_key.specs.TreeView.{view_of, IsIndexed};

    ghost Value = { List (List ℕ × List ℕ) };

    ghost view = { λ t. view_of t.keys.entries };

    ghost invariant = { λ t. IsIndexed (view_of t.keys.entries) t.paths };
}

impl Tree {
    /// A tree without paths.
    pub fn new(alloc: Global) -> Result<Tree, NoMemory>
        ensures { IfOk result (λ t. t ≡ []) }
    {
        Ok(Tree {
            keys: BTreeMap::new(alloc),
            paths: BTreeMap::new(alloc),
        })
    }

    /// Gives the path this key, in place of an earlier one.
    pub fn set(&mut self, alloc: Global, path: &[u8], key: &Key) -> Result<(), NoMemory>
        ensures ok { OnOk result (self.new ≡ with_key self.old path.now key.now) }
        ensures here { OnOk result (key_of self.new path.now ≡ Some key.now) }
        ensures others { OnOk result ((other : List ℕ) → other ≢ path.now → key_of self.new other ≡ key_of self.old other) }
        ensures err { OnErr result (self.new ≡ self.old) }
    {
        put(&mut self.keys, &mut self.paths, alloc, path, key)
    }

    /// The key of the path.
    pub fn key(&self, path: &[u8]) -> Option<&Key>
        ensures { option_copied result ≡ key_of self.now path.now }
    {
        self.keys.get(path)
    }

    /// The paths of the key, in byte order.
    pub fn paths(&self, alloc: Global, key: &Key) -> Result<Vec<Text>, NoMemory>
        ensures value { IfOk result (λ v. v.items ≡ paths_of self.now key.now) }
        ensures order { IfOk result (λ v. IsStrictlySortedBy text_cmp v.items) }
        ensures each { IfOk result (λ v. (path : List ℕ) → Contains v.items path ↔ (key_of self.now path ≡ Some key.now)) }
    {
        paths_of(&self.paths, alloc, key)
    }

    /// Each key once, in order of its first path in byte order.
    pub fn keys(&self, alloc: Global) -> Result<Vec<Key>, NoMemory>
        ensures value { IfOk result (λ v. v.items ≡ distinct_keys self.now) }
        ensures once { IfOk result (λ v. AllPairs (λ x y. x ≢ y) v.items) }
        ensures each { IfOk result (λ v. (key : List ℕ) → Contains v.items key ↔ ((path : List ℕ) × (key_of self.now path ≡ Some key))) }
    {
        let firsts = firsts_of(&self.paths, alloc)?;
        copies(alloc, &firsts)
    }
}

fn put(
    keys: &mut BTreeMap<Vec<u8>, Key>,
    paths: &mut PathIndex,
    alloc: Global,
    path: &[u8],
    key: &Key,
) -> Result<(), NoMemory>
    requires { IsIndexed (view_of keys.old.entries) paths.old }
    ensures ok { OnOk result (view_of keys.new.entries ≡ with_key (view_of keys.old.entries) path.now key.now) }
    ensures err { OnErr result (view_of keys.new.entries ≡ view_of keys.old.entries) }
    ensures indexed { IsIndexed (view_of keys.new.entries) paths.new }
{
    let text = Text::new(alloc, path)?;
    let row = Vec::from_slice(alloc, path)?;
    let copy = key.copy()?;
    let added = text.clone()?;
    add_path(paths, alloc, key.copy()?, added)?;
    match replace(keys, row, copy) {
        Ok(old) => {
            leave_key(paths, old.as_ref(), key, &text);
            Ok(())
        }
        Err(NoMemory) => {
            take_path(paths, key, &text);
            Err(NoMemory)
        }
    }
}

// What stood there before.
fn replace(
    keys: &mut BTreeMap<Vec<u8>, Key>,
    path: Vec<u8>,
    key: Key,
) -> Result<Option<Key>, NoMemory>
    ensures ok { OnOk result (view_of keys.new.entries ≡ with_key (view_of keys.old.entries) path.items key) }
    ensures old { IfOk result (λ old. old ≡ key_of (view_of keys.old.entries) path.items) }
    ensures err { OnErr result (view_of keys.new.entries ≡ view_of keys.old.entries) }
    ensures none { OnErr result (key_of (view_of keys.old.entries) path.items ≡ None) }
    ensures sorted { IsStrictlySortedBy text_cmp (keys_of (view_of keys.new.entries)) }
{
    Ok(keys.insert(path, key)?)
}

fn copies(alloc: Global, keys: &BTreeMap<Text, Key>) -> Result<Vec<Key>, NoMemory>
    ensures value { IfOk result (λ v. v.items ≡ values_of keys.now.entries) }
    ensures ordered { OnOk result (IsStrictlySortedBy text_cmp (keys_of keys.now.entries)) }
{
    let mut out = Vec::new(alloc);
    for key in keys.values() {
        out.push(key.copy()?)?;
    }
    Ok(out)
}
