//! The paths of each key, in byte order, so that they are found without a walk over the tree.
ghost use Rattle.std.specs.Prelude.{◌≡◌, ◌||◌, ◌&&◌, not, List, ℕ, IfOk, OnOk, OnErr, Some};
ghost use Rattle.std.specs.Option.{option_copied};
ghost use Rattle.std.specs.List.{list_any};
ghost use Rattle.std.specs.List.Sorted.{IsStrictlySortedBy};
ghost use Rattle.std.specs.BTreeMap.{is_at};
ghost use Rattle.std.specs.Str.{bytes_eq};
ghost use Rattle.annex_base.specs.ByteOrder.{text_cmp};
ghost use Rattle.annex_key.specs.TreeView.{has_path, was_left, AddsFirst, AreFirsts};

use crate::key::Key;
use annex_base::{NoMemory, Text};
use std::alloc::Global;
use std::collections::{BTreeMap, BTreeSet};

/// The paths of each key that has one.
pub(crate) type PathIndex = BTreeMap<Key, BTreeSet<Text>>;

/// Adds a path of the key.
pub(crate) fn add_path(
    index: &mut PathIndex,
    alloc: Global,
    key: Key,
    path: Text,
) -> Result<(), NoMemory>
    ensures ok { OnOk result ((k p : List ℕ) → has_path index.new k p ≡ ((bytes_eq key k && bytes_eq path p) || has_path index.old k p)) }
    ensures err { OnErr result ((k p : List ℕ) → has_path index.new k p ≡ has_path index.old k p) }
{
    if let Some(paths) = index.get_mut(&key) {
        paths.insert(path)?;
        return Ok(());
    }
    let mut paths = BTreeSet::new(alloc);
    paths.insert(path)?;
    index.insert(key, paths)?;
    Ok(())
}

/// Takes a path from the key's.
pub(crate) fn take_path(index: &mut PathIndex, key: &Key, path: &Text)
    ensures { (k p : List ℕ) → has_path index.new k p ≡ (not (bytes_eq key.now k && bytes_eq path.now p) && has_path index.old k p) }
{
    let Some(paths) = index.get_mut(key) else {
        return;
    };
    paths.remove(path);
    let is_last = paths.is_empty();
    if is_last {
        index.remove(key);
    }
}

/// Takes the path from its old key, where it has another one now.
pub(crate) fn leave_key(index: &mut PathIndex, old: Option<&Key>, now: &Key, path: &Text)
    ensures { (k p : List ℕ) → has_path index.new k p ≡ (not (was_left (option_copied old.entry) now.now k && bytes_eq path.now p) && has_path index.old k p) }
{
    if let Some(old) = old {
        if old != now {
            take_path(index, old, path);
        }
    }
}

/// The paths of the key.
pub(crate) fn paths_of(index: &PathIndex, alloc: Global, key: &Key) -> Result<Vec<Text>, NoMemory>
    ensures has { IfOk result (λ v. (p : List ℕ) → has_path index.now key.now p ≡ list_any (is_at (text_cmp p)) v.items) }
    ensures order { IfOk result (λ v. IsStrictlySortedBy text_cmp v.items) }
{
    match index.get(key) {
        Some(paths) => copies(paths, alloc),
        None => Ok(Vec::new(alloc)),
    }
}

fn copies(paths: &BTreeSet<Text>, alloc: Global) -> Result<Vec<Text>, NoMemory>
    ensures { IfOk result (λ v. (v.items ≡ paths.now.keys) × IsStrictlySortedBy text_cmp v.items) }
{
    let mut out = Vec::new(alloc);
    for path in paths.iter() {
        out.push(path.clone()?)?;
    }
    Ok(out)
}

/// Each key at its first path.
pub(crate) fn firsts_of(index: &PathIndex, alloc: Global) -> Result<BTreeMap<Text, Key>, NoMemory>
    ensures { IfOk result (λ m. AreFirsts index.now m) }
{
    let mut firsts = BTreeMap::new(alloc);
    for (key, paths) in index.iter() {
        add_first(&mut firsts, key, paths)?;
    }
    Ok(firsts)
}

fn add_first(
    firsts: &mut BTreeMap<Text, Key>,
    key: &Key,
    paths: &BTreeSet<Text>,
) -> Result<(), NoMemory>
    ensures { OnOk result (AddsFirst paths.now key.now firsts.old firsts.new) }
{
    if let Some(first) = paths.first() {
        firsts.insert(first.clone()?, key.clone()?)?;
    }
    Ok(())
}
