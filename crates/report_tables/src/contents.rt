//! Which repositories have the content of which keys.

ghost use Rattle.std.specs.Prelude.{◌≡◌, ◌<◌, ◌≤◌, ◌^◌, ℕ, List, [], ◌∷◌, false, filter, IfOk, OnOk, OnErr};
ghost use Rattle.std.specs.BTreeSet.{btree_set_len, contains};
ghost use Rattle.std.specs.List.{range_with_len};
ghost use Rattle.run_data.specs.declared.entry.Entry.{Entry};
ghost use Rattle.run_model.specs.Past.{present};
ghost use Rattle.node_model.specs.Rows.{present_after};
ghost use Rattle.report_tables.specs.Before.{total_after};
ghost use Rattle.report_tables.specs.Contents.{Tracks, count_of, key_cmp};

use annex_base::NoMemory;
use annex_key::Key;
use run_data::{Entry, EntryKind};
use std::alloc::Global;
use std::collections::BTreeSet;

/// Which of a run's repositories have the content of which keys, after some first entries of the run.
#[derive(Debug, Drop)]
pub(crate) struct Contents {
    sets: Vec<BTreeSet<Key>>,
}

impl Contents {
    /// Before the first entry no repository has a content.
    pub(crate) fn new(alloc: Global, repositories: usize) -> Result<Contents, NoMemory>
        ensures { IfOk result (λ contents. Tracks contents repositories []) }
    {
        let mut sets = Vec::new(alloc);
        for _ in 0..repositories {
            sets.push(BTreeSet::new(alloc))?;
        }
        Ok(Contents { sets })
    }

    /// Whether the repository of this number has the content of the key; one that isn't there has none.
    pub(crate) fn has(&self, repo: u32, key: &Key) -> bool
        ensures known { (repositories : ℕ) (past : List Entry) → Tracks self.now repositories past → repo < repositories → result ≡ present past repo key.now }
        ensures beyond { (repositories : ℕ) (past : List Entry) → Tracks self.now repositories past → repositories ≤ repo → result ≡ false }
    {
        let index = repo as usize;
        index < self.sets.len() && self.sets[index].contains(key)
    }

    /// How many contents the repository of this number has; one that isn't there has none.
    pub(crate) fn count(&self, repo: u32) -> usize
        ensures { result ≡ count_of self.now.sets.items repo }
    {
        match self.sets.get(repo as usize) {
            Some(keys) => keys.len(),
            None => 0,
        }
    }

    /// Takes note of what one more entry changes: a gain or a removal of one of the repositories.
    pub(crate) fn add(&mut self, entry: &Entry) -> Result<(), NoMemory>
        ensures ok { OnOk result ((repositories : ℕ) (past : List Entry) → Tracks self.old repositories past → Tracks self.new repositories (entry.now ∷ past)) }
        ensures err { OnErr result ((repositories : ℕ) (past : List Entry) → Tracks self.old repositories past → Tracks self.new repositories past) }
    {
        let Some(repo) = entry.repo else {
            return Ok(());
        };
        let index = repo as usize;
        if index < self.sets.len() {
            change(&mut self.sets[index], &entry.kind)?;
        }
        Ok(())
    }
}

/// The numbers of the repositories that have the key, in order.
pub(crate) fn possessors(
    alloc: Global,
    contents: &Contents,
    repositories: usize,
    key: &Key,
) -> Result<Vec<u32>, NoMemory>
    requires { repositories < 2 ^ 32 }
    ensures { IfOk result (λ numbers. (past : List Entry) → Tracks contents.now repositories past
        → numbers.items ≡ filter (λ r. present past r key.now) (range_with_len 0 repositories)) }
{
    let mut numbers = Vec::new(alloc);
    for repo in 0..repositories as u32 {
        if contents.has(repo, key) {
            numbers.push(repo)?;
        }
    }
    Ok(numbers)
}

fn change(keys: &mut BTreeSet<Key>, kind: &EntryKind) -> Result<(), NoMemory>
    ensures ok { OnOk result ((key : List ℕ) → contains key_cmp keys.new key ≡ present_after key (contains key_cmp keys.old key) kind.now) }
    ensures count { OnOk result (btree_set_len keys.new ≡ total_after (contains key_cmp keys.old) (btree_set_len keys.old) kind.now) }
    ensures err { OnErr result ((key : List ℕ) → contains key_cmp keys.new key ≡ contains key_cmp keys.old key) }
    ensures err_count { OnErr result (btree_set_len keys.new ≡ btree_set_len keys.old) }
{
    match kind {
        EntryKind::Gain { key, .. } => {
            keys.insert(key.clone()?)?;
        }
        EntryKind::Gone { key, .. } => {
            keys.remove(key);
        }
        _ => {}
    }
    Ok(())
}
