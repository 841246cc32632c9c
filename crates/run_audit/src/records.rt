//! What is kept of the keys of a run.
ghost use Rattle.std.specs.Prelude.{◌≡◌, ◌++◌, ℕ, List, None, false, option_copied, bytes_eq, IfOk, OnOk};
ghost use Rattle.std.specs.Map.{keys_of};
ghost use Rattle.annex_base.specs.ByteOrder.{IsInOrder};
ghost use Rattle.run_audit.specs.Changes.{AreNoted, HasFew, HasPlace, HasPlaceFor, IsChangedAt, StayEntries, StayRecords, changed_key, record_at, record_in, told_key, told_of};

use crate::key_audit::KeyAudit;
use crate::record::KeyRecord;
use annex_base::NoMemory;
use annex_key::Key;
use run_data::{EntryKind, Proof};
use std::alloc::Global;
use std::collections::BTreeMap;

/// The records of the keys that entries of so many repositories gained or removed (own).
#[derive(Drop)]
pub struct Records {
    alloc: Global,
    repos: usize,
    kept: BTreeMap<Key, KeyRecord>,
}

/// The key that an entry of this kind gains or removes.
fn changed_key(kind: &EntryKind) -> Option<&Key>
    ensures { option_copied result ≡ changed_key kind.now }
{
    match kind {
        EntryKind::Gain { key, .. } | EntryKind::Gone { key, .. } => Some(key),
        _ => None,
    }
}

impl Records {
    pub(crate) fn new(alloc: Global, repos: usize) -> Records
        ensures repos { result.repos ≡ repos }
        ensures none { (key : List ℕ) → record_at result key ≡ None }
    {
        Records {
            alloc,
            repos,
            kept: BTreeMap::new(alloc),
        }
    }

    /// Makes a place for the key that an entry of this kind changes. What is kept of each key stays.
    pub(crate) fn ready(&mut self, kind: &EntryKind) -> Result<(), NoMemory>
        ensures place { OnOk result (HasPlaceFor kind.now self.new.kept.entries) }
        ensures same { StayRecords self.old self.new }
    {
        match changed_key(kind) {
            Some(key) => make_place(&mut self.kept, self.alloc, self.repos, key),
            None => Ok(()),
        }
    }

    /// Takes note of an entry of this kind of a repository, where this is the proof of its drop, if it is a removal. It takes no memory,
    /// and goes over the repositories where the entry changes a key.
    pub(crate) fn note(&mut self, repo: u32, kind: &EntryKind, proof: &Option<Proof>)
        requires few { HasFew self.old.kept.entries }
        requires place { HasPlaceFor kind.now self.old.kept.entries }
        ensures { AreNoted repo kind.now proof.now self.old self.new }
    {
        match kind {
            EntryKind::Gain { key, .. } => change(&mut self.kept, repo, key, true, &None),
            EntryKind::Gone { key, .. } => change(&mut self.kept, repo, key, false, proof),
            _ => {}
        }
    }

    /// What the audit says of each key with a removal, in byte order of the keys' texts. It goes once over all keys.
    pub(crate) fn told(&self, alloc: Global) -> Result<Vec<KeyAudit>, NoMemory>
        ensures value { IfOk result (λ keys. keys.items ≡ told_of self.now.kept.entries) }
        ensures order { OnOk result (IsInOrder (keys_of self.now.kept.entries)) }
    {
        told(alloc, &self.kept)
    }
}

fn told(alloc: Global, kept: &BTreeMap<Key, KeyRecord>) -> Result<Vec<KeyAudit>, NoMemory>
    ensures value { IfOk result (λ keys. keys.items ≡ told_of kept.now.entries) }
    ensures order { OnOk result (IsInOrder (keys_of kept.now.entries)) }
{
    let mut keys = Vec::new(alloc);
    for (key, record) in kept.iter() {
        tell(&mut keys, key, record)?;
    }
    Ok(keys)
}

/// Adds what the audit says of the key, if it has a removal.
fn tell(keys: &mut Vec<KeyAudit>, key: &Key, record: &KeyRecord) -> Result<(), NoMemory>
    ensures { OnOk result (keys.new.items ≡ keys.old.items ++ told_key key.now record.now) }
{
    let Some(least) = record.least else {
        return Ok(());
    };
    let Some(mincopies) = record.need else {
        return Ok(());
    };
    keys.push(KeyAudit {
        key: key.copy()?,
        removals: record.removals,
        least,
        mincopies,
    })?;
    Ok(())
}

/// Makes a place for the key, where there is none.
fn make_place(
    kept: &mut BTreeMap<Key, KeyRecord>,
    alloc: Global,
    repos: usize,
    key: &Key,
) -> Result<(), NoMemory>
    ensures place { OnOk result (HasPlace key.now kept.new.entries) }
    ensures same { StayEntries repos kept.old.entries kept.new.entries }
{
    match kept.get(key) {
        Some(_found) => Ok(()),
        None => add(kept, alloc, repos, key),
    }
}

fn add(
    kept: &mut BTreeMap<Key, KeyRecord>,
    alloc: Global,
    repos: usize,
    key: &Key,
) -> Result<(), NoMemory>
    requires { record_in kept.old.entries key.now ≡ None }
    ensures place { OnOk result (HasPlace key.now kept.new.entries) }
    ensures same { StayEntries repos kept.old.entries kept.new.entries }
{
    let name = key.copy()?;
    let record = KeyRecord::new(alloc, repos)?;
    kept.insert(name, record)?;
    Ok(())
}

fn change(
    kept: &mut BTreeMap<Key, KeyRecord>,
    repo: u32,
    key: &Key,
    copy: bool,
    proof: &Option<Proof>,
)
    requires few { HasFew kept.old.entries }
    requires place { HasPlace key.now kept.old.entries }
    ensures here { IsChangedAt repo copy proof.now (record_in kept.old.entries key.now) (record_in kept.new.entries key.now) }
    ensures others { (other : List ℕ) → bytes_eq key.now other ≡ false → record_in kept.new.entries other ≡ record_in kept.old.entries other }
{
    match kept.get_mut(key) {
        Some(record) => record.change(repo, copy, proof),
        None => unreachable!(),
    }
}
