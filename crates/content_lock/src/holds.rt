//! The holds of a repository in order of their numbers, and the numbers of those on each key.
ghost use Rattle.std.specs.Prelude.{◌≡◌, ◌+◌, ◌<◌, ◌^◌, ◌==◌, not, if◌then◌else◌, true, false, [], ◌∷◌, ◌++◌, List, ℕ, None, Some, All, filter, fold, map, reverse, IfOk, OnOk, OnErr, IfSome, IfNone, bytes_eq};
ghost use Rattle.std.specs.Map.{values_of};
ghost use Rattle.node_model.specs.Rows.{blocks, is_blocked, restart};
ghost use Rattle.node_model.specs.DropStep.{until};
ghost use Rattle.content_lock.specs.Indexed.{AreFalling, AreRising, IsIndexed, IsRecovered, listed_at, on_key, with_number, after_hold, hold_at};
ghost use Rattle.annex_base.specs.Lists.{Each};
ghost use Rattle.object_store.specs.Stores as stores;
ghost use Rattle.content_lock.specs.Blocking.{Names};
ghost use Rattle.content_lock.specs.Stored.{kept_hold};
ghost use Rattle.content_lock.specs.Tokens.{keep_numbered, others_of};

use crate::hold::{Blocker, kept_hold, named_after, restart};
use annex_base::NoMemory;
use annex_key::Key;
use indexmap::IndexMap;
use object_store::HoldRecord;
use run_data::Hold;
use std::alloc::Global;
use std::collections::BTreeMap;
use std::marker::Model;

/// Holds, which contracts see as a list, that of the greatest number first.
#[derive(Drop)]
pub(crate) struct Holds {
    alloc: Global,
    by_number: BTreeMap<u64, Hold>,
    // The numbers on each key that has a hold, in rising order.
    numbers: IndexMap<Key, Vec<u64>>,
}

impl Model for Holds {
    ghost use Rattle.std.specs.Prelude.{List, reverse};
    ghost use Rattle.std.specs.Map.{values_of};
    ghost use Rattle.run_data.specs.declared.row.Hold.{Hold};
    ghost use Rattle.content_lock.specs.Indexed.{IsIndexed};

    ghost Value = { List Hold };

    ghost view = { λ h. reverse (values_of h.by_number.entries) };

    ghost invariant = { λ h. IsIndexed h.by_number.entries h.numbers.entries };
}

impl Holds {
    pub(crate) fn new(alloc: Global) -> Holds
        ensures { result ≡ [] }
    {
        Holds {
            alloc,
            by_number: BTreeMap::new(alloc),
            numbers: IndexMap::new(alloc),
        }
    }

    /// What a crash leaves of these records: each is a kept hold, whose ten minutes begin with a clock that is set to this.
    pub(crate) fn recover(
        alloc: Global,
        records: Vec<HoldRecord>,
        now: u64,
    ) -> Result<Holds, NoMemory>
        requires { now + 600000 < 2 ^ 62 }
        ensures kept { IfOk result (Each (λ h. h.kept ≡ true)) }
        ensures same { IfOk result (λ hs. stores.AreFalling records.items → hs ≡ map (kept_hold now) records.items) }
    {
        let by_number = recovered(alloc, records, now)?;
        let numbers = index_of(alloc, &by_number)?;
        Ok(Holds {
            alloc,
            by_number,
            numbers,
        })
    }

    /// Adds a hold of a greater number than each.
    pub(crate) fn add(&mut self, hold: Hold) -> Result<(), NoMemory>
        requires { All (λ h. h.number < hold.number) self.old }
        ensures ok { OnOk result (self.new ≡ hold ∷ self.old) }
        ensures err { OnErr result (self.new ≡ self.old) }
    {
        add(&mut self.by_number, &mut self.numbers, self.alloc, hold)
    }

    /// Takes the hold of this number off.
    pub(crate) fn take_off(&mut self, number: u64)
        ensures off { self.new ≡ others_of number self.old }
        ensures falling { AreFalling self.old }
    {
        take_off(&mut self.by_number, &mut self.numbers, number);
    }

    /// Keeps the hold of this number until its end.
    pub(crate) fn keep(&mut self, number: u64)
        ensures kept { self.new ≡ map (keep_numbered number) self.old }
        ensures falling { AreFalling self.old }
    {
        keep(&mut self.by_number, number);
    }

    /// Keeps each hold for ten minutes of a clock that was set anew.
    pub(crate) fn restart(&mut self, now: u64)
        requires { now + 600000 < 2 ^ 62 }
        ensures { self.new ≡ map (restart now) self.old }
    {
        restart_all(&mut self.by_number, now);
    }

    /// Which hold blocks a removal of the key, if one does.
    pub(crate) fn blocker(&self, key: &Key, now: u64) -> Option<Blocker>
        ensures none { IfNone result ((is_blocked self.now key.now now ≡ false) × (until (filter (blocks key.now now) self.now) ≡ None)) }
        ensures some { IfSome result (λ b. (is_blocked self.now key.now now ≡ true) × Names b.hold b.until (filter (blocks key.now now) self.now)) }
    {
        match self.numbers.get(key) {
            Some(numbers) => first_blocker(&self.by_number, numbers, key, now),
            None => None,
        }
    }
}

/// The kept holds of the records, by number.
fn recovered(
    alloc: Global,
    records: Vec<HoldRecord>,
    now: u64,
) -> Result<BTreeMap<u64, Hold>, NoMemory>
    requires { now + 600000 < 2 ^ 62 }
    ensures { IfOk result (λ m. IsRecovered now records.items m.entries) }
{
    let mut by_number = BTreeMap::new(alloc);
    for stored in records {
        by_number.insert(stored.number, kept_hold(stored, now))?;
    }
    Ok(by_number)
}

/// The numbers on each key.
fn index_of(
    alloc: Global,
    by_number: &BTreeMap<u64, Hold>,
) -> Result<IndexMap<Key, Vec<u64>>, NoMemory>
    ensures { IfOk result (λ m. (key : List ℕ) → listed_at m.entries key ≡ map (λ h. h.number) (on_key key (values_of by_number.now.entries))) }
{
    let mut numbers = IndexMap::new(alloc);
    for hold in by_number.values() {
        enlist(&mut numbers, alloc, &hold.key, hold.number)?;
    }
    Ok(numbers)
}

/// Lists the number last at the key.
fn enlist(
    numbers: &mut IndexMap<Key, Vec<u64>>,
    alloc: Global,
    key: &Key,
    number: u64,
) -> Result<(), NoMemory>
    ensures ok { OnOk result ((k : List ℕ) → listed_at numbers.new.entries k ≡ (if bytes_eq key.now k then listed_at numbers.old.entries k ++ number ∷ [] else listed_at numbers.old.entries k)) }
    ensures err { OnErr result ((k : List ℕ) → listed_at numbers.new.entries k ≡ listed_at numbers.old.entries k) }
{
    if let Some(listed) = numbers.get_mut(key) {
        listed.push(number)?;
        return Ok(());
    }
    let mut listed = Vec::new(alloc);
    listed.push(number)?;
    numbers.insert(key.copy()?, listed)?;
    Ok(())
}

/// Takes the number off the key's list.
fn delist(numbers: &mut IndexMap<Key, Vec<u64>>, key: &Key, number: u64)
    ensures { (k : List ℕ) → listed_at numbers.new.entries k ≡ (if bytes_eq key.now k then filter (λ n. not (n == number)) (listed_at numbers.old.entries k) else listed_at numbers.old.entries k) }
{
    let Some(listed) = numbers.get_mut(key) else {
        return;
    };
    listed.retain(|n| *n != number);
    let is_last = listed.is_empty();
    if is_last {
        numbers.swap_remove(key);
    }
}

fn add(
    by_number: &mut BTreeMap<u64, Hold>,
    numbers: &mut IndexMap<Key, Vec<u64>>,
    alloc: Global,
    hold: Hold,
) -> Result<(), NoMemory>
    requires indexed { IsIndexed by_number.old.entries numbers.old.entries }
    requires greater { All (λ h. h.number < hold.number) (values_of by_number.old.entries) }
    ensures ok { OnOk result (values_of by_number.new.entries ≡ values_of by_number.old.entries ++ hold ∷ []) }
    ensures err { OnErr result (values_of by_number.new.entries ≡ values_of by_number.old.entries) }
    ensures indexed { IsIndexed by_number.new.entries numbers.new.entries }
{
    enlist(numbers, alloc, &hold.key, hold.number)?;
    match by_number.insert(hold.number, hold) {
        Ok(_) => Ok(()),
        Err(refused) => {
            let (number, hold) = refused.value;
            delist(numbers, &hold.key, number);
            Err(NoMemory)
        }
    }
}

fn take_off(by_number: &mut BTreeMap<u64, Hold>, numbers: &mut IndexMap<Key, Vec<u64>>, number: u64)
    requires indexed { IsIndexed by_number.old.entries numbers.old.entries }
    ensures off { values_of by_number.new.entries ≡ others_of number (values_of by_number.old.entries) }
    ensures indexed { IsIndexed by_number.new.entries numbers.new.entries }
{
    if let Some(hold) = by_number.remove(&number) {
        delist(numbers, &hold.key, number);
    }
}

fn keep(by_number: &mut BTreeMap<u64, Hold>, number: u64)
    requires named { by_number.old.entries ≡ map with_number (values_of by_number.old.entries) }
    requires rising { AreRising (values_of by_number.old.entries) }
    ensures { by_number.new.entries ≡ map with_number (map (keep_numbered number) (values_of by_number.old.entries)) }
{
    if let Some(hold) = by_number.get_mut(&number) {
        hold.kept = true;
    }
}

fn restart_all(by_number: &mut BTreeMap<u64, Hold>, now: u64)
    requires { now + 600000 < 2 ^ 62 }
    ensures { by_number.new.entries ≡ map (λ e. (e.0, restart now e.1)) by_number.old.entries }
{
    by_number.retain(|_, hold| {
        restart(hold, now);
        true
    });
}

fn first_blocker(
    by_number: &BTreeMap<u64, Hold>,
    numbers: &[u64],
    key: &Key,
    now: u64,
) -> Option<Blocker>
    ensures { result ≡ fold (λ found n. after_hold key.now now (hold_at by_number.now.entries n) found) None numbers.now }
{
    let mut found = None;
    for number in numbers {
        found = named_after(by_number.get(number), found, key, now);
    }
    found
}
