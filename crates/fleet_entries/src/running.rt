//! The nodes and the run, and how the run gets the entries of the nodes.
ghost use Rattle.std.specs.Prelude.{◌≡◌, ◌+◌, ◌<◌, ◌≤◌, ◌^◌, ◌++◌, ℕ, drop, length, reverse, slice_get, take, Some, OnErr, OnOk};
ghost use Rattle.run_model.specs.Past.{now};
ghost use Rattle.driver_model.specs.Driver.{newest_count};
ghost use Rattle.driver_model.specs.Driving.{with_mark};
ghost use Rattle.fleet_model.specs.Nodes.{NodeView};
ghost use Rattle.fleet_model.specs.Stored.{store_view};
ghost use Rattle.fleet_model.specs.Turns.{IsWhole};
ghost use Rattle.fleet_entries.specs.AtDriver.{GoesOn, IsDriven, OnlyAddsEntries};
ghost use Rattle.fleet_entries.specs.Telling.{Raises, StandsWithin, Tells};

use annex_base::{Items, NoMemory};
use driver_model::drivers_stay_sound;
use entry_copies::entry_copy;
use fleet_model::{Nodes, fleets_do_lines};
use object_store::FailingKeeper;
use run_data::{Entry, Run};
use run_paths::PathIndex;
use std::alloc::Global;
use std::marker::Model;

/// The nodes, and the run so far: copies of the entries that they made, in order, and the paths that lines named. The paths of a key are
/// looked up in an index.
pub struct Running<K: FailingKeeper> {
    pub alloc: Global,
    pub nodes: Nodes<K>,
    pub run: Run,
    pub index: PathIndex,
}

impl<K: FailingKeeper> Model for Running<K> {
    ghost use Rattle.fleet_model.specs.Fleets.{FleetView};
    ghost use Rattle.fleet_entries.specs.Paths.{HasPaths};

    ghost Value = { FleetView K };

    ghost view = { λ f. record { nodes = f.nodes; run = f.run } };

    ghost invariant = { λ f. HasPaths f.run f.index };
}

/// Adds copies of the entries, or of some first ones.
fn add_copies(alloc: Global, entries: &mut Items<Entry>, made: &[Entry]) -> Result<(), NoMemory>
    ensures ok { OnOk result (entries.new ≡ entries.old ++ made.now) }
    ensures some { (count : ℕ) × (entries.new ≡ entries.old ++ take count made.now) }
{
    for entry in made {
        entries.push(entry_copy(alloc, entry)?)?;
    }
    Ok(())
}

impl<K: FailingKeeper> Running<K> {
    /// How many nodes there are, at most sixteen.
    pub fn count(&self) -> u32
        requires driven { IsDriven (λ k. store_view (K.contents k) (K.parts k) (K.failing k) (K.faults k)) self.now }
        ensures { result ≡ length self.now.nodes }
    {
        self.nodes.count() as u32
    }

    /// How many entries were made so far.
    pub fn made(&self) -> usize
        ensures { result ≡ length self.now.run.entries }
    {
        self.run.entries.as_slice().len()
    }

    /// The time of the script, in milliseconds: that of the newest entry.
    pub fn now(&self) -> u64
        ensures { result ≡ now (reverse self.now.run.entries) }
    {
        match self.run.entries.as_slice().last() {
            Some(entry) => entry.time,
            None => 0,
        }
    }

    /// The count of the newest entry, which is the greatest.
    pub fn newest_count(&self) -> u64
        ensures { result ≡ newest_count (reverse self.now.run.entries) }
    {
        match self.run.entries.as_slice().last() {
            Some(entry) => entry.count,
            None => 0,
        }
    }

    /// For the proof: what the node of this number has is the state that its history leaves.
    pub fn see(&self, repo: u32)
        requires there { repo < length self.now.nodes }
        ensures { (n : NodeView K) → slice_get self.now.nodes repo ≡ Some n → IsWhole (λ k. store_view (K.contents k) (K.parts k) (K.failing k) (K.faults k)) n }
    {
        let _ = self.nodes.node(repo as usize).history();
    }

    /// For the proof: the entries are few, since no node has made more than it may, and each line waits once at most.
    pub fn entries_are_few(&self)
        requires driven { IsDriven (λ k. store_view (K.contents k) (K.parts k) (K.failing k) (K.faults k)) self.now }
        ensures { length self.now.run.entries < 2 ^ 30 }
    {
        self.nodes.histories_are_few();
    }

    /// Raises a node's time to that of the script and its count to the newest, and tells how many entries it has.
    pub fn raise(&mut self, repo: u32) -> usize
        requires there { repo < length self.old.nodes }
        requires driven { IsDriven (λ k. store_view (K.contents k) (K.parts k) (K.failing k) (K.faults k)) self.old }
        ensures { Raises (λ k. store_view (K.contents k) (K.parts k) (K.failing k) (K.faults k)) repo result self.old self.new }
    {
        // For the proof: the count has room.
        self.entries_are_few();
        let time = self.now();
        let count = self.newest_count();
        self.nodes.advance(repo as usize, time, count);
        // For the proof: what the node has is the state that its history leaves.
        self.see(repo);
        self.nodes.node(repo as usize).history().len()
    }

    /// Adds copies of the entries that a node has made since it had so many, or of some first ones.
    pub fn tell(&mut self, repo: u32, had: usize) -> Result<(), NoMemory>
        requires there { repo < length self.old.nodes }
        requires had { (n : NodeView K) → slice_get self.old.nodes repo ≡ Some n → had ≤ length n.history }
        ensures ok { OnOk result (Tells (λ k. store_view (K.contents k) (K.parts k) (K.failing k) (K.faults k)) repo had self.old self.new) }
        ensures some { (n : NodeView K) → slice_get self.old.nodes repo ≡ Some n → (count : ℕ) × (self.new.run ≡ record self.old.run { entries = self.old.run.entries ++ take count (drop had n.history) }) }
        ensures node { (n : NodeView K) → slice_get self.old.nodes repo ≡ Some n → StandsWithin (λ k. store_view (K.contents k) (K.parts k) (K.failing k) (K.faults k)) n }
        ensures nodes { self.new.nodes ≡ self.old.nodes }
        ensures rest { OnlyAddsEntries self.old self.new }
    {
        // For the proof: what the node has is the state that its history leaves.
        self.see(repo);
        let (_, made) = self.nodes.node(repo as usize).history().split_at(had);
        add_copies(self.alloc, &mut self.run.entries, made)
    }

    /// Marks how many entries stand after a line.
    pub fn mark(&mut self) -> Result<(), NoMemory>
        requires driven { IsDriven (λ k. store_view (K.contents k) (K.parts k) (K.failing k) (K.faults k)) self.old }
        ensures ok { OnOk result (GoesOn (λ k. store_view (K.contents k) (K.parts k) (K.failing k) (K.faults k)) (λ g d. with_mark d) self.old self.new) }
        ensures err { OnErr result (self.new.run ≡ self.old.run) }
    {
        // Laws: with a mark the fleet goes on as the driver, which stays sound.
        fleets_do_lines::<K>();
        drivers_stay_sound();
        // For the proof: the place fits.
        self.entries_are_few();
        let place = self.made() as u32;
        self.run.marks.push(place)?;
        Ok(())
    }
}
