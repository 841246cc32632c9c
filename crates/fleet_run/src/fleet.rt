//! A fleet, and the run so far.
ghost use Rattle.std.specs.Prelude.{◌≡◌, ◌+◌, ◌<◌, ◌≤◌, ℕ, All, [], length, map, Err, IfOk, OnErr, OnOk};
ghost use Rattle.run_data.specs.declared.run.RepoView.{RepoView};
ghost use Rattle.object_store.specs.declared.memory.MemoryKeeper.{MemoryKeeper};
ghost use Rattle.fleet_entries.specs.Stored.{HasNothing, store_view};
ghost use Rattle.fleet_entries.specs.Joined.{MayRun};
ghost use Rattle.driver_model.specs.Driver.{DriverInput, at_first};
ghost use Rattle.driver_script.specs.Lines.{repos_of};
ghost use Rattle.fleet_entries.specs.Matches.{DecidesMatches};
ghost use Rattle.fleet_entries.specs.Stores.{IsStoreOf};
ghost use Rattle.fleet_run.specs.Commands.{CutsAt, MayBeDone, MeetsNone, does_and_marks, does_command};
ghost use Rattle.fleet_entries.specs.AtDriver.{GoesOn, IsAtDriver, IsDrivenWithin, OnlyAddsBehind, StopsWithin, most_lines};

use crate::declaring::{memory_keepers, repositories};
use crate::lines::do_and_mark;
use annex_base::{Items, NoMemory};
use driver_model::drivers_stay_sound;
use driver_script::bytes_are_matched;
use fleet_entries::{FleetStop, Nodes, Running, fleets_begin};
use object_store::{FailingKeeper, Keeper, MemoryKeeper};
use run_data::{RepoView, Run};
use run_paths::PathIndex;
use script_lang::{Command, Script};
use std::alloc::Global;
use std::marker::Model;
use std::thread::Threads;

/// The repositories of a script as nodes, and the run so far: copies of the entries that they made, in order (own). Before the first
/// line, and after each line that was done, it has come to where the driver of scripts is. After a refusal the fleet does no further
/// line: its run may lack entries that a node made. It has at most sixteen repositories. It has tokens to spend, so it is finished and
/// never dropped.
pub struct Fleet<K: FailingKeeper> {
    running: Running<K>,
}

impl<K: FailingKeeper> Model for Fleet<K> {
    ghost use Rattle.fleet_entries.specs.Fleets.{FleetView};

    ghost Value = { FleetView K };

    ghost view = { λ f. f.running };
}

/// The run before the first line.
fn empty_run(alloc: Global, repos: Items<RepoView>) -> Run
    ensures { result ≡ record { repos = repos; entries = []; tree = []; marks = [] } }
{
    Run {
        repos,
        entries: Items::new(alloc),
        tree: Items::new(alloc),
        marks: Items::new(alloc),
    }
}

impl Fleet<MemoryKeeper> {
    /// The repositories that the script declares, at most sixteen, before its first line, each over a store in memory.
    pub fn new(alloc: Global, script: &Script) -> Result<Fleet<MemoryKeeper>, NoMemory>
        requires run { MayRun (repos_of script.now) }
        requires repos { length (repos_of script.now) ≤ 16 }
        ensures stands { IfOk result (λ f. (g : DriverInput) → g.repos ≡ repos_of script.now → DecidesMatches g → IsAtDriver (λ k. store_view (⟦<MemoryKeeper as Keeper>⟧.contents k) (⟦<MemoryKeeper as Keeper>⟧.parts k) (⟦<MemoryKeeper as Keeper>⟧.failing k) (⟦<MemoryKeeper as Keeper>⟧.faults k)) g at_first f) }
        ensures driven { IfOk result (λ f. IsDrivenWithin (λ k. store_view (⟦<MemoryKeeper as Keeper>⟧.contents k) (⟦<MemoryKeeper as Keeper>⟧.parts k) (⟦<MemoryKeeper as Keeper>⟧.failing k) (⟦<MemoryKeeper as Keeper>⟧.faults k)) (length f.run.marks) f) }
        ensures nodes { IfOk result (λ f. length f.nodes ≡ length (repos_of script.now)) }
        ensures empty { IfOk result (λ f. f.run ≡ record { repos = repos_of script.now; entries = []; tree = []; marks = [] }) }
    {
        let repos = repositories(alloc, script.lines())?;
        let keepers = memory_keepers(alloc, repos.as_slice().len())?;
        Fleet::over(alloc, repos, keepers)
    }
}

impl<K: FailingKeeper> Fleet<K> {
    /// The repositories that the script declares, at most sixteen, before its first line, each over the keeper at its place, which has
    /// nothing, tells this, and of which no call is to fail.
    pub fn with_keepers(
        alloc: Global,
        script: &Script,
        keepers: Vec<K>,
    ) -> Result<Fleet<K>, NoMemory>
        requires run { MayRun (repos_of script.now) }
        requires repos { length (repos_of script.now) ≤ 16 }
        requires count { length keepers.items ≡ length (repos_of script.now) }
        requires empty { All (λ k. HasNothing (K.contents k) (K.parts k) (K.records k) (K.files k)) keepers.items }
        requires tells { All (λ k. IsStoreOf at_first 0 (store_view (K.contents k) (K.parts k) (K.failing k) (K.faults k))) keepers.items }
        ensures stands { IfOk result (λ f. (g : DriverInput) → g.repos ≡ repos_of script.now → DecidesMatches g → IsAtDriver (λ k. store_view (K.contents k) (K.parts k) (K.failing k) (K.faults k)) g at_first f) }
        ensures driven { IfOk result (λ f. IsDrivenWithin (λ k. store_view (K.contents k) (K.parts k) (K.failing k) (K.faults k)) (length f.run.marks) f) }
        ensures nodes { IfOk result (λ f. length f.nodes ≡ length (repos_of script.now)) }
        ensures empty { IfOk result (λ f. f.run ≡ record { repos = repos_of script.now; entries = []; tree = []; marks = [] }) }
    {
        let repos = repositories(alloc, script.lines())?;
        Fleet::over(alloc, repos, keepers)
    }

    /// These repositories before the first line, each over the keeper at its place.
    fn over(alloc: Global, repos: Items<RepoView>, keepers: Vec<K>) -> Result<Fleet<K>, NoMemory>
        requires run { MayRun repos }
        requires repos { length repos ≤ 16 }
        requires count { length keepers.items ≡ length repos }
        requires empty { All (λ k. HasNothing (K.contents k) (K.parts k) (K.records k) (K.files k)) keepers.items }
        requires tells { All (λ k. IsStoreOf at_first 0 (store_view (K.contents k) (K.parts k) (K.failing k) (K.faults k))) keepers.items }
        ensures stands { IfOk result (λ f. (g : DriverInput) → g.repos ≡ repos → DecidesMatches g → IsAtDriver (λ k. store_view (K.contents k) (K.parts k) (K.failing k) (K.faults k)) g at_first f) }
        ensures driven { IfOk result (λ f. IsDrivenWithin (λ k. store_view (K.contents k) (K.parts k) (K.failing k) (K.faults k)) (length f.run.marks) f) }
        ensures nodes { IfOk result (λ f. length f.nodes ≡ length repos) }
        ensures empty { IfOk result (λ f. f.run ≡ record { repos = repos; entries = []; tree = []; marks = [] }) }
    {
        // Laws: new nodes are where the driver is at first, it is sound there, and is given what decides matches.
        fleets_begin::<K>();
        drivers_stay_sound();
        bytes_are_matched();
        let index = PathIndex::new(alloc)?;
        let nodes = Nodes::new(alloc, repos.as_slice(), keepers)?;
        let running = Running {
            alloc,
            nodes,
            run: empty_run(alloc, repos),
            index,
        };
        Ok(Fleet { running })
    }

    /// Does what the line says, and marks how many entries stand after it; threads make the plans of a sync. It is refused as Full where
    /// the line meets a full history, or is a close for which too few places are left.
    /// After a refusal the run has the entries that it had, and then a start of those that the line makes; so it is a run still. Its
    /// repositories and marks are as they were, and its tree but for a path that the line named. After a refusal the fleet does no further
    /// line: its run may lack entries that a node made. So a line is done only where the fleet has come to where some driver is, as it has
    /// before the first line and after each line that was done. A fleet does at most 2^28 lines, so that its run has fewer than 2^30
    /// entries: of each repository at most 100,000, and of each line at most one wait.
    pub fn line<R: Threads + Sync>(&mut self, rt: &R, command: &Command) -> Result<(), FleetStop>
        requires may { MayBeDone self.old command.now }
        requires few { length self.old.run.marks < most_lines }
        requires driven { IsDrivenWithin (λ k. store_view (K.contents k) (K.parts k) (K.failing k) (K.faults k)) (length self.old.run.marks) self.old }
        ensures ok { OnOk result (GoesOn (λ k. store_view (K.contents k) (K.parts k) (K.failing k) (K.faults k)) (does_and_marks command.now) self.old self.new) }
        ensures driven { OnOk result (IsDrivenWithin (λ k. store_view (K.contents k) (K.parts k) (K.failing k) (K.faults k)) (length self.new.run.marks) self.new) }
        ensures marks { OnOk result (length self.new.run.marks ≡ length self.old.run.marks + 1) }
        ensures within { OnOk result (MeetsNone (λ k. store_view (K.contents k) (K.parts k) (K.failing k) (K.faults k)) command.now self.old) }
        ensures full { (r : ℕ) → result ≡ Err (FleetStop.Full r) → CutsAt (λ k. store_view (K.contents k) (K.parts k) (K.failing k) (K.faults k)) r command.now self.old self.new }
        ensures stopped { OnErr result (StopsWithin (λ k. store_view (K.contents k) (K.parts k) (K.failing k) (K.faults k)) (does_command command.now) self.old self.new) }
        ensures kept { OnErr result (OnlyAddsBehind self.old self.new) }
    {
        do_and_mark(rt, &mut self.running, command)
    }

    /// The run of the lines so far.
    pub fn run(&self) -> &Run
        ensures { result.now ≡ self.now.run }
    {
        &self.running.run
    }

    /// The run of the lines so far. The nodes are spent.
    pub fn finish(self) -> Run
        ensures { result ≡ self.run }
    {
        let Fleet { running } = self;
        let Running {
            alloc: _,
            nodes,
            run,
            index: _,
        } = running;
        nodes.dissolve();
        run
    }
}
