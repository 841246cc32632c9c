//! The running jobs: which begin, and which has the next step.
ghost use Rattle.std.specs.Prelude.{◌≡◌, ◌==◌, ℕ, All, Bool, is_some, ◌≤◌, ◌<◌, ◌+◌, ◌-◌, ◌*◌, ◌^◌, List, [], None, find, length, map, IfOk, IsErrOf, OnErr, OnOk};
ghost use Rattle.std.specs.Option.{ForSome, option_map};
ghost use Rattle.annex_base.specs.Lists.{Each};
ghost use Rattle.annex_base.specs.Settings.{Settings as SettingsView};
ghost use Rattle.run_data.specs.declared.entry.Entry.{Entry};
ghost use Rattle.run_data.specs.declared.entry.EntryKind.TheVariants as kinds;
ghost use Rattle.trust_groups.specs.View.{settings_of};
ghost use Rattle.node_model.specs.Look.{Look, Effect};
ghost use Rattle.node_model.specs.Rows.{holds_after};
ghost use Rattle.node_model.specs.SetUp.{SetUp};
ghost use Rattle.node_model.specs.State.{State};
ghost use Rattle.node_model.specs.Turns.{job_step};
ghost use Rattle.object_store.specs.Stores.{Contents, Parts};
ghost use Rattle.content_lock.specs.CallsMade.{MakesCalls};
ghost use Rattle.content_lock.specs.Rows.{Rows};
ghost use Rattle.content_lock.specs.Stored.{Agrees, label_of};
ghost use Rattle.drop_phases.specs.Sides.{IsNumbered};
ghost use Rattle.transfer_turns.specs.Steps.{seen};
ghost use Rattle.node_tasks.specs.States.{HaveState};
ghost use Rattle.node_tasks.specs.Tasks.{IsTask, number_of, slot_of};
ghost use Rattle.running_jobs.specs.Acting.{SeesActed, SeesJobs, StepsJobs, failed_by};
ghost use Rattle.running_jobs.specs.Beginning.{Begins, MayBegin};
ghost use Rattle.running_jobs.specs.Leaving.{LeavesSo, Stays};
ghost use Rattle.running_jobs.specs.Running.{AreAllFed, AreFilled, AreWorks, Follows, OwnAll};

use crate::acted::Acted;
use crate::finding::find_ready;
use crate::listing::{add, end_all, find_slot, in_slot};
use crate::refused::BeginRefused;
use crate::starting::new_task;
use crate::turning::turn;
use annex_base::{Items, NoMemory, Text};
use content_lock::LockTable;
use node_ends::Ends;
use node_tasks::{Clock, Place, Task, Time, holds_are_numbered};
use object_store::Keeper;
use run_data::Job;
use std::alloc::Global;
use std::marker::Model;
use trust_groups::Settings;

/// The running jobs of a repository, at most four, each in a slot of its own (own). They have tokens to spend and rights to give
/// back, so they are ended and never dropped.
pub struct Jobs {
    place: Place,
    running: Vec<Task>,
    begun: u32,
}

impl Model for Jobs {
    ghost use Rattle.running_jobs.specs.Running.{Jobs};

    ghost Value = { Jobs };

    ghost view = { λ j. record { place = j.place; running = j.running.items; begun = j.begun } };
}

impl Jobs {
    /// No job.
    pub fn new(alloc: Global, place: Place) -> Jobs
        ensures { result ≡ record { place = place; running = []; begun = 0 } }
    {
        Jobs {
            place,
            running: Vec::new(alloc),
            begun: 0,
        }
    }

    /// The number of its repository.
    pub fn number(&self) -> u32
        ensures { result ≡ self.now.place.number }
    {
        self.place.number()
    }

    /// How many repositories there are.
    pub fn repositories(&self) -> u32
        ensures { result ≡ length self.now.place.ids }
    {
        self.place.count()
    }

    /// How many jobs were begun.
    pub fn begun(&self) -> u32
        ensures { result ≡ self.now.begun }
    {
        self.begun
    }

    /// How many jobs run.
    pub fn running(&self) -> usize
        ensures { result ≡ length self.now.running }
    {
        self.running.len()
    }

    /// The number of the job in this slot, if one runs there.
    pub fn in_slot(&self, slot: u32) -> Option<u32>
        ensures { result ≡ option_map number_of (find (λ t. slot_of t == slot) self.now.running) }
    {
        in_slot(&self.running, slot)
    }

    /// Begins a job on a key that has these paths in the tree, and gives its number. It makes no step yet.
    pub fn begin(
        &mut self,
        alloc: Global,
        what: Job,
        paths: Items<Text>,
    ) -> Result<u32, BeginRefused>
        requires may { MayBegin self.old.place what.kind what.peer }
        requires few { self.old.begun < 2 ^ 32 - 1 }
        ensures number { IfOk result (λ n. n ≡ self.old.begun + 1) }
        ensures begins { OnOk result (Begins self.old what paths self.new) }
        ensures free { OnOk result (length self.old.running < 4) }
        ensures full { IsErrOf result BeginRefused.NoSlot → 4 ≤ length self.old.running }
        ensures short { IsErrOf result BeginRefused.NoMemory → length self.old.running < 4 }
        ensures err { OnErr result (self.new ≡ self.old) }

        // The new list is that of each state that follows by its entry.
        ensures works { OnOk result ((rows : Rows) (s : SetUp) (st : State) (e : Entry) (st' : State) → OwnAll self.old rows → AreWorks s st self.old → e.kind ≡ kinds.Begin (self.old.begun + 1) what → Follows s st e st' → AreWorks s st' self.new) }
        ensures owns { OnOk result ((rows : Rows) → OwnAll self.old rows → OwnAll self.new rows) }
        ensures filled { OnOk result ((rows : Rows) (others : List ℕ → Bool) → AreFilled rows self.old.running others → AreFilled rows self.new.running others) }
        ensures fed { OnOk result ((q : Parts) → AreAllFed q self.old.running → AreAllFed q self.new.running) }
    {
        let slot = find_slot(&mut self.running)?;
        let number = self.begun + 1;
        let task = new_task(alloc, number, slot, what, paths);
        add(&mut self.running, task);
        self.begun = number;
        Ok(number)
    }

    /// Whether a job has a step; nothing changes.
    pub fn is_ready(
        &self,
        alloc: Global,
        clock: Clock,
        ends: &mut Ends,
        time: Time,
    ) -> Result<bool, NoMemory>
        requires tasks { Each (IsTask self.now.place) self.now.running }
        requires count { length ends.old ≡ length self.now.place.ids * 8 }
        ensures ready { IfOk result (λ b. (settings : SettingsView) (number : ℕ) (rows : Rows) (c : Contents) (s : SetUp) (st : State) (k : Look) → SeesJobs ends.old clock settings self.now number time s st k → HaveState rows c s st
            → is_some (job_step s st k) ≡ b) }
        ensures ends { ends.new ≡ ends.old }
    {
        let found = find_ready(&self.running, alloc, &self.place, clock, ends, time)?;
        Ok(found.is_some())
    }

    /// The step of the first job, in order of slot, that has one. A frame that it takes must be taken from its end, what it sends
    /// must be sent, and the line that it owes must be noted. A job that ends is off the list, and what it had of the table is given
    /// back.
    pub fn step<K: Keeper>(
        &mut self,
        alloc: Global,
        clock: Clock,
        settings: &Settings,
        ends: &mut Ends,
        table: &mut LockTable,
        keeper: &mut K,
        time: Time,
        number: u64,
    ) -> Result<Option<Acted>, NoMemory>
        requires owns { OwnAll self.old table.old }
        requires count { length ends.old ≡ length self.old.place.ids * 8 }
        requires agrees { Agrees (K.records keeper.old) table.old.holds }
        requires fresh { All (λ h. h.number < number) table.old.holds }

        // Of each state that these are, at a look at which the entry's call fails, and that finds the part that the job asks for: the
        // jobs' step is this one.
        ensures step { IfOk result (λ a. ForSome (K.contents keeper.old) (λ c. (s : SetUp) (st : State) (k : Look) → SeesJobs ends.old clock (settings_of settings.now) self.old number time s st k → HaveState table.old c s st → SeesActed (K.parts keeper.old) ends.old self.old k a
            → StepsJobs s st k ends.old self.old self.new a)) }

        // It makes the calls of its store that that step makes, and where one was to fail, it tells that call.
        ensures calls { IfOk result (λ a. ForSome (K.contents keeper.old) (λ c. (s : SetUp) (st : State) (k : Look) → SeesJobs ends.old clock (settings_of settings.now) self.old number time s st k → HaveState table.old c s st → SeesActed (K.parts keeper.old) ends.old self.old k a
            → ForSome (job_step s st k) (λ (m : Effect). MakesCalls m.calls (failed_by a) (K.failing keeper.old) (K.failing keeper.new)))) }
        ensures leaves { IfOk result (LeavesSo ends.old self.old self.new table.old table.new
            (seen (K.contents keeper.old) (K.parts keeper.old) (K.records keeper.old) (K.files keeper.old) (K.faults keeper.old) (K.failing keeper.old))
            (seen (K.contents keeper.new) (K.parts keeper.new) (K.records keeper.new) (K.files keeper.new) (K.faults keeper.new) (K.failing keeper.new))) }
        ensures owns { OwnAll self.new table.new }
        ensures err { OnErr result (Stays self.old self.new table.old table.new
            (seen (K.contents keeper.old) (K.parts keeper.old) (K.records keeper.old) (K.files keeper.old) (K.faults keeper.old) (K.failing keeper.old))
            (seen (K.contents keeper.new) (K.parts keeper.new) (K.records keeper.new) (K.files keeper.new) (K.faults keeper.new) (K.failing keeper.new))) }
        ensures agrees { Agrees (K.records keeper.new) table.new.holds }
        ensures numbered { IfOk result (λ a. ForSome a (λ x. IsNumbered number x.kind)) }
        ensures numbers { IfOk result (λ a. All (λ h. h.number < number + 1) table.new.holds) }
        ensures ends { ends.new ≡ ends.old }
        ensures unasked { IfOk result (λ a. a ≡ None → keeper.new ≡ keeper.old) }
    {
        // A law, for the proof: a hold has the number of the entry that added it.
        holds_are_numbered();
        let Some(found) = find_ready(&self.running, alloc, &self.place, clock, ends, time)? else {
            return Ok(None);
        };
        let acted = turn(
            &mut self.running,
            alloc,
            &self.place,
            clock,
            settings,
            ends,
            table,
            keeper,
            found,
            time,
            number,
        )?;
        Ok(Some(acted))
    }

    /// Ends all jobs, at a crash or before the jobs are dissolved: what they have of the table is given up. A hold of their own is kept
    /// until its end.
    pub fn end_all(&mut self, table: &mut LockTable)
        requires owns { OwnAll self.old table.old }
        ensures jobs { self.new ≡ record self.old { running = [] } }
        ensures owns { OwnAll self.new table.new }
        ensures labels { map label_of table.new.holds ≡ map label_of table.old.holds }
        ensures crash { (clock : ℕ) → holds_after table.new.holds (kinds.Crash clock) ≡ holds_after table.old.holds (kinds.Crash clock) }
        ensures filled { (others : List ℕ → Bool) → AreFilled table.old self.old.running others → AreFilled table.new [] others }
    {
        end_all(&mut self.running, table);
    }

    /// Takes the jobs apart, none of which runs.
    pub fn dissolve(self)
        requires { self.running ≡ [] }
    {
        let Jobs {
            place: _,
            running,
            begun: _,
        } = self;
        running.destroy_empty();
    }
}
