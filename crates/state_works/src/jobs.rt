//! The running jobs of one repository.
ghost use Rattle.std.specs.Prelude.{◌≡◌, ◌≤◌, ◌+◌, ◌^◌, ◌==◌, ℕ, find, map, IfOk, OnOk};
ghost use Rattle.std.specs.Option.{option_copied, option_map};
ghost use Rattle.node_model.specs.After.{first_state, state_after};
ghost use Rattle.node_model.specs.Around.{around};
ghost use Rattle.node_model.specs.SetUp.{SetUp};
ghost use Rattle.node_model.specs.State.{State};
ghost use Rattle.state_rows.specs.Rows.{AreRowsOf};
ghost use Rattle.state_jobs.specs.Around.{AreEndedBy};
ghost use Rattle.state_jobs.specs.Works.{work_of};
ghost use Rattle.state_works.specs.Jobs.{AreBelow, AreWorksOf, HasRoomForAll, IsChangeOf, StaySame, works_of};

use crate::listing::{begun_by, end, found, move_all, reserve_all, talk_of};
use annex_base::NoMemory;
use run_data::{Entry, EntryKind};
use state_ends::Ends;
use state_jobs::{Talk, Work};
use state_rows::Rows;
use std::alloc::Global;

/// The running jobs of one repository, the newest first (own).
#[derive(Drop)]
pub struct Jobs {
    alloc: Global,
    running: Vec<Work>,
}

/// What an entry adds to the jobs: the one that it begins, and the messages of its frames.
#[derive(Drop)]
pub struct JobChange {
    pub begun: Option<Work>,
    pub talk: Talk,
}

impl Jobs {
    /// No job runs.
    pub fn new(alloc: Global) -> Jobs
        ensures works { (s : SetUp) → AreWorksOf result (first_state s) }
        ensures below { AreBelow 1 result }
    {
        Jobs {
            alloc,
            running: Vec::new(alloc),
        }
    }

    /// The running jobs, the newest first.
    pub fn running(&self) -> &[Work]
        ensures { map work_of result.now ≡ works_of self.now }
    {
        &self.running
    }

    /// The running job of this number; the newest, where several have it.
    pub fn job(&self, number: u32) -> Option<&Work>
        ensures { option_map work_of (option_copied result) ≡ find (λ w. w.number == number) (works_of self.now) }
    {
        found(&self.running, number)
    }

    /// What an entry will add, and room for it and for what each job hears by it. The jobs stay.
    pub fn ready(&mut self, entry: &Entry) -> Result<JobChange, NoMemory>
        ensures change { IfOk result (IsChangeOf (works_of self.old) entry.now) }
        ensures room { OnOk result (HasRoomForAll self.new) }
        ensures same { StaySame self.old self.new }
    {
        reserve_all(&mut self.running)?;
        self.running.reserve(1)?;
        let begun = begun_by(self.alloc, &self.running, &entry.kind)?;
        let talk = talk_of(self.alloc, entry)?;
        Ok(JobChange { begun, talk })
    }

    /// Takes note of an entry, by the rows before it and the ends after it. It takes no memory, and looks at each running job.
    pub fn note(&mut self, repo: u32, rows: &Rows, ends: &Ends, entry: &Entry, change: JobChange)
        requires room { HasRoomForAll self.old }
        requires change { IsChangeOf (works_of self.old) entry.now change }
        requires below { AreBelow (2 ^ 127) self.old }
        ensures works { (s : SetUp) (st : State) → s.number ≡ repo → AreRowsOf rows.now st → AreEndedBy (around s st) entry.now ends.now
            → AreWorksOf self.old st → AreWorksOf self.new (state_after s st entry.now) }
        ensures below { (limit : ℕ) → 2 ^ 64 ≤ limit → AreBelow limit self.old → AreBelow (limit + 2 ^ 64) self.new }
    {
        let JobChange { begun, talk } = change;
        match &entry.kind {
            EntryKind::Begin { .. } => self.running.insert(0, begun.unwrap()).unwrap(),
            EntryKind::End { job, .. } => end(&mut self.running, *job),
            EntryKind::Crash { .. } => self.running.clear(),
            _ => move_all(&mut self.running, repo, rows, ends, &talk, entry),
        }
    }
}
