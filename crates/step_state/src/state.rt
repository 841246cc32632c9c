//! The state of one running repository.
ghost use Rattle.std.specs.Prelude.{◌≡◌, ◌<◌, ◌≤◌, ◌+◌, ◌^◌, length, IfOk, OnErr, OnOk};

use crate::counts::Counts;
use crate::links::Links;
use crate::place::Place;
use crate::working::{Working, WorkingChange};
use annex_base::{NoMemory, Text};
use run_data::{Entry, RepoView};
use state_ends::Ends;
use state_files::Files;
use state_jobs::Work;
use state_owed::Owed;
use state_reads::{Kept, KnownLogs, Reads, read_settings};
use state_rows::{RowChange, Rows};
use state_sessions::{Heard, Sessions};
use state_works::Jobs;
use std::alloc::Global;
use trust_groups::Settings;

/// The state of one running repository of a run: all that its next steps read (own).
#[derive(Drop)]
pub struct RepoState {
    place: Place,
    counts: Counts,
    rows: Rows,
    links: Links,
    working: Working,
    files: Files,
}

/// What an entry changes of it, but for the log files.
#[derive(Drop)]
pub struct StateChange {
    pub rows: RowChange,
    pub heard: Option<Heard>,
    pub working: WorkingChange,
}

impl RepoState {
    ghost use Rattle.node_model.specs.After.{first_state, state_after};
    ghost use Rattle.node_model.specs.SetUp.{SetUp};
    ghost use Rattle.node_model.specs.State.{State};
    ghost use Rattle.run_data.specs.Repos.{offset_of};
    ghost use Rattle.state_ends.specs.Ends.{AreEndsOf};
    ghost use Rattle.state_files.specs.Changes.{LogsLines};
    ghost use Rattle.state_files.specs.Files.{AreFilesOf};
    ghost use Rattle.state_jobs.specs.Works.{work_of};
    ghost use Rattle.state_owed.specs.Owed.{AreOwedOf, AreWithin};
    ghost use Rattle.state_reads.specs.Known.{AreLogsRead};
    ghost use Rattle.state_reads.specs.Reads.{HadPaths, HaveReadAs};
    ghost use Rattle.state_rows.specs.Changes.{SetsClock};
    ghost use Rattle.state_rows.specs.Rows.{AreRowsOf};
    ghost use Rattle.state_sessions.specs.Sessions.{AreSessionsOf};
    ghost use Rattle.state_works.specs.Jobs.{AreWorksOf};
    ghost use Rattle.step_state.specs.Changes.{IsSoFor};
    ghost use Rattle.step_state.specs.Peers.{HasPeersIn};
    ghost use Rattle.step_state.specs.States.{ArePartsOf, HasRoom, IsChangeOf, IsReadyFor, IsStateOf, IsWell, StaysSame, clock_of, count_of, made_of};

    /// The state of the repository of this number among these before its first entry.
    pub fn start(alloc: Global, repos: &[RepoView], number: u32) -> Result<RepoState, NoMemory>
        requires within { number < length repos.now }
        requires near { offset_of repos.now number ≤ 100000000000 }
        ensures state { IfOk result (λ x. (s : SetUp) → s.repos ≡ repos.now → s.number ≡ number → IsStateOf x s (first_state s)) }
        ensures made { IfOk result (λ x. made_of x ≡ 0) }
        ensures repos { IfOk result (λ x. count_of x ≡ length repos.now) }
        ensures well { IfOk result IsWell }
    {
        let place = Place::new(alloc, repos, number)?;
        let counts = Counts::new(place.offset());
        Ok(RepoState {
            counts,
            rows: Rows::new(alloc),
            links: Links::new(alloc),
            working: Working::new(alloc),
            files: Files::new(alloc),
            place,
        })
    }

    /// Takes note of an entry, where the key of its job, if it is one of a job, had these paths in the tree as the job began. Without
    /// memory it stays the state that it was.
    pub fn after(&mut self, paths: &[Text], entry: &Entry) -> Result<(), NoMemory>
        requires sent { length entry.now.sent + 1 < 2 ^ 64 }
        requires lines { LogsLines entry.now.kind entry.now.lines }
        requires clock { SetsClock entry.now.kind }
        requires time { entry.now.time ≤ 1000000000000 }
        requires peers { HasPeersIn (count_of self.old) entry.now }
        requires few { made_of self.old + 1 < 2 ^ 56 }
        requires well { IsWell self.old }
        ensures ok { OnOk result ((s : SetUp) (st : State) → HadPaths s entry.now.kind paths.now → IsStateOf self.old s st → IsStateOf self.new s (state_after s st entry.now)) }
        ensures err { OnErr result ((s : SetUp) (st : State) → IsStateOf self.old s st → IsStateOf self.new s st) }
        ensures made { OnOk result (made_of self.new ≡ made_of self.old + 1) }
        ensures err_made { OnErr result (made_of self.new ≡ made_of self.old) }
        ensures repos { count_of self.new ≡ count_of self.old }
        ensures well { IsWell self.new }
    {
        let change = self.ready(paths, entry)?;
        self.files.note(entry)?;
        self.note(entry, change);
        Ok(())
    }

    /// Its place among the repositories, from 0.
    pub fn number(&self) -> u32
        ensures { (s : SetUp) (st : State) → IsStateOf self.now s st → s.number ≡ result }
    {
        self.place.number()
    }

    /// What its clock says at a time of the script, in milliseconds.
    pub fn clock(&self, time: u64) -> u128
        ensures value { (s : SetUp) (st : State) → IsStateOf self.now s st → st.clock time ≡ result }
        ensures small { result < 2 ^ 65 }
        ensures data { result ≡ clock_of self.now time }
    {
        self.counts.clock(time)
    }

    /// What its wall clock, which makes stamps, says at a time of the script, in milliseconds.
    pub fn wall(&self, time: u64) -> u64
        requires { time ≤ 1000000000000 }
        ensures value { (s : SetUp) (st : State) → IsStateOf self.now s st → st.wall time ≡ result }
        ensures small { result ≤ 1100000000000 }
    {
        self.place.wall(time)
    }

    /// How many entries it has made.
    pub fn made(&self) -> u64
        ensures { result ≡ made_of self.now }
    {
        self.counts.made()
    }

    /// How many jobs it has begun.
    pub fn begun(&self) -> u64
        ensures { (s : SetUp) (st : State) → IsStateOf self.now s st → st.begun ≡ result }
    {
        self.counts.begun()
    }

    pub fn rows(&self) -> &Rows
        ensures { (s : SetUp) (st : State) → IsStateOf self.now s st → AreRowsOf result.now st }
    {
        &self.rows
    }

    pub fn ends(&self) -> &Ends
        ensures { (s : SetUp) (st : State) → IsStateOf self.now s st → AreEndsOf result.now st }
    {
        &self.links.ends
    }

    pub fn sessions(&self) -> &Sessions
        ensures { (s : SetUp) (st : State) → IsStateOf self.now s st → AreSessionsOf result.now st }
    {
        &self.links.sessions
    }

    pub fn jobs(&self) -> &Jobs
        ensures { (s : SetUp) (st : State) → IsStateOf self.now s st → AreWorksOf result.now st }
    {
        &self.working.jobs
    }

    /// What its drops have read.
    pub fn reads(&self) -> &Reads
        ensures { (s : SetUp) (st : State) → IsStateOf self.now s st → HaveReadAs s result.now st }
    {
        &self.working.reads
    }

    /// What the drop of a job would read of the log files as they are, where its key has these paths. All of them are read.
    pub fn logs_now(
        &self,
        alloc: Global,
        paths: &[Text],
        work: &Work,
    ) -> Result<KnownLogs, NoMemory>
        ensures { IfOk result (λ known. (s : SetUp) (st : State) → IsStateOf self.now s st → s.paths work.now.number ≡ paths.now → AreLogsRead st.logs s (work_of work.now) known) }
    {
        let logs = Settings::read(alloc, self.files.branch())?;
        let number = self.place.number();
        let ids = self.place.ids();
        let Kept { job: _, known } = read_settings(alloc, number, ids, paths, work, &logs)?;
        Ok(known)
    }

    /// The lines that it owes its branch.
    pub fn owed(&self) -> &Owed
        ensures owed { (s : SetUp) (st : State) → IsStateOf self.now s st → AreOwedOf result.now st }
        ensures within { IsWell self.now → AreWithin (count_of self.now) result.now }
    {
        &self.working.owed
    }

    pub fn files(&self) -> &Files
        ensures { (s : SetUp) (st : State) → IsStateOf self.now s st → AreFilesOf result.now st }
    {
        &self.files
    }

    fn ready(&mut self, paths: &[Text], entry: &Entry) -> Result<StateChange, NoMemory>
        requires sent { length entry.now.sent + 1 < 2 ^ 64 }
        requires time { entry.now.time ≤ 1000000000000 }
        requires well { IsWell self.old }
        ensures change { IfOk result (IsReadyFor self.old paths.now entry.now) }
        ensures room { OnOk result (HasRoom (length entry.now.sent) self.new) }
        ensures same { StaysSame self.old self.new }
        ensures well { IsWell self.new }
    {
        let rows = self.rows.ready(&entry.kind)?;
        let heard = self.links.ready(&self.rows, entry)?;
        let working = self
            .working
            .ready(&self.place, &mut self.files, paths, entry)?;
        Ok(StateChange {
            rows,
            heard,
            working,
        })
    }

    /// Takes note of an entry, by what was made ready for it, but for the log files.
    fn note(&mut self, entry: &Entry, change: StateChange)
        requires sent { length entry.now.sent + 1 < 2 ^ 64 }
        requires clock { SetsClock entry.now.kind }
        requires peers { HasPeersIn (count_of self.old) entry.now }
        requires few { made_of self.old + 1 < 2 ^ 56 }
        requires room { HasRoom (length entry.now.sent) self.old }
        requires change { IsChangeOf self.old entry.now change }
        requires well { IsWell self.old }
        ensures parts { (s : SetUp) (st : State) → IsSoFor s st entry.now change.working → ArePartsOf self.old s st → ArePartsOf self.new s (state_after s st entry.now) }
        ensures files { self.new.files ≡ self.old.files }
        ensures made { made_of self.new ≡ made_of self.old + 1 }
        ensures repos { count_of self.new ≡ count_of self.old }
        ensures well { IsWell self.new }
    {
        let StateChange {
            rows,
            heard,
            working,
        } = change;
        self.links.note(entry, heard);
        self.working
            .note(&self.place, &self.rows, &self.links.ends, entry, working);
        self.rows.note(entry, rows);
        self.counts.note(entry);
    }
}
