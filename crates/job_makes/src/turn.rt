//! What the step of a job reads.
ghost use Rattle.std.specs.Prelude.{◌≡◌, ◌<◌, ◌+◌, ◌^◌, ◌==◌, find, length, option_map, reverse};
ghost use Rattle.node_model.specs.Jobs.{drop_side, or_own};
ghost use Rattle.step_state.specs.States.{made_of};

use crate::words::word_in;
use annex_base::Word;
use annex_key::Key;
use drop_proof::Side;
use run_data::{By, Entry, Job, JobKind, RepoView};
use state_ends::{Connection, Ends};
use state_jobs::{Heard, Work};
use state_rows::Rows;
use state_works::Jobs;
use step_effects::EndAt;
use step_state::RepoState;

/// What the step of a job reads: all repositories of the run, in order of number; the state of its own, and the parts of that; the
/// job; the words beside what each repository answered it, in order of number; and the entry that tells of the step (own).
#[derive(Drop)]
pub struct Turn<'a> {
    pub repos: &'a [RepoView],
    pub state: &'a RepoState,
    pub repo: u32,
    pub rows: &'a Rows,
    pub ends: &'a Ends,
    pub jobs: &'a Jobs,
    pub work: &'a Work,
    pub words: &'a [Option<Word>],
    pub told: &'a Entry,
    ghost many: { length repos.now < 2 ^ 32 },
    ghost few: { made_of state.now + 1 < 2 ^ 56 },
}

impl<'a> Turn<'a> {
    ghost use Rattle.node_model.specs.Jobs as jobs;
    ghost use Rattle.node_model.specs.Jobs.{job_end, side_of, target_of};
    ghost use Rattle.node_model.specs.JobStep.{bar_there, by_me, end_with, is_there, key_of};
    ghost use Rattle.node_model.specs.SetUp.{SetUp};
    ghost use Rattle.node_model.specs.State.{State};
    ghost use Rattle.state_ends.specs.Ends.{end_of};
    ghost use Rattle.state_jobs.specs.Phases.{heard_of};
    ghost use Rattle.state_jobs.specs.Works.{work_of};
    ghost use Rattle.step_effects.specs.Sendings.{name_of};
    ghost use Rattle.step_state.specs.States.{IsStateOf, clock_of};
    ghost use Rattle.job_makes.specs.Turns.{IsGiven, set_up_in, state_in, turn_in, word_in};

    /// The turn of a job of the repository that has this state, where these words stand beside the answers that it took.
    pub fn new(
        repos: &'a [RepoView],
        state: &'a RepoState,
        work: &'a Work,
        words: &'a [Option<Word>],
        told: &'a Entry,
    ) -> Turn<'a>
        requires many { length repos.now < 2 ^ 32 }
        requires few { made_of state.now + 1 < 2 ^ 56 }
        ensures set_up { (s : SetUp) (st : State) → s.repos ≡ repos.now → IsStateOf state.now s st → set_up_in result s ≡ s }
        ensures state { (s : SetUp) (st : State) → IsStateOf state.now s st → state_in result st ≡ st }
        ensures given { IsGiven result repos.now state.now work.now words.now told.now }
    {
        Turn {
            repos,
            state,
            repo: state.number(),
            rows: state.rows(),
            ends: state.ends(),
            jobs: state.jobs(),
            work,
            words,
            told,
        }
    }

    /// The key of the job.
    pub fn key(&self) -> &'a Key
        ensures { (s : SetUp) (st : State) → result.now ≡ key_of (turn_in self.now s st) }
    {
        &self.work.what.key
    }

    /// The job, as entries name who did something.
    pub fn by_me(&self) -> By
        ensures { (s : SetUp) (st : State) → result ≡ by_me (turn_in self.now s st) }
    {
        By::Job(self.work.number)
    }

    /// The number of the entry among those of its repository, from 1.
    pub fn number(&self) -> u64
        ensures { (s : SetUp) (st : State) → result ≡ (turn_in self.now s st).number }
    {
        self.state.made() + 1
    }

    /// How many repositories there are.
    pub fn count(&self) -> u32
        ensures { result ≡ length self.now.repos.now }
    {
        self.repos.len() as u32
    }

    /// What the repository's clock says at a time of the script, in milliseconds.
    pub fn clock(&self, time: u64) -> u128
        ensures value { result ≡ clock_of self.now.state.now time }
        ensures small { result < 2 ^ 65 }
    {
        self.state.clock(time)
    }

    /// Whether the content of the job's key is there.
    pub fn is_there(&self) -> bool
        ensures { (s : SetUp) (st : State) → result ≡ is_there (turn_in self.now s st) }
    {
        self.rows.size(&self.work.what.key).is_some()
    }

    /// The job whose bar stands on the job's key.
    pub fn bar_there(&self) -> Option<u32>
        ensures { (s : SetUp) (st : State) → result ≡ bar_there (turn_in self.now s st) }
    {
        self.rows.bar(&self.work.what.key)
    }

    /// Where the job's drop removes.
    pub fn side(&self) -> Side
        ensures { result ≡ side_of (work_of self.now.work.now) }
    {
        side_of(&self.work.what)
    }

    /// The target of the job's drop.
    pub fn target(&self) -> u32
        ensures { result ≡ target_of self.now.repo (work_of self.now.work.now) }
    {
        or_own(self.repo, side_of(&self.work.what), self.work.what.peer)
    }

    /// The word beside what a repository answered.
    pub fn word(&self, repo: u32) -> Option<Word>
        ensures { result ≡ word_in self.now.words.now repo }
    {
        word_in(self.words, repo)
    }

    /// What the job heard last of a repository's copy.
    pub fn heard(&self, repo: u32) -> Option<Heard>
        ensures { option_map heard_of result ≡ jobs.heard_of (work_of self.now.work.now) repo }
    {
        heard_last(&self.work.heard, repo)
    }

    /// The job's end of its connection with a peer, as it stands.
    pub fn at(&self, peer: u32) -> EndAt
        ensures name { name_of result ≡ job_end (work_of self.now.work.now) peer }
        ensures was { result.was ≡ end_of self.now.ends.now (job_end (work_of self.now.work.now) peer) }
    {
        let slot = self.work.slot;
        let was = self.ends.end(Connection { peer, slot }, true);
        EndAt {
            peer,
            slot,
            client: true,
            was,
        }
    }

    /// Whether the job's connection with a peer is open.
    pub fn is_open(&self, peer: u32) -> bool
        ensures { (s : SetUp) (st : State) → result ≡ (end_with (turn_in self.now s st) peer).opened }
    {
        let slot = self.work.slot;
        self.ends.end(Connection { peer, slot }, true).opened
    }
}

/// What was heard last of a repository, where the oldest stands first.
fn heard_last(heard: &[(u32, Heard)], repo: u32) -> Option<Heard>
    ensures { result ≡ option_map (λ x. x.1) (find (λ x. x.0 == repo) (reverse heard.now)) }
{
    match heard.iter().rev().find(|x| x.0 == repo) {
        Some(x) => Some(x.1),
        None => None,
    }
}

/// Where the drop of such a job removes.
fn side_of(what: &Job) -> Side
    ensures { result ≡ drop_side what.now.kind what.now.peer }
{
    match (what.kind, what.peer) {
        (JobKind::Drop, None) | (JobKind::MoveTo, _) => Side::Local,
        _ => Side::Remote,
    }
}

fn or_own(repo: u32, side: Side, peer: Option<u32>) -> u32
    ensures { result ≡ or_own repo side peer }
{
    match (side, peer) {
        (Side::Remote, Some(peer)) => peer,
        _ => repo,
    }
}
