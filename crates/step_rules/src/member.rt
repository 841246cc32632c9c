//! One repository of a run.
ghost use Rattle.std.specs.Prelude.{◌≡◌, ◌<◌, ◌≤◌, ◌+◌, ◌^◌, ℕ, Option, length, None, IfOk, OnErr, OnOk, option_copied, option_map};
ghost use Rattle.annex_base.specs.declared.kinds.Word.{Word};
ghost use Rattle.node_model.specs.After.{first_state, state_after};
ghost use Rattle.node_model.specs.Rows.{option_is};
ghost use Rattle.node_model.specs.SetUp.{SetUp};
ghost use Rattle.node_model.specs.State.{State};
ghost use Rattle.run_data.specs.Repos.{offset_of};
ghost use Rattle.run_model.specs.Words.{awaits_of, awaits_word};
ghost use Rattle.run_laws.specs.Sound.{IsSeated};
ghost use Rattle.state_files.specs.Changes.{LogsLines};
ghost use Rattle.state_jobs.specs.Phases.{phase_of};
ghost use Rattle.state_jobs.specs.Works.{work_of};
ghost use Rattle.state_rows.specs.Changes.{SetsClock};
ghost use Rattle.step_judging.specs.Carried.{words_at_end};
ghost use Rattle.step_judging.specs.Rules.{is_own};
ghost use Rattle.job_makes.specs.Turns.{word_in};
ghost use Rattle.step_makes.specs.Numbers.{AreAlone};
ghost use Rattle.step_state.specs.Peers.{HasPeersIn};
ghost use Rattle.step_rules.specs.Members.{AwaitsBy, BeginsWith, HasMemberRoom, IsBounded, IsMemberOf, StaysMember, paths_read, words_after, words_at};

use crate::paths::Paths;
use crate::words::{Hears, Words};
use annex_base::{Items, NoMemory, Text, Word};
use any_time_checks::comes;
use run_data::{Entry, EntryKind, RepoView};
use state_jobs::{Phase, Work};
use state_works::job_of;
use std::alloc::Global;
use step_facts::running_jobs_stay_the_same;
use step_judging::makers_tell;
use step_makes::told;
use step_state::RepoState;

/// One repository of a run: its state, the paths of its running jobs' keys, and the words that its jobs heard (own).
#[derive(Drop)]
pub struct Member {
    pub state: RepoState,
    pub paths: Paths,
    pub words: Words,
}

impl Member {
    /// The repository of this number among these, before its first entry.
    pub(crate) fn start(alloc: Global, repos: &[RepoView], number: u32) -> Result<Member, NoMemory>
        requires within { number < length repos.now }
        requires near { offset_of repos.now number ≤ 100000000000 }
        ensures member { IfOk result (λ x. (s : SetUp) → s.repos ≡ repos.now → s.number ≡ number → IsMemberOf x s (first_state s) (λ job c. None)) }
        ensures bounded { IfOk result (IsBounded (length repos.now) 0) }
    {
        Ok(Member {
            state: RepoState::start(alloc, repos, number)?,
            paths: Paths::new(alloc),
            words: Words::new(alloc),
        })
    }

    /// Whether the entry is its own part: its step, or one that may come at any point. Rule 3.
    pub(crate) fn is_own(
        &self,
        alloc: Global,
        repos: &[RepoView],
        entry: &Entry,
    ) -> Result<bool, NoMemory>
        requires many { length repos.now < 2 ^ 32 }
        requires bounded { (made : ℕ) × (made + 1 < 2 ^ 56) × IsBounded (length repos.now) made self.now }
        requires time { entry.now.time ≤ 1000000000000 }
        ensures { IfOk result (λ b. (s : SetUp) (st : State) (words : ℕ → ℕ → Option Word) → s.repos ≡ repos.now → s.number < length s.repos → IsSeated st → AreAlone st.works
            → IsMemberOf self.now s st words → b ≡ is_own s st (words_at_end words entry.now.kind) entry.now) }
    {
        // A law, for the proof: who made an entry tells whether it is the step.
        makers_tell();
        let paths = self.paths.of(job_of(&entry.kind));
        let words = self.words_at_end(&entry.kind);
        if told(alloc, repos, &self.state, paths, words, entry)? {
            return Ok(true);
        }
        comes(alloc, repos, &self.state, entry)
    }

    /// The words that a job heard, where it ends by an entry of this kind.
    fn words_at_end(&self, kind: &EntryKind) -> &[Option<Word>]
        ensures { (words : ℕ → ℕ → Option Word) (c : ℕ) → ((job d : ℕ) → words job d ≡ word_in (words_at self.now.words job) d) → word_in result.now c ≡ words_at_end words kind.now c }
    {
        match kind {
            EntryKind::End { job, .. } => self.words.of(*job),
            _ => &[],
        }
    }

    /// The job of the entry, if it awaits an answer with a word of this peer.
    pub(crate) fn awaiting(&self, kind: &EntryKind, peer: u32) -> Option<u32>
        ensures { (s : SetUp) (st : State) (words : ℕ → ℕ → Option Word) → IsMemberOf self.now s st words → AwaitsBy st kind.now peer result }
    {
        let job = job_of(kind)?;
        if awaits(self.state.jobs().job(job), peer) {
            Some(job)
        } else {
            None
        }
    }

    /// Makes room for what an entry changes beside its state, by which a job hears this word, if one does.
    pub(crate) fn ready(&mut self, hears: &Option<Hears>) -> Result<(), NoMemory>
        ensures room { OnOk result (HasMemberRoom hears.now self.new) }
        ensures same { StaysMember self.old self.new }
    {
        self.paths.ready()?;
        self.words.ready(hears)
    }

    /// Takes note of an entry, with room for it: the paths of the key of the job that it begins, and the word that a job hears by it.
    /// Without memory it stays the repository that it was.
    pub(crate) fn after(
        &mut self,
        entry: &Entry,
        begun: Items<Text>,
        hears: Option<Hears>,
    ) -> Result<(), NoMemory>
        requires sent { length entry.now.sent + 1 < 2 ^ 64 }
        requires lines { LogsLines entry.now.kind entry.now.lines }
        requires clock { SetsClock entry.now.kind }
        requires time { entry.now.time ≤ 1000000000000 }
        requires bounded { (count made : ℕ) × (made + 1 < 2 ^ 56) × IsBounded count made self.old × HasPeersIn count entry.now }
        requires room { HasMemberRoom hears self.old }
        ensures ok { OnOk result ((s : SetUp) (st : State) (words : ℕ → ℕ → Option Word) → BeginsWith s entry.now.kind begun → IsMemberOf self.old s st words
            → IsMemberOf self.new s (state_after s st entry.now) (words_after words hears)) }
        ensures err { OnErr result ((s : SetUp) (st : State) (words : ℕ → ℕ → Option Word) → IsMemberOf self.old s st words → IsMemberOf self.new s st words) }
        ensures bounded { (count made : ℕ) → IsBounded count made self.old → IsBounded count (made + 1) self.new }
        ensures err_bounded { OnErr result ((count made : ℕ) → IsBounded count made self.old → IsBounded count made self.new) }
    {
        // A law, for the proof: a job keeps its number.
        running_jobs_stay_the_same();
        let paths = paths_read(&self.paths, &entry.kind, begun.as_slice());
        self.state.after(paths, entry)?;
        self.paths.note(&entry.kind, begun);
        self.words.note(hears);
        Ok(())
    }
}

/// The paths of the key of the job that an entry of this kind names: those that are kept, or where it begins the job these.
fn paths_read<'a>(paths: &'a Paths, kind: &EntryKind, begun: &'a [Text]) -> &'a [Text]
    ensures { result.now ≡ paths_read paths.now kind.now begun.now }
{
    match kind {
        EntryKind::Begin { .. } => begun,
        _ => paths.of(job_of(kind)),
    }
}

/// Whether the job awaits an answer of this peer that has a word: to a look, or to an order.
fn awaits(job: Option<&Work>, peer: u32) -> bool
    ensures { result ≡ awaits_of peer (option_map work_of (option_copied job.entry)) }
{
    match job {
        Some(work) => awaits_word(peer, work.what.peer, work.phase),
        None => false,
    }
}

fn awaits_word(peer: u32, target: Option<u32>, phase: Phase) -> bool
    ensures { result ≡ awaits_word peer target (phase_of phase) }
{
    match phase {
        Phase::AsksLook { peer: asked } => asked == peer,
        Phase::Orders => is(target, peer),
        _ => false,
    }
}

fn is(target: Option<u32>, peer: u32) -> bool
    ensures { result ≡ option_is target peer }
{
    match target {
        Some(target) => target == peer,
        None => false,
    }
}
