//! The state of a run, carried over its entries.
ghost use Rattle.std.specs.Prelude.{◌≡◌, ◌<◌, ◌≤◌, ◌+◌, ◌^◌, ℕ, Option, length, reverse, slice_get, vec_len, None, Some, IfErr, IfOk, OnErr, OnOk, option_copied};
ghost use Rattle.annex_base.specs.Lists.{Each};
ghost use Rattle.annex_base.specs.declared.kinds.Word.{Word};
ghost use Rattle.run_data.specs.Repos.{IsSetUp};
ghost use Rattle.run_data.specs.declared.run.Run.{Run};
ghost use Rattle.node_model.specs.After.{first_state, state_after};
ghost use Rattle.node_model.specs.SetUp.{SetUp};
ghost use Rattle.node_model.specs.State.{State};
ghost use Rattle.run_model.specs.Run.{set_up};
ghost use Rattle.state_checks.specs.Moments.{moment_of};
ghost use Rattle.state_files.specs.Changes.{LogsLines};
ghost use Rattle.state_flights.specs.Flights.{flight_on};
ghost use Rattle.state_rows.specs.Changes.{SetsClock};
ghost use Rattle.step_judging.specs.Carried.{breaks_by, judge_of};
ghost use Rattle.step_judging.specs.Rules.{broken_rule};
ghost use Rattle.step_judging.specs.Verdicts.{row_found};
ghost use Rattle.step_state.specs.Peers.{HasPeersIn};
ghost use Rattle.step_rules.specs.Members.{BeginsWith, IsBounded, IsMemberOf, words_after};
ghost use Rattle.step_rules.specs.Runs.{start_of, with_entry};
ghost use Rattle.step_rules.specs.States.{ChangesMember, HasBegun, HearsBy, HearsOf, IsAfter, IsAllowed, IsCarried, TellsOf, job_paths_at, repo_at, state_at, taken_by};
ghost use Rattle.step_rules.specs.Trees.{AreInOrder, IsTreeBefore};
ghost use Rattle.step_rules.specs.declared.member.Member.{Member};

use crate::broken::{broken_unknown, broken_wait};
use crate::member::Member;
use crate::trees::Trees;
use crate::wanted::Wanted;
use crate::words::Hears;
use annex_base::{Items, NoMemory, Text};
use driver_model::runs_log_lines;
use growth_laws::{jobs_keep_their_paths, runs_grow};
use p2p_wire::sent_messages_are_read;
use run_data::{Entry, EntryKind, FrameView, RepoView, RowView, Run};
use run_laws::{carried_states_agree, states_are_sound};
use state_checks::{Moment, has_row, is_ordered, moment_of, row_found};
use state_flights::{Flights, bodies_of};
use std::alloc::Global;
use step_judging::{judges_carry_enough, runs_break_no_rule};
use step_state::RepoState;

/// The state of a run after entries of it: the newest of them, each repository, and the frames on their way (own).
#[derive(Drop)]
pub struct RunState<'a> {
    alloc: Global,
    repos: &'a [RepoView],
    trees: Trees<'a>,
    newest: Option<Moment>,
    taken: u64,
    members: Vec<Member>,
    flights: Flights,
}

impl<'a> RunState<'a> {
    /// The state before the first entry of a run of these repositories and these changes of the tree.
    pub fn start(alloc: Global, run: &'a Run) -> Result<RunState<'a>, NoMemory>
        requires many { length run.now.repos < 2 ^ 32 }
        requires set_up { Each IsSetUp run.now.repos }
        requires tree { AreInOrder 0 run.now.tree }
        ensures after { IfOk result (λ x. IsAfter x (start_of run.now 0)) }
        ensures carried { IfOk result IsCarried }
        ensures taken { IfOk result (λ x. taken_by x ≡ 0) }
    {
        // A law, for the proof: a run begins without entries.
        runs_grow();
        let repos = run.repos.as_slice();
        Ok(RunState {
            alloc,
            repos,
            trees: Trees::new(alloc, run.tree.as_slice())?,
            newest: None,
            taken: 0,
            members: members(alloc, repos)?,
            flights: Flights::new(alloc),
        })
    }

    /// Takes the next entry, if it is permitted after those that were taken; else it tells the first rule that the entry breaks, and
    /// the row that it found. A refusal leaves the state that it was. It looks up what the entry names, and goes over the running jobs
    /// of its repository and over the holds there; the entries that were taken don't count.
    pub fn take(&mut self, entry: &Entry) -> Result<(), Wanted>
        requires carried { IsCarried self.old }
        requires few { taken_by self.old + 1 < 2 ^ 56 }
        requires sent { length entry.now.sent + 1 < 2 ^ 64 }
        ensures ok { OnOk result ((run : Run) → IsAfter self.old run → IsAfter self.new (with_entry run entry.now)) }
        ensures wanted { IfErr result (λ w. (run : Run) → IsAfter self.old run → TellsOf run entry.now w) }
        ensures same { OnErr result ((run : Run) → IsAfter self.old run → IsAfter self.new run) }
        ensures carried { IsCarried self.new }
        ensures taken { OnOk result (taken_by self.new ≡ taken_by self.old + 1) }
    {
        if let Some(rule) = self.broken(entry)? {
            let found = self.found(entry)?;
            return Err(Wanted::Broken { rule, found });
        }
        self.accept(entry)?;
        Ok(())
    }

    /// The first rule that the entry breaks, if it breaks one.
    fn broken(&self, entry: &Entry) -> Result<Option<u32>, NoMemory>
        requires carried { IsCarried self.now }
        requires few { taken_by self.now + 1 < 2 ^ 56 }
        ensures { IfOk result (λ rule. (run : Run) → IsAfter self.now run → rule ≡ broken_rule (set_up run) (reverse run.entries) entry.now) }
    {
        // A law, for the proof: what is carried tells what the entries so far tell.
        judges_carry_enough();
        match entry.repo {
            None => Ok(broken_wait(self.newest, entry)),
            Some(repo) => self.broken_at(repo, entry),
        }
    }

    fn broken_at(&self, repo: u32, entry: &Entry) -> Result<Option<u32>, NoMemory>
        requires carried { IsCarried self.now }
        requires few { taken_by self.now + 1 < 2 ^ 56 }
        ensures { IfOk result (λ rule. (run : Run) → IsAfter self.now run → rule ≡ breaks_by (set_up run) (judge_of (set_up run) (reverse run.entries)) entry.now (Some repo)) }
    {
        match self.members.get(repo as usize) {
            Some(member) => self.broken_by(repo, member, entry),
            None => Ok(broken_unknown(self.newest, entry)),
        }
    }

    /// The first rule that the entry of this repository breaks.
    fn broken_by(&self, repo: u32, member: &Member, entry: &Entry) -> Result<Option<u32>, NoMemory>
        requires carried { IsCarried self.now }
        requires few { taken_by self.now + 1 < 2 ^ 56 }
        requires member { slice_get self.now.members.items repo ≡ Some member.now }
        ensures { IfOk result (λ rule. (run : Run) → IsAfter self.now run → rule ≡ breaks_by (set_up run) (judge_of (set_up run) (reverse run.entries)) entry.now (Some repo)) }
    {
        // Laws, for the proof: each job is the one in its slot, and has a number of its own.
        states_are_sound();
        carried_states_agree();
        if !is_ordered(self.newest, entry) {
            return Ok(Some(1));
        }
        if !has_row(self.alloc, &member.state, entry)? {
            return Ok(Some(2));
        }
        if !member.is_own(self.alloc, self.repos, entry)? {
            return Ok(Some(3));
        }
        if !self.flights.may_take(repo, &entry.taken) {
            return Ok(Some(4));
        }
        Ok(None)
    }

    /// The row that the entry found.
    fn found(&self, entry: &Entry) -> Result<RowView, NoMemory>
        requires carried { IsCarried self.now }
        ensures { IfOk result (λ row. (run : Run) → IsAfter self.now run → row ≡ row_found (set_up run) (reverse run.entries) entry.now entry.now.repo) }
    {
        // A law, for the proof: what a repository carries is its state.
        carried_states_agree();
        row_found(self.alloc, self.state(entry.repo), entry)
    }

    fn state(&self, repo: Option<u32>) -> Option<&RepoState>
        ensures { option_copied result ≡ state_at self.now.members.items repo }
    {
        match repo {
            Some(repo) => self.repo(repo),
            None => None,
        }
    }

    /// The state of the repository of this number, if it is one of the run.
    pub fn repo(&self, repo: u32) -> Option<&RepoState>
        ensures { option_copied result ≡ repo_at self.now repo }
    {
        match self.members.get(repo as usize) {
            Some(member) => Some(&member.state),
            None => None,
        }
    }

    /// The paths that the key of a running job of a repository had as the job began.
    pub fn paths(&self, repo: u32, job: u32) -> &[Text]
        ensures { result.now ≡ job_paths_at self.now repo job }
    {
        match self.members.get(repo as usize) {
            Some(member) => member.paths.of(Some(job)),
            None => &[],
        }
    }

    /// Takes an entry that is permitted. Without memory it stays the state that it was.
    fn accept(&mut self, entry: &Entry) -> Result<(), NoMemory>
        requires carried { IsCarried self.old }
        requires few { taken_by self.old + 1 < 2 ^ 56 }
        requires sent { length entry.now.sent + 1 < 2 ^ 64 }
        requires allowed { IsAllowed self.old entry.now }
        ensures ok { OnOk result ((run : Run) → IsAfter self.old run → IsAfter self.new (with_entry run entry.now)) }
        ensures same { OnErr result ((run : Run) → IsAfter self.old run → IsAfter self.new run) }
        ensures carried { IsCarried self.new }
        ensures taken { OnOk result (taken_by self.new ≡ taken_by self.old + 1) }
    {
        // Laws, for the proof: with the entry it is a run, in which the jobs have the paths that they had.
        runs_break_no_rule();
        runs_grow();
        jobs_keep_their_paths();
        carried_states_agree();
        match entry.repo {
            Some(repo) => self.accept_of(repo, entry),
            None => {
                self.count(entry);
                Ok(())
            }
        }
    }

    /// Takes an entry of this repository that is permitted.
    fn accept_of(&mut self, repo: u32, entry: &Entry) -> Result<(), NoMemory>
        requires own { entry.now.repo ≡ Some repo }
        requires carried { IsCarried self.old }
        requires few { taken_by self.old + 1 < 2 ^ 56 }
        requires sent { length entry.now.sent + 1 < 2 ^ 64 }
        requires allowed { IsAllowed self.old entry.now }
        ensures ok { OnOk result ((run : Run) → IsAfter self.old run → IsAfter self.new (with_entry run entry.now)) }
        ensures same { OnErr result ((run : Run) → IsAfter self.old run → IsAfter self.new run) }
        ensures carried { IsCarried self.new }
        ensures taken { OnOk result (taken_by self.new ≡ taken_by self.old + 1) }
    {
        // Laws, for the proof: with the entry it is a run; what an entry of a run has; and a job's paths are those at its beginning.
        runs_break_no_rule();
        runs_grow();
        runs_log_lines();
        sent_messages_are_read();
        jobs_keep_their_paths();
        judges_carry_enough();
        carried_states_agree();
        let begun = self.begun(&entry.kind)?;
        let bodies = bodies_of(self.alloc, entry.sent.as_slice())?;
        self.flights.ready(repo, entry)?;
        let hears = self.hears(repo, entry);
        after(&mut self.members, repo, entry, begun, hears)?;
        self.flights.note(repo, entry, bodies);
        self.count(entry);
        Ok(())
    }

    fn count(&mut self, entry: &Entry)
        requires { taken_by self.old + 1 < 2 ^ 56 }
        ensures { self.new ≡ record self.old { newest = Some (moment_of entry.now); taken = self.old.taken + 1 } }
    {
        self.newest = Some(moment_of(entry));
        self.taken += 1;
    }

    /// The paths that the key has whose job an entry of this kind begins; none for any other kind.
    fn begun(&mut self, kind: &EntryKind) -> Result<Items<Text>, NoMemory>
        requires { IsTreeBefore self.old.taken self.old.trees }
        ensures paths { IfOk result (λ paths. HasBegun self.old.trees.marks.now self.old.taken kind.now paths) }
        ensures tree { IsTreeBefore self.old.taken self.new.trees }
        ensures rest { self.new ≡ record self.old { trees = self.new.trees } }
        ensures marks { self.new.trees.marks ≡ self.old.trees.marks }
    {
        match kind {
            EntryKind::Begin { what, .. } => self.trees.paths(self.alloc, self.taken, &what.key),
            _ => Ok(Items::new(self.alloc)),
        }
    }

    /// The word that a job of this repository hears by the entry, if one does.
    fn hears(&self, repo: u32, entry: &Entry) -> Option<Hears>
        requires { (m : Member) × (slice_get self.now.members.items repo ≡ Some m) }
        ensures { (m : Member) (s : SetUp) (st : State) (words : ℕ → ℕ → Option Word) → slice_get self.now.members.items repo ≡ Some m → IsMemberOf m s st words
            → HearsBy st (flight_on self.now.flights) repo entry.now result }
    {
        match &entry.taken {
            Some(frame) => self.hears_by(repo, &entry.kind, frame),
            None => None,
        }
    }

    fn hears_by(&self, repo: u32, kind: &EntryKind, frame: &FrameView) -> Option<Hears>
        requires { (m : Member) × (slice_get self.now.members.items repo ≡ Some m) }
        ensures { (m : Member) (s : SetUp) (st : State) (words : ℕ → ℕ → Option Word) → slice_get self.now.members.items repo ≡ Some m → IsMemberOf m s st words
            → HearsOf st (flight_on self.now.flights) repo kind.now frame.now result }
    {
        let job = self.members[repo as usize].awaiting(kind, frame.peer)?;
        Some(Hears {
            job,
            peer: frame.peer,
            word: self.flights.word(repo, frame),
        })
    }
}

/// The repository of this number takes note of an entry, by the paths of the key of the job that it begins, and the word that a job
/// hears by it.
fn after(
    members: &mut Vec<Member>,
    repo: u32,
    entry: &Entry,
    begun: Items<Text>,
    hears: Option<Hears>,
) -> Result<(), NoMemory>
    requires sent { length entry.now.sent + 1 < 2 ^ 64 }
    requires lines { LogsLines entry.now.kind entry.now.lines }
    requires clock { SetsClock entry.now.kind }
    requires time { entry.now.time ≤ 1000000000000 }
    requires within { repo < vec_len members.old }
    requires bounded { (count made : ℕ) × (made + 1 < 2 ^ 56) × Each (IsBounded count made) members.old.items × HasPeersIn count entry.now }
    ensures ok { OnOk result (ChangesMember repo (λ was now. (s : SetUp) (st : State) (words : ℕ → ℕ → Option Word) → BeginsWith s entry.now.kind begun → IsMemberOf was s st words
        → IsMemberOf now s (state_after s st entry.now) (words_after words hears)) members.old.items members.new.items) }
    ensures err { OnErr result (ChangesMember repo (λ was now. (s : SetUp) (st : State) (words : ℕ → ℕ → Option Word) → IsMemberOf was s st words → IsMemberOf now s st words) members.old.items members.new.items) }
    ensures bounded { (count made : ℕ) → Each (IsBounded count made) members.old.items → Each (IsBounded count (made + 1)) members.new.items }
    ensures err_bounded { OnErr result ((count made : ℕ) → Each (IsBounded count made) members.old.items → Each (IsBounded count made) members.new.items) }
{
    let member = &mut members[repo as usize];
    take_note(member, entry, begun, hears)
}

fn take_note(
    member: &mut Member,
    entry: &Entry,
    begun: Items<Text>,
    hears: Option<Hears>,
) -> Result<(), NoMemory>
    requires sent { length entry.now.sent + 1 < 2 ^ 64 }
    requires lines { LogsLines entry.now.kind entry.now.lines }
    requires clock { SetsClock entry.now.kind }
    requires time { entry.now.time ≤ 1000000000000 }
    requires bounded { (count made : ℕ) × (made + 1 < 2 ^ 56) × IsBounded count made member.old × HasPeersIn count entry.now }
    ensures ok { OnOk result ((s : SetUp) (st : State) (words : ℕ → ℕ → Option Word) → BeginsWith s entry.now.kind begun → IsMemberOf member.old s st words
        → IsMemberOf member.new s (state_after s st entry.now) (words_after words hears)) }
    ensures err { OnErr result ((s : SetUp) (st : State) (words : ℕ → ℕ → Option Word) → IsMemberOf member.old s st words → IsMemberOf member.new s st words) }
    ensures bounded { (count made : ℕ) → IsBounded count made member.old → IsBounded count (made + 1) member.new }
    ensures err_bounded { OnErr result ((count made : ℕ) → IsBounded count made member.old → IsBounded count made member.new) }
{
    member.ready(&hears)?;
    member.after(entry, begun, hears)
}

/// The repositories of a run before its first entry, in order of number.
fn members(alloc: Global, repos: &[RepoView]) -> Result<Vec<Member>, NoMemory>
    requires many { length repos.now < 2 ^ 32 }
    requires set_up { Each IsSetUp repos.now }
    ensures count { IfOk result (λ v. length v.items ≡ length repos.now) }
    ensures members { IfOk result (λ v. (r : ℕ) (m : Member) → slice_get v.items r ≡ Some m → (s : SetUp) → s.repos ≡ repos.now → s.number ≡ r → IsMemberOf m s (first_state s) (λ job c. None)) }
    ensures bounded { IfOk result (λ v. Each (IsBounded (length repos.now) 0) v.items) }
{
    let mut all = Vec::new(alloc);
    for number in 0..repos.len() {
        all.push(Member::start(alloc, repos, number as u32)?)?;
    }
    Ok(all)
}
