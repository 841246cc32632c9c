//! Whether an entry is the step that its repository makes.
ghost use Rattle.std.specs.Prelude.{◌≡◌, ◌<◌, ◌≤◌, ◌+◌, ◌^◌, ◌==◌, ℕ, find, length, IfOk};
ghost use Rattle.node_model.specs.SetUp.{SetUp};
ghost use Rattle.node_model.specs.Slots.{job_of};
ghost use Rattle.node_model.specs.State.{State};
ghost use Rattle.job_makes.specs.Turns.{word_in};
ghost use Rattle.state_jobs.specs.Works.{work_of};
ghost use Rattle.state_reads.specs.Reads.{HadPaths};
ghost use Rattle.step_judging.specs.Rules.{effect_of};
ghost use Rattle.step_judging.specs.Telling.{look_of};
ghost use Rattle.step_judging.specs.Told.{is_told, job_told, other_told};
ghost use Rattle.step_state.specs.States.{IsStateOf, IsWell, count_of, made_of};
ghost use Rattle.step_makes.specs.Numbers.{AreAlone};

use crate::owing::pays_first;
use crate::slots::told_in;
use annex_base::{NoMemory, Text, Word};
use job_makes::Turn;
use run_data::{Entry, RepoView};
use session_makes::session_told;
use state_jobs::Work;
use state_works::job_of;
use std::alloc::Global;
use step_state::RepoState;

/// Whether the entry is the step of this job, which it names.
fn work_told(
    alloc: Global,
    repos: &[RepoView],
    state: &RepoState,
    work: &Work,
    paths: &[Text],
    words: &[Option<Word>],
    entry: &Entry,
) -> Result<bool, NoMemory>
    requires many { length repos.now < 2 ^ 32 }
    requires few { made_of state.now + 1 < 2 ^ 56 }
    ensures { IfOk result (λ b. (s : SetUp) (st : State) (job : ℕ) → job_of entry.now.kind ≡ Some job → find (λ w. w.number == job) st.works ≡ Some (work_of work.now)
        → s.repos ≡ repos.now → s.paths job ≡ paths.now → IsStateOf state.now s st → AreAlone st.works
        → b ≡ job_told s st (look_of st (word_in words.now) entry.now) (effect_of entry.now) (Some (work_of work.now))) }
{
    let turn = Turn::new(repos, state, work, words, entry);
    told_in(alloc, &turn, paths)
}

/// The step of a job, or of a session.
fn other_told(
    alloc: Global,
    repos: &[RepoView],
    state: &RepoState,
    paths: &[Text],
    words: &[Option<Word>],
    entry: &Entry,
) -> Result<bool, NoMemory>
    requires many { length repos.now < 2 ^ 32 }
    requires few { made_of state.now + 1 < 2 ^ 56 }
    ensures { IfOk result (λ b. (s : SetUp) (st : State) → s.repos ≡ repos.now → HadPaths s entry.now.kind paths.now → IsStateOf state.now s st → AreAlone st.works
        → b ≡ other_told s st (look_of st (word_in words.now) entry.now) (effect_of entry.now) (job_of entry.now.kind)) }
{
    match job_of(&entry.kind) {
        Some(job) => job_told(alloc, repos, state, job, paths, words, entry),
        None => session_told(alloc, repos, state, entry),
    }
}

/// The step of the job of this number, if it runs.
fn job_told(
    alloc: Global,
    repos: &[RepoView],
    state: &RepoState,
    job: u32,
    paths: &[Text],
    words: &[Option<Word>],
    entry: &Entry,
) -> Result<bool, NoMemory>
    requires many { length repos.now < 2 ^ 32 }
    requires few { made_of state.now + 1 < 2 ^ 56 }
    ensures { IfOk result (λ b. (s : SetUp) (st : State) → job_of entry.now.kind ≡ Some job → s.repos ≡ repos.now → s.paths job ≡ paths.now → IsStateOf state.now s st → AreAlone st.works
        → b ≡ job_told s st (look_of st (word_in words.now) entry.now) (effect_of entry.now) (find (λ w. w.number == job) st.works)) }
{
    let jobs = state.jobs();
    match jobs.job(job) {
        Some(work) => work_told(alloc, repos, state, work, paths, words, entry),
        None => Ok(false),
    }
}

/// Whether the entry is the step that the repository of this state makes next, among these repositories, where the key of the entry's
/// job had these paths as the job began. The words are read at a job's end alone: those beside what each repository answered it, in
/// order of number.
pub fn told(
    alloc: Global,
    repos: &[RepoView],
    state: &RepoState,
    paths: &[Text],
    words: &[Option<Word>],
    entry: &Entry,
) -> Result<bool, NoMemory>
    requires many { length repos.now < 2 ^ 32 }
    requires repos { count_of state.now ≡ length repos.now }
    requires time { entry.now.time ≤ 1000000000000 }
    requires few { made_of state.now + 1 < 2 ^ 56 }
    requires well { IsWell state.now }
    ensures { IfOk result (λ b. (s : SetUp) (st : State) → s.repos ≡ repos.now → HadPaths s entry.now.kind paths.now → IsStateOf state.now s st → AreAlone st.works
        → b ≡ is_told s st (word_in words.now) entry.now) }
{
    let owed = state.owed();
    match owed.first() {
        Some(line) => pays_first(alloc, repos, state, line, entry),
        None => other_told(alloc, repos, state, paths, words, entry),
    }
}
