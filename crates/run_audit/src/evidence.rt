//! The need and the evidence of a drop, by the state of its repository.
ghost use Rattle.std.specs.Prelude.{◌≡◌, ◌<◌, ◌+◌, ◌^◌, ◌==◌, Some, find, length, IfOk};
ghost use Rattle.audit_laws.specs.Proofs.{proof_in};
ghost use Rattle.node_model.specs.Jobs as jobs;
ghost use Rattle.node_model.specs.Knows.{proof_by, reading};
ghost use Rattle.node_model.specs.SetUp.{SetUp};
ghost use Rattle.node_model.specs.State.{State};
ghost use Rattle.state_jobs.specs.Works.{work_of};
ghost use Rattle.state_reads.specs.Known.{AreLogsRead};
ghost use Rattle.state_reads.specs.Reads.{IsOnly};
ghost use Rattle.job_makes.specs.Turns.{set_up_in};
ghost use Rattle.step_makes.specs.Knowledge.{IsTurnOf};
ghost use Rattle.step_makes.specs.Numbers.{AreAlone};
ghost use Rattle.step_state.specs.States.{IsStateOf, made_of};

use annex_base::{NoMemory, Text};
use drop_makes::{Knowing, readings_are_kept};
use job_makes::Turn;
use run_data::{Entry, Proof, RepoView};
use state_reads::KnownLogs;
use std::alloc::Global;
use step_state::RepoState;

/// Those of the drop of a turn that has read this of the logs.
fn proof_by_logs(alloc: Global, turn: &Turn, logs: &KnownLogs) -> Result<Proof, NoMemory>
    ensures { IfOk result (λ p. (s : SetUp) (st : State) → IsTurnOf turn.now s st → AreLogsRead (st.read turn.now.work.now.number) (set_up_in turn.now s) (work_of turn.now.work.now) logs.now
        → p ≡ proof_by (reading s st (work_of turn.now.work.now)) (work_of turn.now.work.now)) }
{
    // A law, for the proof: the turn of a drop that has read this is the turn.
    readings_are_kept();
    let known = Knowing::new(alloc, turn, logs)?;
    known.proof(alloc)
}

/// Those of a drop that would read the logs now.
fn proof_anew(alloc: Global, turn: &Turn, paths: &[Text]) -> Result<Proof, NoMemory>
    ensures { IfOk result (λ p. (s : SetUp) (st : State) → IsTurnOf turn.now s st → st.read turn.now.work.now.number ≡ st.logs → s.paths turn.now.work.now.number ≡ paths.now
        → p ≡ proof_by (reading s st (work_of turn.now.work.now)) (work_of turn.now.work.now)) }
{
    let logs = turn.state.logs_now(alloc, paths, turn.work)?;
    proof_by_logs(alloc, turn, &logs)
}

/// Those of the drop of a turn: by what it has read of the logs, or else would read now.
fn proof_of_turn(alloc: Global, turn: &Turn, paths: &[Text]) -> Result<Proof, NoMemory>
    ensures { IfOk result (λ p. (s : SetUp) (st : State) → IsTurnOf turn.now s st → IsOnly st.works (work_of turn.now.work.now) → s.paths turn.now.work.now.number ≡ paths.now
        → p ≡ proof_by (reading s st (work_of turn.now.work.now)) (work_of turn.now.work.now)) }
{
    let reads = turn.state.reads();
    match reads.reading(turn.work.number) {
        Some(logs) => proof_by_logs(alloc, turn, logs),
        None => proof_anew(alloc, turn, paths),
    }
}

/// The need and the evidence of the drop of the job of this number, where it runs: those that an outcome would state. Its key had these
/// paths as it began.
pub(crate) fn proof_of_job(
    alloc: Global,
    repos: &[RepoView],
    state: &RepoState,
    paths: &[Text],
    job: u32,
    told: &Entry,
) -> Result<Option<Proof>, NoMemory>
    requires many { length repos.now < 2 ^ 32 }
    requires few { made_of state.now + 1 < 2 ^ 56 }
    ensures { IfOk result (λ p. (s : SetUp) (st : State) → s.repos ≡ repos.now → IsStateOf state.now s st → AreAlone st.works
        → ((w : jobs.Work) → find (λ v. v.number == job) st.works ≡ Some w → s.paths w.number ≡ paths.now) → p ≡ proof_in s st job) }
{
    match state.jobs().job(job) {
        Some(work) => {
            let turn = Turn::new(repos, state, work, &[], told);
            let proof = proof_of_turn(alloc, &turn, paths)?;
            Ok(Some(proof))
        }
        None => Ok(None),
    }
}
