//! The step of the job that an entry names, where no job of an earlier slot has its turn before.
ghost use Rattle.std.specs.Prelude.{◌≡◌, ◌∷◌, ◌==◌, [], find, map, true, IfOk};
ghost use Rattle.std.specs.Option.{option_copied, option_map};
ghost use Rattle.node_model.specs.Jobs.{partner};
ghost use Rattle.node_model.specs.SetUp.{SetUp, slots};
ghost use Rattle.node_model.specs.State.{State};
ghost use Rattle.node_model.specs.Turns.{by_partner};
ghost use Rattle.job_makes.specs.Turns.{set_up_in, turn_in, word_in};
ghost use Rattle.state_jobs.specs.Phases.{part_of, phase_of};
ghost use Rattle.state_jobs.specs.Works.{work_of};
ghost use Rattle.state_reads.specs.Known.{AreLogsRead};
ghost use Rattle.state_reads.specs.Reads.{IsOnly};
ghost use Rattle.step_judging.specs.Rules.{effect_of, is_effect};
ghost use Rattle.step_judging.specs.Telling.{look_of};
ghost use Rattle.step_judging.specs.Told.{forced_in, is_forced, told_in};
ghost use Rattle.step_makes.specs.Knowledge.{HasRoom, IsTurnOf, is_judging};
ghost use Rattle.step_makes.specs.Numbers.{AreAlone};

use crate::forcing::is_forced;
use crate::known::{is_judging, reads_logs};
use crate::turns::by_partner;
use annex_base::{NoMemory, Text};
use drop_makes::{Knowing, readings_are_kept};
use job_makes::Turn;
use state_jobs::Work;
use state_reads::KnownLogs;
use std::alloc::Global;

// ---- the job's own step

/// The step of a job that has read this of the logs.
fn step_by_logs(alloc: Global, turn: &Turn, logs: &KnownLogs) -> Result<bool, NoMemory>
    ensures { IfOk result (λ b. (s : SetUp) (st : State) → IsTurnOf turn.now s st → HasRoom turn.now → AreLogsRead (st.read turn.now.work.now.number) (set_up_in turn.now s) (work_of turn.now.work.now) logs.now
        → b ≡ is_effect (by_partner (turn_in turn.now s st) (partner turn.now.work.now.what.peer (phase_of turn.now.work.now.phase))) (effect_of turn.now.told.now)) }
{
    // A law, for the proof: the turn of a drop that has read this is the turn.
    readings_are_kept();
    let known = Knowing::new(alloc, turn, logs)?;
    by_partner(alloc, turn, Some(&known))
}

/// The step of a job that reads the logs now.
fn step_anew(alloc: Global, turn: &Turn, paths: &[Text]) -> Result<bool, NoMemory>
    ensures { IfOk result (λ b. (s : SetUp) (st : State) → IsTurnOf turn.now s st → HasRoom turn.now → st.read turn.now.work.now.number ≡ st.logs → s.paths turn.now.work.now.number ≡ paths.now
        → b ≡ is_effect (by_partner (turn_in turn.now s st) (partner turn.now.work.now.what.peer (phase_of turn.now.work.now.phase))) (effect_of turn.now.told.now)) }
{
    let logs = turn.state.logs_now(alloc, paths, turn.work)?;
    step_by_logs(alloc, turn, &logs)
}

/// The step of a job that reads the logs: what it has read of them, or else reads now.
fn step_with_logs(alloc: Global, turn: &Turn, paths: &[Text]) -> Result<bool, NoMemory>
    ensures { IfOk result (λ b. (s : SetUp) (st : State) → IsTurnOf turn.now s st → HasRoom turn.now → IsOnly st.works (work_of turn.now.work.now) → s.paths turn.now.work.now.number ≡ paths.now
        → b ≡ is_effect (by_partner (turn_in turn.now s st) (partner turn.now.work.now.what.peer (phase_of turn.now.work.now.phase))) (effect_of turn.now.told.now)) }
{
    let reads = turn.state.reads();
    match reads.reading(turn.work.number) {
        Some(logs) => step_by_logs(alloc, turn, logs),
        None => step_anew(alloc, turn, paths),
    }
}

/// Whether the entry is the step of the job.
fn step_of(alloc: Global, turn: &Turn, paths: &[Text]) -> Result<bool, NoMemory>
    ensures { IfOk result (λ b. (s : SetUp) (st : State) → IsTurnOf turn.now s st → HasRoom turn.now → IsOnly st.works (work_of turn.now.work.now) → s.paths turn.now.work.now.number ≡ paths.now
        → b ≡ is_effect (by_partner (turn_in turn.now s st) (partner turn.now.work.now.what.peer (phase_of turn.now.work.now.phase))) (effect_of turn.now.told.now)) }
{
    if reads_logs(turn.work.part, turn.work.phase) {
        step_with_logs(alloc, turn, paths)
    } else {
        by_partner(alloc, turn, None)
    }
}

// ---- the jobs of earlier slots

/// A job that has read this of the logs has a step whatever is at hand.
fn forced_by_logs(alloc: Global, turn: &Turn, logs: &KnownLogs) -> Result<bool, NoMemory>
    ensures { IfOk result (λ b. (s : SetUp) (st : State) → AreLogsRead (st.read turn.now.work.now.number) (set_up_in turn.now s) (work_of turn.now.work.now) logs.now
        → b ≡ is_forced (turn_in turn.now s st) (partner turn.now.work.now.what.peer (phase_of turn.now.work.now.phase))) }
{
    // A law, for the proof: the turn of a drop that has read this is the turn.
    readings_are_kept();
    let known = Knowing::new(alloc, turn, logs)?;
    Ok(is_forced(turn, Some(&known)))
}

/// A job that judges has a step whatever is at hand.
fn judges_forced(alloc: Global, turn: &Turn) -> Result<bool, NoMemory>
    requires { is_judging (part_of turn.now.work.now.part) (phase_of turn.now.work.now.phase) ≡ true }
    ensures { IfOk result (λ b. (s : SetUp) (st : State) → IsTurnOf turn.now s st → IsOnly st.works (work_of turn.now.work.now)
        → b ≡ is_forced (turn_in turn.now s st) (partner turn.now.work.now.what.peer (phase_of turn.now.work.now.phase))) }
{
    let reads = turn.state.reads();
    match reads.reading(turn.work.number) {
        Some(logs) => forced_by_logs(alloc, turn, logs),
        // For the proof: a drop that judges has read the logs.
        None => Ok(false),
    }
}

/// Whether the job has a step whatever is at hand.
fn job_forced(alloc: Global, turn: &Turn) -> Result<bool, NoMemory>
    ensures { IfOk result (λ b. (s : SetUp) (st : State) → IsTurnOf turn.now s st → IsOnly st.works (work_of turn.now.work.now)
        → b ≡ is_forced (turn_in turn.now s st) (partner turn.now.work.now.what.peer (phase_of turn.now.work.now.phase))) }
{
    if is_judging(turn.work.part, turn.work.phase) {
        judges_forced(alloc, turn)
    } else {
        Ok(is_forced(turn, None))
    }
}

fn first_in(running: &[Work], slot: u32) -> Option<&Work>
    ensures { option_copied result ≡ find (λ w. w.slot == slot) running.now }
{
    running.iter().find(|work| work.slot == slot)
}

/// The job in a slot.
fn work_in(running: &[Work], slot: u32) -> Option<&Work>
    ensures { option_map work_of (option_copied result) ≡ find (λ w. w.slot == slot) (map work_of running.now) }
{
    first_in(running, slot)
}

/// Whether a job in this slot has a step whatever is at hand.
fn slot_forced(alloc: Global, turn: &Turn, slot: u32) -> Result<bool, NoMemory>
    ensures { IfOk result (λ b. (s : SetUp) (st : State) → IsTurnOf turn.now s st → AreAlone st.works
        → b ≡ forced_in s st (look_of st (word_in turn.now.words.now) turn.now.told.now) (find (λ w. w.slot == slot) st.works)) }
{
    match work_in(turn.jobs.running(), slot) {
        Some(work) => {
            let own = Turn::new(turn.repos, turn.state, work, turn.words, turn.told);
            job_forced(alloc, &own)
        }
        None => Ok(false),
    }
}

// ---- the slots in order

fn told_in_last(alloc: Global, turn: &Turn, paths: &[Text]) -> Result<bool, NoMemory>
    ensures { IfOk result (λ b. (s : SetUp) (st : State) → IsTurnOf turn.now s st → HasRoom turn.now → AreAlone st.works → IsOnly st.works (work_of turn.now.work.now) → s.paths turn.now.work.now.number ≡ paths.now
        → b ≡ told_in s st (look_of st (word_in turn.now.words.now) turn.now.told.now) (work_of turn.now.work.now) (effect_of turn.now.told.now) (3 ∷ [])) }
{
    let slot = turn.work.slot;
    if slot == 3 {
        step_of(alloc, turn, paths)
    } else {
        Ok(false)
    }
}

fn told_from_third(alloc: Global, turn: &Turn, paths: &[Text]) -> Result<bool, NoMemory>
    ensures { IfOk result (λ b. (s : SetUp) (st : State) → IsTurnOf turn.now s st → HasRoom turn.now → AreAlone st.works → IsOnly st.works (work_of turn.now.work.now) → s.paths turn.now.work.now.number ≡ paths.now
        → b ≡ told_in s st (look_of st (word_in turn.now.words.now) turn.now.told.now) (work_of turn.now.work.now) (effect_of turn.now.told.now) (2 ∷ 3 ∷ [])) }
{
    let slot = turn.work.slot;
    if slot == 2 {
        return step_of(alloc, turn, paths);
    }
    let forced = slot_forced(alloc, turn, 2)?;
    if forced {
        Ok(false)
    } else {
        told_in_last(alloc, turn, paths)
    }
}

fn told_from_second(alloc: Global, turn: &Turn, paths: &[Text]) -> Result<bool, NoMemory>
    ensures { IfOk result (λ b. (s : SetUp) (st : State) → IsTurnOf turn.now s st → HasRoom turn.now → AreAlone st.works → IsOnly st.works (work_of turn.now.work.now) → s.paths turn.now.work.now.number ≡ paths.now
        → b ≡ told_in s st (look_of st (word_in turn.now.words.now) turn.now.told.now) (work_of turn.now.work.now) (effect_of turn.now.told.now) (1 ∷ 2 ∷ 3 ∷ [])) }
{
    let slot = turn.work.slot;
    if slot == 1 {
        return step_of(alloc, turn, paths);
    }
    let forced = slot_forced(alloc, turn, 1)?;
    if forced {
        Ok(false)
    } else {
        told_from_third(alloc, turn, paths)
    }
}

/// Whether the entry is the step of the job, where no job of an earlier slot has a step whatever is at hand.
pub(crate) fn told_in(alloc: Global, turn: &Turn, paths: &[Text]) -> Result<bool, NoMemory>
    ensures { IfOk result (λ b. (s : SetUp) (st : State) → IsTurnOf turn.now s st → HasRoom turn.now → AreAlone st.works → IsOnly st.works (work_of turn.now.work.now) → s.paths turn.now.work.now.number ≡ paths.now
        → b ≡ told_in s st (look_of st (word_in turn.now.words.now) turn.now.told.now) (work_of turn.now.work.now) (effect_of turn.now.told.now) slots) }
{
    let slot = turn.work.slot;
    if slot == 0 {
        return step_of(alloc, turn, paths);
    }
    let forced = slot_forced(alloc, turn, 0)?;
    if forced {
        Ok(false)
    } else {
        told_from_second(alloc, turn, paths)
    }
}
