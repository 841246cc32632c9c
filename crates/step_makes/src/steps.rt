//! The steps of a job that take no frame.
ghost use Rattle.std.specs.Prelude.{◌≡◌, ◌≢◌, min, IfOk};
ghost use Rattle.std.specs.Option.{option_copied};
ghost use Rattle.node_model.specs.DropStep.{expiry, first_drop, first_end, removal_outcome};
ghost use Rattle.node_model.specs.JobStep.{ends};
ghost use Rattle.node_model.specs.Jobs.{Gets, Puts, side_of};
ghost use Rattle.node_model.specs.SetUp.{SetUp};
ghost use Rattle.node_model.specs.SessionStep.{is_filled};
ghost use Rattle.node_model.specs.State.{State};
ghost use Rattle.node_model.specs.TransferStep.{first_get, next_source};
ghost use Rattle.node_model.specs.Turns.{first_step, goes, next_step};
ghost use Rattle.job_makes.specs.Turns.{turn_in};
ghost use Rattle.state_jobs.specs.Phases.{part_of, phase_of};
ghost use Rattle.step_judging.specs.Rules.{effect_of};
ghost use Rattle.step_judging.specs.Same.{same_effect};
ghost use Rattle.step_makes.specs.Knowledge.{IsReadBy, IsTurnOf, KnowsEnough};

use crate::drops::judges;
use crate::endings::{ends_as, ends_untransferred};
use crate::known::known;
use annex_base::{Call, NoMemory};
use drop_makes::{Knowing, denied};
use job_makes::Turn;
use p2p_wire::Message;
use run_data::TransferRefusal;
use session_makes::is_filled;
use state_jobs::{Part, Phase};
use std::alloc::Global;
use transfer_makes::{first_get, first_put, next_get, next_source, puts_piece};

/// A get finds the content, or goes to its first source.
fn starts_get(alloc: Global, turn: &Turn, here: bool) -> Result<bool, NoMemory>
    requires { turn.now.work.now.part ≢ Part.Drops }
    ensures { IfOk result (λ b. (s : SetUp) (st : State) → IsTurnOf turn.now s st
        → b ≡ same_effect (first_get (turn_in turn.now s st) here (is_filled s st turn.now.work.now.what.key) (next_source (turn_in turn.now s st))) (effect_of turn.now.told.now)) }
{
    if here {
        first_get(alloc, turn, true, false, None)
    } else {
        let filled = is_filled(turn.repos, turn.state, &turn.work.what.key);
        let source = next_source(turn);
        first_get(alloc, turn, false, filled, source)
    }
}

fn gets_first(alloc: Global, turn: &Turn) -> Result<bool, NoMemory>
    requires { turn.now.work.now.part ≢ Part.Drops }
    ensures { IfOk result (λ b. (s : SetUp) (st : State) → IsTurnOf turn.now s st → b ≡ same_effect (first_step (turn_in turn.now s st) Gets) (effect_of turn.now.told.now)) }
{
    let here = turn.is_there();
    let made = starts_get(alloc, turn, here)?;
    let failing = turn.fails(Call::Has);
    Ok(turn.attempts(failing, None, made))
}

fn puts_first(alloc: Global, turn: &Turn) -> Result<bool, NoMemory>
    requires { turn.now.work.now.part ≢ Part.Drops }
    ensures { IfOk result (λ b. (s : SetUp) (st : State) → b ≡ same_effect (first_step (turn_in turn.now s st) Puts) (effect_of turn.now.told.now)) }
{
    let here = turn.is_there();
    let made = first_put(alloc, turn, here, turn.work.what.peer)?;
    let failing = turn.fails(Call::Has);
    Ok(turn.attempts(failing, None, made))
}

fn drops_first(turn: &Turn, knowing: Option<&Knowing>) -> Result<bool, NoMemory>
    requires enough { KnowsEnough turn.now (option_copied knowing) }
    requires part { turn.now.work.now.part ≡ Part.Drops }
    ensures { IfOk result (λ b. (s : SetUp) (st : State) → IsReadBy turn.now (option_copied knowing.entry) s st
        → b ≡ same_effect (first_drop (turn_in turn.now s st) (side_of (turn_in turn.now s st).w)) (effect_of turn.now.told.now)) }
{
    let known = known(turn, knowing);
    known.first_drop()
}

/// The first step of a part of the job.
fn first_step(alloc: Global, turn: &Turn, knowing: Option<&Knowing>) -> Result<bool, NoMemory>
    requires { KnowsEnough turn.now (option_copied knowing) }
    ensures { IfOk result (λ b. (s : SetUp) (st : State) → IsTurnOf turn.now s st → IsReadBy turn.now (option_copied knowing.entry) s st
        → b ≡ same_effect (first_step (turn_in turn.now s st) (part_of turn.now.work.now.part)) (effect_of turn.now.told.now)) }
{
    match turn.work.part {
        Part::Gets => gets_first(alloc, turn),
        Part::Puts => puts_first(alloc, turn),
        Part::Drops => drops_first(turn, knowing),
    }
}

fn drops_next(alloc: Global, turn: &Turn, knowing: Option<&Knowing>) -> Result<bool, NoMemory>
    requires enough { KnowsEnough turn.now (option_copied knowing) }
    requires part { turn.now.work.now.part ≡ Part.Drops }
    ensures { IfOk result (λ b. (s : SetUp) (st : State) → IsReadBy turn.now (option_copied knowing.entry) s st
        → b ≡ same_effect (next_step (turn_in turn.now s st) (part_of turn.now.work.now.part)) (effect_of turn.now.told.now)) }
{
    let known = known(turn, knowing);
    judges(alloc, known)
}

fn transfers_next(alloc: Global, turn: &Turn) -> Result<bool, NoMemory>
    requires { turn.now.work.now.part ≢ Part.Drops }
    ensures { IfOk result (λ b. (s : SetUp) (st : State) → b ≡ same_effect (next_step (turn_in turn.now s st) (part_of turn.now.work.now.part)) (effect_of turn.now.told.now)) }
{
    let source = next_source(turn);
    next_get(alloc, turn, source)
}

/// The job goes on to its next peer, or judges.
fn next_step(alloc: Global, turn: &Turn, knowing: Option<&Knowing>) -> Result<bool, NoMemory>
    requires { KnowsEnough turn.now (option_copied knowing) }
    ensures { IfOk result (λ b. (s : SetUp) (st : State) → IsReadBy turn.now (option_copied knowing.entry) s st
        → b ≡ same_effect (next_step (turn_in turn.now s st) (part_of turn.now.work.now.part)) (effect_of turn.now.told.now)) }
{
    match turn.work.part {
        Part::Drops => drops_next(alloc, turn, knowing),
        _ => transfers_next(alloc, turn),
    }
}

/// The job ends with the removal that it made or ordered.
fn ends_removed(alloc: Global, turn: &Turn, knowing: Option<&Knowing>) -> Result<bool, NoMemory>
    requires enough { KnowsEnough turn.now (option_copied knowing) }
    requires phase { turn.now.work.now.phase ≡ Phase.Removed }
    ensures { IfOk result (λ b. (s : SetUp) (st : State) → IsReadBy turn.now (option_copied knowing.entry) s st
        → b ≡ same_effect (ends (turn_in turn.now s st) None (removal_outcome (side_of (turn_in turn.now s st).w) (turn_in turn.now s st))) (effect_of turn.now.told.now)) }
{
    let known = known(turn, knowing);
    known.is_removed(alloc)
}

/// The locks had expired at this time.
fn ends_late(turn: &Turn, knowing: Option<&Knowing>, time: u64) -> bool
    requires enough { KnowsEnough turn.now (option_copied knowing) }
    requires phase { turn.now.work.now.phase ≡ Phase.Late time }
    ensures { (s : SetUp) (st : State) → IsReadBy turn.now (option_copied knowing.entry) s st
        → result ≡ same_effect (ends (turn_in turn.now s st) None (expiry ((turn_in turn.now s st).clock time) (first_end (turn_in turn.now s st)))) (effect_of turn.now.told.now) }
{
    let known = known(turn, knowing);
    known.expires(time)
}

/// How many bytes the next piece has, where so many are left.
fn piece_of(left: u64) -> u64
    ensures { result ≡ min 32768 left }
{
    if left < 32768 { left } else { 32768 }
}

/// Whether the entry is the step of a job that takes no frame.
pub(crate) fn goes(alloc: Global, turn: &Turn, knowing: Option<&Knowing>) -> Result<bool, NoMemory>
    requires { KnowsEnough turn.now (option_copied knowing) }
    ensures { IfOk result (λ b. (s : SetUp) (st : State) → IsTurnOf turn.now s st → IsReadBy turn.now (option_copied knowing.entry) s st
        → b ≡ same_effect (goes (turn_in turn.now s st) (phase_of turn.now.work.now.phase)) (effect_of turn.now.told.now)) }
{
    match turn.work.phase {
        Phase::Fresh => first_step(alloc, turn, knowing),
        Phase::Next => next_step(alloc, turn, knowing),
        Phase::PutsBytes { peer, at, left, .. } => {
            Ok(puts_piece(turn, peer, at, piece_of(left)))
        }
        Phase::PutsWord { peer, .. } => {
            Ok(turn.says_to(turn.talks(), None, peer, &Message::Valid))
        }
        Phase::Removed => ends_removed(alloc, turn, knowing),
        Phase::Denied => Ok(denied(turn)),
        Phase::Late { time } => Ok(ends_late(turn, knowing, time)),
        Phase::Ends(ending) => Ok(ends_as(turn, ending)),
        _ => Ok(ends_untransferred(turn, TransferRefusal::Closed)),
    }
}
