//! The steps of a get.
ghost use Rattle.std.specs.Prelude.{◌≡◌, ◌≢◌, ◌&&◌, ◌∷◌, [], nat_le, nat_lt, true, false, IfOk};
ghost use Rattle.std.specs.Option.{option_copied};
ghost use Rattle.run_data.specs.declared.job.Outcome.TheVariants.{TransferRefused};
ghost use Rattle.run_data.specs.declared.job.TransferRefusal.TheVariants as failures;
ghost use Rattle.node_model.specs.Calls.{to_commit};
ghost use Rattle.node_model.specs.JobStep.{attempts, quietly, talk};
ghost use Rattle.node_model.specs.Jobs.{GetsBytes, GetsData, GetsWord, is_move};
ghost use Rattle.node_model.specs.Look.{failing_call};
ghost use Rattle.node_model.specs.SetUp.{SetUp};
ghost use Rattle.node_model.specs.State.{State};
ghost use Rattle.node_model.specs.TransferStep.{first_get, gains, next_get, takes_bytes, takes_get};
ghost use Rattle.job_makes.specs.Turns.{turn_in};
ghost use Rattle.state_jobs.specs.Phases.{phase_of};
ghost use Rattle.state_jobs.specs.declared.phase.Part.TheVariants as parts;
ghost use Rattle.step_effects.specs.Outcomes.{outcome_told};
ghost use Rattle.step_judging.specs.Rules.{effect_of};
ghost use Rattle.step_judging.specs.Same.{same_effect};
ghost use Rattle.step_judging.specs.Telling.{matches_told};

use crate::requests::goes_to;
use annex_base::{Call, NoMemory};
use job_makes::Turn;
use p2p_wire::Message;
use run_data::{FrameView, JobKind, Outcome, SourceFailure, TransferRefusal};
use state_jobs::Phase;
use std::alloc::Global;
use step_effects::{is_gain, matches_told, same_failures};

/// Whether a job of this kind goes on with its drop.
fn is_move(kind: JobKind) -> bool
    ensures { result ≡ is_move kind }
{
    matches!(kind, JobKind::MoveTo | JobKind::MoveFrom)
}

/// The content is there already.
fn finds(turn: &Turn) -> bool
    ensures { (s : SetUp) (st : State) → result ≡ same_effect (first_get (turn_in turn.now s st) true false None) (effect_of turn.now.told.now) }
{
    if is_move(turn.work.what.kind) {
        turn.quietly(turn.talks(), None)
    } else {
        let outcome = Outcome::Got {
            source: None,
            start: None,
        };
        turn.ends_as(None, &outcome)
    }
}

/// Another job or a session fills the key.
fn is_busy(turn: &Turn) -> bool
    ensures { (s : SetUp) (st : State) → result ≡ same_effect (first_get (turn_in turn.now s st) false true None) (effect_of turn.now.told.now) }
{
    turn.ends_as(None, &Outcome::TransferRefused(TransferRefusal::Busy))
}

/// Whether the entry is the first step of a get, where the content is there or not, the key is filled or not, and this is its source.
pub fn first_get(
    alloc: Global,
    turn: &Turn,
    here: bool,
    filled: bool,
    source: Option<u32>,
) -> Result<bool, NoMemory>
    requires { turn.now.work.now.part ≢ parts.Drops }
    ensures { IfOk result (λ b. (s : SetUp) (st : State) → b ≡ same_effect (first_get (turn_in turn.now s st) here filled source) (effect_of turn.now.told.now)) }
{
    if here {
        return Ok(finds(turn));
    }
    if filled {
        return Ok(is_busy(turn));
    }
    match source {
        Some(peer) => goes_to(alloc, turn, peer),
        None => Ok(turn.quietly(turn.talks(), None)),
    }
}

fn is_without_source(told: Option<&Outcome>, causes: &[SourceFailure]) -> bool
    ensures { result ≡ outcome_told (TransferRefused (failures.NoSource causes.now)) (option_copied told.entry) }
{
    match told {
        Some(Outcome::TransferRefused(TransferRefusal::NoSource { causes: other })) => {
            same_failures(causes, other.as_slice())
        }
        _ => false,
    }
}

/// No peer is left.
fn gives_up(turn: &Turn) -> bool
    ensures { (s : SetUp) (st : State) → result ≡ same_effect (next_get (turn_in turn.now s st) None) (effect_of turn.now.told.now) }
{
    let outcome_is = is_without_source(turn.ended(), &turn.work.causes);
    turn.ends(None, outcome_is, false)
}

/// Whether it is the step of a get that goes on to this source, or has none left.
pub fn next_get(alloc: Global, turn: &Turn, source: Option<u32>) -> Result<bool, NoMemory>
    requires { turn.now.work.now.part ≢ parts.Drops }
    ensures { IfOk result (λ b. (s : SetUp) (st : State) → b ≡ same_effect (next_get (turn_in turn.now s st) source) (effect_of turn.now.told.now)) }
{
    match source {
        Some(peer) => goes_to(alloc, turn, peer),
        None => Ok(gives_up(turn)),
    }
}

/// The bytes are there: they match the key, or don't.
fn gains(turn: &Turn, frame: &FrameView, peer: u32, size: u128, right: bool) -> bool
    ensures { (s : SetUp) (st : State) → result ≡ same_effect (gains (turn_in turn.now s st) frame.now peer size right) (effect_of turn.now.told.now) }
{
    if right {
        let kind_is = is_gain(&turn.told.kind, turn.by_me(), size, &turn.work.what.key);
        turn.says_to(kind_is, Some(frame), peer, &Message::Success)
    } else {
        turn.says_to(turn.talks(), Some(frame), peer, &Message::Failure)
    }
}

fn failing_commit(turn: &Turn, right: bool) -> Option<Call>
    ensures { (s : SetUp) (st : State) → result ≡ failing_call (turn_in turn.now s st).look.fails (to_commit right) }
{
    if right {
        turn.fails(Call::Commit)
    } else {
        turn.fails(Call::DropPart)
    }
}

/// The source says that the bytes are good.
fn commits(turn: &Turn, frame: &FrameView, peer: u32, size: u128) -> bool
    ensures { (s : SetUp) (st : State) → result ≡ same_effect (takes_get (turn_in turn.now s st) frame.now peer (GetsWord peer 0 size) Message.Valid) (effect_of turn.now.told.now) }
{
    let right = matches_told(&turn.told.kind);
    let made = gains(turn, frame, peer, size, right);
    turn.attempts(failing_commit(turn, right), Some(frame), made)
}

fn takes_data(turn: &Turn, frame: &FrameView, peer: u32, message: &Message) -> bool
    ensures { (s : SetUp) (st : State) → result ≡ same_effect (takes_get (turn_in turn.now s st) frame.now peer (GetsData peer 0) message.now) (effect_of turn.now.told.now) }
{
    match message {
        Message::Data(_) => turn.hears(frame),
        _ => turn.wrong_message(frame, peer),
    }
}

fn takes_word(turn: &Turn, frame: &FrameView, peer: u32, size: u128, message: &Message) -> bool
    ensures { (s : SetUp) (st : State) → result ≡ same_effect (takes_get (turn_in turn.now s st) frame.now peer (GetsWord peer 0 size) message.now) (effect_of turn.now.told.now) }
{
    match message {
        Message::Valid => commits(turn, frame, peer, size),
        Message::Invalid => turn.says_to(turn.talks(), Some(frame), peer, &Message::Failure),
        _ => turn.wrong_message(frame, peer),
    }
}

/// Whether it is the step of a get that takes a message.
pub fn takes_get(turn: &Turn, frame: &FrameView, peer: u32, phase: Phase, message: &Message) -> bool
    ensures { (s : SetUp) (st : State) → result ≡ same_effect (takes_get (turn_in turn.now s st) frame.now peer (phase_of phase) message.now) (effect_of turn.now.told.now) }
{
    match phase {
        Phase::GetsData { .. } => takes_data(turn, frame, peer, message),
        Phase::GetsWord { size, .. } => takes_word(turn, frame, peer, size, message),
        _ => turn.wrong_message(frame, peer),
    }
}

/// Bytes are appended to the part.
fn appends(turn: &Turn, frame: &FrameView) -> bool
    ensures { (s : SetUp) (st : State) → result ≡ same_effect (attempts (turn_in turn.now s st) (Call.Append ∷ []) (Some frame.now) (quietly (talk (turn_in turn.now s st)) (Some frame.now))) (effect_of turn.now.told.now) }
{
    let made = turn.quietly(turn.talks(), Some(frame));
    turn.attempts(turn.fails(Call::Append), Some(frame), made)
}

/// Whether it is the step of a job that takes so many bytes.
pub fn takes_bytes(turn: &Turn, frame: &FrameView, peer: u32, count: u64, phase: Phase) -> bool
    ensures { (s : SetUp) (st : State) → result ≡ same_effect (takes_bytes (turn_in turn.now s st) frame.now peer count (phase_of phase)) (effect_of turn.now.told.now) }
{
    match phase {
        Phase::GetsBytes { left, .. } => takes_piece(turn, frame, peer, count, left),
        _ => turn.wrong_message(frame, peer),
    }
}

fn is_piece(count: u64, left: u64) -> bool
    ensures { result ≡ (nat_lt 0 count && nat_le count left) }
{
    0 < count && count <= left
}

/// No more bytes come than are left.
fn takes_piece(turn: &Turn, frame: &FrameView, peer: u32, count: u64, left: u64) -> bool
    ensures { (s : SetUp) (st : State) → result ≡ same_effect (takes_bytes (turn_in turn.now s st) frame.now peer count (GetsBytes peer 0 0 left)) (effect_of turn.now.told.now) }
{
    if is_piece(count, left) {
        appends(turn, frame)
    } else {
        turn.wrong_message(frame, peer)
    }
}
