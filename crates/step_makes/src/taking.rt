//! The steps of a job that take a frame.
ghost use Rattle.std.specs.Prelude.{◌≡◌, nat_le, IfOk};
ghost use Rattle.node_model.specs.DropStep.{takes_drop};
ghost use Rattle.node_model.specs.Jobs.{Greets};
ghost use Rattle.node_model.specs.Requests.{asks};
ghost use Rattle.node_model.specs.SetUp.{SetUp};
ghost use Rattle.node_model.specs.State.{State};
ghost use Rattle.node_model.specs.Turns.{takes, takes_answer, takes_frame, takes_text};
ghost use Rattle.std.specs.Option.{option_copied};
ghost use Rattle.p2p_wire.specs.Messages.{message_of};
ghost use Rattle.job_makes.specs.Turns.{turn_in};
ghost use Rattle.state_jobs.specs.Phases.{part_of, phase_of};
ghost use Rattle.step_judging.specs.Rules.{effect_of};
ghost use Rattle.step_judging.specs.Same.{same_effect};
ghost use Rattle.step_makes.specs.Knowledge.{IsReadBy, KnowsEnough};

use crate::known::known;
use annex_base::{NoMemory, Text};
use drop_makes::Knowing;
use job_makes::Turn;
use p2p_wire::Message;
use run_data::{FrameText, FrameView};
use state_jobs::{Part, Phase};
use std::alloc::Global;
use transfer_makes::{asks, takes_bytes, takes_get, takes_put};

fn drops_take(
    turn: &Turn,
    knowing: Option<&Knowing>,
    frame: &FrameView,
    peer: u32,
    message: &Message,
) -> Result<bool, NoMemory>
    requires enough { KnowsEnough turn.now (option_copied knowing) }
    requires part { turn.now.work.now.part ≡ Part.Drops }
    ensures { IfOk result (λ b. (s : SetUp) (st : State) → IsReadBy turn.now (option_copied knowing.entry) s st
        → b ≡ same_effect (takes_drop (turn_in turn.now s st) frame.now peer (phase_of turn.now.work.now.phase) message.now) (effect_of turn.now.told.now)) }
{
    let known = known(turn, knowing);
    known.takes_drop(frame, peer, message)
}

/// An answer to the job's request.
fn takes_answer(
    turn: &Turn,
    knowing: Option<&Knowing>,
    frame: &FrameView,
    peer: u32,
    message: &Message,
) -> Result<bool, NoMemory>
    requires { KnowsEnough turn.now (option_copied knowing) }
    ensures { IfOk result (λ b. (s : SetUp) (st : State) → IsReadBy turn.now (option_copied knowing.entry) s st
        → b ≡ same_effect (takes_answer (turn_in turn.now s st) frame.now peer (part_of turn.now.work.now.part) (phase_of turn.now.work.now.phase) message.now) (effect_of turn.now.told.now)) }
{
    let phase = turn.work.phase;
    match turn.work.part {
        Part::Gets => Ok(takes_get(turn, frame, peer, phase, message)),
        Part::Puts => Ok(takes_put(turn, frame, peer, phase, message)),
        Part::Drops => drops_take(turn, knowing, frame, peer, message),
    }
}

fn drops_ask(
    turn: &Turn,
    knowing: Option<&Knowing>,
    version: u64,
    frame: &FrameView,
    peer: u32,
) -> Result<bool, NoMemory>
    requires enough { KnowsEnough turn.now (option_copied knowing) }
    requires part { turn.now.work.now.part ≡ Part.Drops }
    ensures { IfOk result (λ b. (s : SetUp) (st : State) → IsReadBy turn.now (option_copied knowing.entry) s st
        → b ≡ same_effect (asks (turn_in turn.now s st) version (Some frame.now) peer (part_of turn.now.work.now.part)) (effect_of turn.now.told.now)) }
{
    let known = known(turn, knowing);
    known.asks_copy(version, Some(frame), peer)
}

/// The first request on the connection that is opened now, with this version.
fn asks_first(
    alloc: Global,
    turn: &Turn,
    knowing: Option<&Knowing>,
    version: u64,
    frame: &FrameView,
    peer: u32,
) -> Result<bool, NoMemory>
    requires { KnowsEnough turn.now (option_copied knowing) }
    ensures { IfOk result (λ b. (s : SetUp) (st : State) → IsReadBy turn.now (option_copied knowing.entry) s st
        → b ≡ same_effect (asks (turn_in turn.now s st) version (Some frame.now) peer (part_of turn.now.work.now.part)) (effect_of turn.now.told.now)) }
{
    match turn.work.part {
        Part::Drops => drops_ask(turn, knowing, version, frame, peer),
        _ => asks(alloc, turn, Some(frame), peer),
    }
}

fn is_known_version(version: u64) -> bool
    ensures { result ≡ nat_le version 3 }
{
    version <= 3
}

/// The version that the peer answers is agreed on, unless it is greater than 3.
fn takes_version(
    alloc: Global,
    turn: &Turn,
    knowing: Option<&Knowing>,
    version: u64,
    frame: &FrameView,
    peer: u32,
) -> Result<bool, NoMemory>
    requires { KnowsEnough turn.now (option_copied knowing) }
    ensures { IfOk result (λ b. (s : SetUp) (st : State) → IsReadBy turn.now (option_copied knowing.entry) s st
        → b ≡ same_effect (takes (turn_in turn.now s st) frame.now peer (Greets peer) (Message.Version version)) (effect_of turn.now.told.now)) }
{
    if is_known_version(version) {
        asks_first(alloc, turn, knowing, version, frame, peer)
    } else {
        Ok(turn.wrong_message(frame, peer))
    }
}

/// The connection is being opened.
fn takes_opened(
    turn: &Turn,
    knowing: Option<&Knowing>,
    frame: &FrameView,
    peer: u32,
    at: u32,
    message: &Message,
) -> Result<bool, NoMemory>
    requires enough { KnowsEnough turn.now (option_copied knowing) }
    requires phase { turn.now.work.now.phase ≡ Phase.Opens at }
    ensures { IfOk result (λ b. (s : SetUp) (st : State) → IsReadBy turn.now (option_copied knowing.entry) s st
        → b ≡ same_effect (takes (turn_in turn.now s st) frame.now peer (phase_of turn.now.work.now.phase) message.now) (effect_of turn.now.told.now)) }
{
    match message {
        Message::AuthSuccess(_) => {
            Ok(turn.says_to(turn.talks(), Some(frame), peer, &Message::Version(3)))
        }
        _ => takes_answer(turn, knowing, frame, peer, message),
    }
}

/// The version is being agreed on.
fn takes_greeted(
    alloc: Global,
    turn: &Turn,
    knowing: Option<&Knowing>,
    frame: &FrameView,
    peer: u32,
    at: u32,
    message: &Message,
) -> Result<bool, NoMemory>
    requires enough { KnowsEnough turn.now (option_copied knowing) }
    requires phase { turn.now.work.now.phase ≡ Phase.Greets at }
    ensures { IfOk result (λ b. (s : SetUp) (st : State) → IsReadBy turn.now (option_copied knowing.entry) s st
        → b ≡ same_effect (takes (turn_in turn.now s st) frame.now peer (phase_of turn.now.work.now.phase) message.now) (effect_of turn.now.told.now)) }
{
    match message {
        Message::Version(version) => takes_version(alloc, turn, knowing, *version, frame, peer),
        _ => takes_answer(turn, knowing, frame, peer, message),
    }
}

fn takes(
    alloc: Global,
    turn: &Turn,
    knowing: Option<&Knowing>,
    frame: &FrameView,
    peer: u32,
    message: &Message,
) -> Result<bool, NoMemory>
    requires { KnowsEnough turn.now (option_copied knowing) }
    ensures { IfOk result (λ b. (s : SetUp) (st : State) → IsReadBy turn.now (option_copied knowing.entry) s st
        → b ≡ same_effect (takes (turn_in turn.now s st) frame.now peer (phase_of turn.now.work.now.phase) message.now) (effect_of turn.now.told.now)) }
{
    match turn.work.phase {
        Phase::Opens { peer: at } => takes_opened(turn, knowing, frame, peer, at, message),
        Phase::Greets { peer: at } => takes_greeted(alloc, turn, knowing, frame, peer, at, message),
        _ => takes_answer(turn, knowing, frame, peer, message),
    }
}

fn takes_read(
    alloc: Global,
    turn: &Turn,
    knowing: Option<&Knowing>,
    frame: &FrameView,
    peer: u32,
    read: &Option<Message>,
) -> Result<bool, NoMemory>
    requires { KnowsEnough turn.now (option_copied knowing) }
    ensures { IfOk result (λ b. (s : SetUp) (st : State) → IsReadBy turn.now (option_copied knowing.entry) s st
        → b ≡ same_effect (takes_text (turn_in turn.now s st) frame.now peer read.now) (effect_of turn.now.told.now)) }
{
    match read {
        Some(message) => takes(alloc, turn, knowing, frame, peer, message),
        None => Ok(turn.wrong_message(frame, peer)),
    }
}

fn takes_text(
    alloc: Global,
    turn: &Turn,
    knowing: Option<&Knowing>,
    frame: &FrameView,
    peer: u32,
    text: &Text,
) -> Result<bool, NoMemory>
    requires { KnowsEnough turn.now (option_copied knowing) }
    ensures { IfOk result (λ b. (s : SetUp) (st : State) → IsReadBy turn.now (option_copied knowing.entry) s st
        → b ≡ same_effect (takes_text (turn_in turn.now s st) frame.now peer (message_of text.now)) (effect_of turn.now.told.now)) }
{
    let read = Message::read(alloc, text.bytes())?;
    takes_read(alloc, turn, knowing, frame, peer, &read)
}

/// Whether the entry is the step of a job that takes this frame of its partner.
pub(crate) fn takes_frame(
    alloc: Global,
    turn: &Turn,
    knowing: Option<&Knowing>,
    frame: &FrameView,
    peer: u32,
) -> Result<bool, NoMemory>
    requires { KnowsEnough turn.now (option_copied knowing) }
    ensures { IfOk result (λ b. (s : SetUp) (st : State) → IsReadBy turn.now (option_copied knowing.entry) s st
        → b ≡ same_effect (takes_frame (turn_in turn.now s st) peer frame.now frame.now.body) (effect_of turn.now.told.now)) }
{
    match &frame.body {
        FrameText::Opening => Ok(turn.wrong_message(frame, peer)),
        FrameText::Closing => Ok(turn.hears(frame)),
        FrameText::Bytes(count) => Ok(takes_bytes(turn, frame, peer, *count, turn.work.phase)),
        FrameText::Line(text) => takes_text(alloc, turn, knowing, frame, peer, text),
    }
}
