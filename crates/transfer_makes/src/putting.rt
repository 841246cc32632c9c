//! The steps of a copy.
ghost use Rattle.std.specs.Prelude.{◌≡◌, ◌≢◌, ◌+◌, ◌∷◌, [], if◌then◌else◌, bytes_eq, codes, nat_le, true, false, IfOk};
ghost use Rattle.run_data.specs.declared.entry.FrameText.TheVariants.{Bytes, Closing};
ghost use Rattle.node_model.specs.JobStep.{says_to, sends_to, talk, wrong_message};
ghost use Rattle.node_model.specs.Jobs.{PutsAnswer, PutsOffer};
ghost use Rattle.node_model.specs.Sessions.{reaches};
ghost use Rattle.node_model.specs.SessionStep.{bytes_left};
ghost use Rattle.node_model.specs.SetUp.{SetUp};
ghost use Rattle.node_model.specs.State.{State};
ghost use Rattle.node_model.specs.TransferStep.{content_of, first_put, puts_from, puts_piece, takes_put};
ghost use Rattle.job_makes.specs.Turns.{turn_in};
ghost use Rattle.state_jobs.specs.Phases.{phase_of};
ghost use Rattle.state_jobs.specs.declared.phase.Part.TheVariants as parts;
ghost use Rattle.step_judging.specs.Rules.{effect_of};
ghost use Rattle.step_judging.specs.Same.{same_effect};

use crate::requests::goes_to;
use annex_base::{Call, NoMemory, Text};
use job_makes::Turn;
use p2p_wire::Message;
use run_data::{FrameView, Outcome, TransferRefusal};
use state_jobs::Phase;
use std::alloc::Global;

fn is_not_here(turn: &Turn) -> bool
    ensures { (s : SetUp) (st : State) → result ≡ same_effect (first_put (turn_in turn.now s st) false None) (effect_of turn.now.told.now) }
{
    turn.ends_as(None, &Outcome::TransferRefused(TransferRefusal::NotHere))
}

/// A copy goes to its peer.
fn puts_to(alloc: Global, turn: &Turn, peer: Option<u32>) -> Result<bool, NoMemory>
    requires { turn.now.work.now.part ≢ parts.Drops }
    ensures { IfOk result (λ b. (s : SetUp) (st : State) → b ≡ same_effect (first_put (turn_in turn.now s st) true peer) (effect_of turn.now.told.now)) }
{
    match peer {
        Some(peer) => goes_to(alloc, turn, peer),
        None => Ok(is_not_here(turn)),
    }
}

/// Whether the entry is the first step of a copy to this peer, where the content is there or not.
pub fn first_put(
    alloc: Global,
    turn: &Turn,
    here: bool,
    peer: Option<u32>,
) -> Result<bool, NoMemory>
    requires { turn.now.work.now.part ≢ parts.Drops }
    ensures { IfOk result (λ b. (s : SetUp) (st : State) → b ≡ same_effect (first_put (turn_in turn.now s st) here peer) (effect_of turn.now.told.now)) }
{
    if here {
        puts_to(alloc, turn, peer)
    } else {
        Ok(is_not_here(turn))
    }
}

/// The size of the job's content, if it is there.
fn content_of(turn: &Turn) -> Option<u64>
    ensures { (s : SetUp) (st : State) → result ≡ content_of (turn_in turn.now s st) }
{
    turn.rows.size(&turn.work.what.key)
}

fn reaches(content: Option<u64>, place: u64) -> bool
    ensures { result ≡ reaches content place }
{
    match content {
        Some(size) => place <= size,
        None => false,
    }
}

fn bytes_left(content: Option<u64>, place: u64) -> u64
    ensures { result ≡ bytes_left content place }
{
    match content {
        Some(size) => size.saturating_sub(place),
        None => 0,
    }
}

/// The peer has bytes up to this place; past the size, the connection is closed.
fn answers_from(turn: &Turn, frame: &FrameView, peer: u32, start: u64) -> bool
    ensures { (s : SetUp) (st : State) → result ≡ same_effect (if reaches (content_of (turn_in turn.now s st)) start
        then says_to (turn_in turn.now s st) (talk (turn_in turn.now s st)) (Some frame.now) peer (Message.Data (bytes_left (content_of (turn_in turn.now s st)) start))
        else wrong_message (turn_in turn.now s st) frame.now peer) (effect_of turn.now.told.now) }
{
    let content = content_of(turn);
    if reaches(content, start) {
        let message = Message::Data(bytes_left(content, start));
        turn.says_to(turn.talks(), Some(frame), peer, &message)
    } else {
        turn.wrong_message(frame, peer)
    }
}

fn puts_from(turn: &Turn, frame: &FrameView, peer: u32, start: u64) -> bool
    ensures { (s : SetUp) (st : State) → result ≡ same_effect (puts_from (turn_in turn.now s st) frame.now peer start) (effect_of turn.now.told.now) }
{
    let made = answers_from(turn, frame, peer, start);
    turn.attempts(turn.fails(Call::Size), Some(frame), made)
}

fn has_bytes(size: u64, at: u128, count: u64) -> bool
    ensures { result ≡ nat_le (at + count) size }
{
    let size = u128::from(size);
    at <= size && u128::from(count) <= size - at
}

/// Whether the content has so many bytes from this place on.
fn reaches_past(content: Option<u64>, at: u128, count: u64) -> bool
    ensures { result ≡ reaches content (at + count) }
{
    match content {
        Some(size) => has_bytes(size, at, count),
        None => false,
    }
}

fn gives_piece(turn: &Turn, peer: u32, at: u128, count: u64) -> bool
    ensures { (s : SetUp) (st : State) → result ≡ same_effect (sends_to (turn_in turn.now s st) (talk (turn_in turn.now s st)) None peer
        ((if reaches (content_of (turn_in turn.now s st)) (at + count) then Bytes count else Closing) ∷ [])) (effect_of turn.now.told.now) }
{
    if reaches_past(content_of(turn), at, count) {
        turn.gives_to(peer, count)
    } else {
        turn.closes_to(None, peer)
    }
}

/// Whether it is the step that gives so many bytes of the content from this place on; where it hasn't them, the connection is closed.
pub fn puts_piece(turn: &Turn, peer: u32, at: u128, count: u64) -> bool
    ensures { (s : SetUp) (st : State) → result ≡ same_effect (puts_piece (turn_in turn.now s st) peer at count) (effect_of turn.now.told.now) }
{
    let made = gives_piece(turn, peer, at, count);
    turn.attempts(turn.fails(Call::Read), None, made)
}

// At a literal this proves sooner than `==`.
fn same(text: &[u8], other: &[u8]) -> bool
    ensures { result ≡ bytes_eq text.now other.now }
{
    text == other
}

fn is_busy(text: &Text) -> bool
    ensures { result ≡ bytes_eq text.now (codes "busy") }
{
    same(text.bytes(), b"busy")
}

/// Another transfer fills the key there.
fn hears_error(turn: &Turn, frame: &FrameView, peer: u32, text: &Text) -> bool
    ensures { (s : SetUp) (st : State) → result ≡ same_effect (takes_put (turn_in turn.now s st) frame.now peer (PutsOffer peer) (Message.Error text.now)) (effect_of turn.now.told.now) }
{
    if is_busy(text) {
        turn.hears(frame)
    } else {
        turn.wrong_message(frame, peer)
    }
}

fn takes_offered(turn: &Turn, frame: &FrameView, peer: u32, message: &Message) -> bool
    ensures { (s : SetUp) (st : State) → result ≡ same_effect (takes_put (turn_in turn.now s st) frame.now peer (PutsOffer peer) message.now) (effect_of turn.now.told.now) }
{
    match message {
        Message::AlreadyHave => turn.hears(frame),
        Message::Failure => turn.hears(frame),
        Message::Error(text) => hears_error(turn, frame, peer, text),
        Message::PutFrom(start) => puts_from(turn, frame, peer, *start),
        _ => turn.wrong_message(frame, peer),
    }
}

fn takes_verdict(turn: &Turn, frame: &FrameView, peer: u32, message: &Message) -> bool
    ensures { (s : SetUp) (st : State) → result ≡ same_effect (takes_put (turn_in turn.now s st) frame.now peer (PutsAnswer peer 0) message.now) (effect_of turn.now.told.now) }
{
    match message {
        Message::Success => turn.hears(frame),
        Message::Failure => turn.hears(frame),
        _ => turn.wrong_message(frame, peer),
    }
}

/// Whether it is the step of a copy that takes a message.
pub fn takes_put(turn: &Turn, frame: &FrameView, peer: u32, phase: Phase, message: &Message) -> bool
    ensures { (s : SetUp) (st : State) → result ≡ same_effect (takes_put (turn_in turn.now s st) frame.now peer (phase_of phase) message.now) (effect_of turn.now.told.now) }
{
    match phase {
        Phase::PutsOffer { .. } => takes_offered(turn, frame, peer, message),
        Phase::PutsAnswer { .. } => takes_verdict(turn, frame, peer, message),
        _ => turn.wrong_message(frame, peer),
    }
}
