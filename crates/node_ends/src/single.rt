//! What is done at one end.
ghost use Rattle.std.specs.Prelude.{◌≡◌, ◌+◌, ◌<◌, ◌≤◌, ◌^◌, ◌-◌, ◌&&◌, ◌∷◌, [], true, false, nat_lt, not, Some, is_some};
ghost use Rattle.std.specs.Option.{option_copied};
ghost use Rattle.link_ring.specs.declared.frame.Body.TheVariants as bodies;
ghost use Rattle.link_ring.specs.Ends.{StaysPaired, after_send, after_take, free, next_frame};
ghost use Rattle.link_ring.specs.Frames.{is_close_body, is_closed};
ghost use Rattle.node_model.specs.Ends.{frames};
ghost use Rattle.node_ends.specs.Changes.{frame_waiting, is_open_body, may_frame};
ghost use Rattle.node_ends.specs.Ends.{has_room, name_of, stands, text_in};
ghost use Rattle.node_ends.specs.Invariant.{may_close};
ghost use Rattle.node_ends.specs.Sent.{IsListed, has_places, link_may, link_sends, text_of_sending};

use crate::name::EndId;
use crate::sending::Sending;
use annex_base::{EntryStamp, Word};
use link_ring::{Body, End, Frame, Phase};
use run_data::{FrameText, FrameView};

/// No machine sends so many frames.
const COUNT_LIMIT: u64 = 4_611_686_018_427_387_904;

pub(crate) fn is_open(end: &End) -> bool
    ensures { result ≡ not (is_closed end.now.phase) }
{
    match end.phase() {
        Phase::Closed => false,
        Phase::Opening | Phase::Open => true,
    }
}

fn has_number(sent: u64) -> bool
    ensures { result ≡ nat_lt (sent + 1) (2 ^ 62) }
{
    sent < COUNT_LIMIT - 1
}

fn has_numbers(sent: u64, epoch: u32) -> bool
    ensures { result ≡ (nat_lt (sent + 1) (2 ^ 62) && nat_lt epoch (2 ^ 32 - 1)) }
{
    has_number(sent) && epoch < u32::MAX
}

pub(crate) fn has_room(end: &mut End) -> bool
    ensures room { result ≡ has_room end.old }
    ensures same { end.new ≡ end.old }
{
    let room = end.room();
    let numbers = has_numbers(end.sent(), end.epoch());
    room && numbers
}

// Whether a frame that opens nothing has a place beside the Close.
fn has_places(end: &mut End) -> bool
    ensures places { result ≡ has_places end.old }
    ensures same { end.new ≡ end.old }
{
    let room = end.room();
    let number = has_number(end.sent());
    room && number
}

// Whether the end may send it.
pub(crate) fn may_send(end: &mut End, said: &Sending) -> bool
    ensures may { result ≡ link_may (text_of_sending said.now) end.old }
    ensures same { end.new ≡ end.old }
{
    match said {
        Sending::Open => has_room(end),
        Sending::Close => is_open(end),
        Sending::Line { .. } | Sending::Bytes(_) => has_places(end),
    }
}

fn is_opening(body: &Body) -> bool
    ensures { result ≡ is_open_body body.now }
{
    match body {
        Body::Open => true,
        Body::Line(_) | Body::Bytes(_) | Body::Close => false,
    }
}

// Whether the end may take the frame.
fn may_take(end: &End, frame: &Frame) -> bool
    ensures { result ≡ may_frame end.now frame.now }
{
    if is_opening(&frame.body) {
        !is_open(end) && end.epoch() < frame.epoch
    } else {
        is_open(end) && frame.epoch == end.epoch()
    }
}

pub(crate) fn waiting(end: &End) -> Option<&Frame>
    ensures { option_copied result ≡ frame_waiting end.now }
{
    let frame = end.first()?;
    if may_take(end, frame) {
        Some(frame)
    } else {
        None
    }
}

pub(crate) fn take(end: &mut End) -> Frame
    requires room { has_room end.old ≡ true }
    requires close { may_close end.old ≡ true }
    requires first { is_some (next_frame end.old) ≡ true }
    ensures frame { Some result ≡ next_frame end.old }
    ensures link { end.new ≡ after_take end.old }
    ensures close { may_close end.new ≡ true }
    ensures paired { StaysPaired end.old end.new }
{
    let Some(frame) = end.take() else {
        unreachable!();
    };
    frame
}

fn view_of(id: EndId, epoch: u32, seq: u64, body: FrameText) -> FrameView
    ensures { result ≡ record { peer = id.peer; slot = id.slot; up = id.client; epoch = epoch; seq = seq; body = body } }
{
    FrameView {
        peer: id.peer,
        slot: id.slot,
        up: id.client,
        epoch,
        seq,
        body,
    }
}

// Sends a frame other than a Close.
fn send_body(end: &mut End, sender: EntryStamp, word: Option<Word>, body: Body)
    requires places { 2 ≤ free end.old }
    requires few { end.old.sent + 1 < 2 ^ 62 }
    requires other { is_close_body body ≡ false }
    ensures link { end.new ≡ after_send end.old (record { sender = sender; epoch = end.old.epoch; seq = end.old.sent + 1; word = word; body = body }) }
    ensures close { may_close end.old ≡ true → may_close end.new ≡ true }
    ensures paired { StaysPaired end.old end.new }
{
    let frame = Frame {
        sender,
        epoch: end.epoch(),
        seq: end.sent() + 1,
        word,
        body,
    };
    let Ok(()) = end.send(frame) else {
        unreachable!();
    };
}

fn send_close(end: &mut End, sender: EntryStamp, word: Option<Word>)
    requires open { is_closed end.old.phase ≡ false }
    requires close { may_close end.old ≡ true }
    ensures link { end.new ≡ after_send end.old (record { sender = sender; epoch = end.old.epoch; seq = end.old.sent + 1; word = word; body = bodies.Close }) }
    ensures close { may_close end.new ≡ true }
    ensures paired { StaysPaired end.old end.new }
{
    let frame = Frame {
        sender,
        epoch: end.epoch(),
        seq: end.sent() + 1,
        word,
        body: Body::Close,
    };
    let Ok(()) = end.send(frame) else {
        unreachable!();
    };
}

// Sends it, and gives it as the entry lists it.
fn sends(end: &mut End, sender: EntryStamp, word: Option<Word>, said: Sending) -> FrameText
    requires may { link_may (text_of_sending said) end.old ≡ true }
    requires close { may_close end.old ≡ true }
    requires listed { IsListed said }
    ensures listed { result ≡ text_of_sending said }
    ensures link { end.new ≡ link_sends sender word said end.old }
    ensures close { may_close end.new ≡ true }
    ensures paired { StaysPaired end.old end.new }
{
    match said {
        Sending::Open => {
            end.open();
            send_body(end, sender, word, Body::Open);
            FrameText::Opening
        }
        Sending::Close => {
            send_close(end, sender, word);
            FrameText::Closing
        }
        Sending::Line { line, listed } => {
            send_body(end, sender, word, Body::Line(line));
            FrameText::Line(listed)
        }
        Sending::Bytes(bytes) => {
            let count = bytes.bytes().len() as u64;
            send_body(end, sender, word, Body::Bytes(bytes));
            FrameText::Bytes(count)
        }
    }
}

pub(crate) fn send(
    end: &mut End,
    id: EndId,
    sender: EntryStamp,
    word: Option<Word>,
    said: Sending,
) -> FrameView
    requires may { link_may (text_of_sending said) end.old ≡ true }
    requires close { may_close end.old ≡ true }
    requires listed { IsListed said }
    ensures view { frames (name_of id) (stands end.old) (text_of_sending said ∷ []) ≡ result ∷ [] }
    ensures link { end.new ≡ link_sends sender word said end.old }
    ensures close { may_close end.new ≡ true }
    ensures paired { StaysPaired end.old end.new }
{
    let body = sends(end, sender, word, said);
    view_of(id, end.epoch(), end.sent(), body)
}
