//! Whether the frames that an entry sends are those that an end sends next.
ghost use Rattle.std.specs.Prelude.{◌≡◌, ◌&&◌, ◌==◌, ◌+◌, ◌++◌, ◌∷◌, [], List};
ghost use Rattle.std.specs.Option.{option_copied};
ghost use Rattle.annex_base.specs.Bools.{same_bool};
ghost use Rattle.run_data.specs.declared.entry.FrameText.TheVariants as texts;
ghost use Rattle.run_data.specs.declared.entry.FrameView.{FrameView};
ghost use Rattle.p2p_wire.specs.Messages.{order_of, text_of};
ghost use Rattle.p2p_wire.specs.declared.message.Message.TheVariants.{Error, Timestamp, UnlockContent};
ghost use Rattle.node_model.specs.Ends.{frames};
ghost use Rattle.step_judging.specs.Same.{same_body, same_frame, same_frames};
ghost use Rattle.step_effects.specs.Sendings.{frame_told, name_of, rest_told, second_close};

use crate::frames::{is_bytes, says_nothing};
use crate::names::same_bool;
use crate::texts::{is_error, is_order, is_text, is_time, is_unlock};
use annex_key::Key;
use p2p_wire::Message;
use run_data::{FrameText, FrameView};
use state_ends::Standing;

/// An end of a connection of a repository, and how it stands (own).
#[derive(Clone, Copy, Debug)]
pub struct EndAt {
    pub peer: u32,
    pub slot: u32,
    pub client: bool,
    pub was: Standing,
}

/// Whether the number comes after so many.
fn follows(before: u128, number: u64) -> bool
    ensures { result ≡ (before + 1 == number) }
{
    number > 0 && before == u128::from(number - 1)
}

fn follows_second(before: u128, number: u64) -> bool
    ensures { result ≡ (before + 1 + 1 == number) }
{
    number > 1 && before == u128::from(number - 2)
}

/// Whether the end sends the frame.
fn is_at(at: &EndAt, frame: &FrameView) -> bool
    ensures { result ≡ ((at.now.peer == frame.now.peer) && (at.now.slot == frame.now.slot) && same_bool at.now.client frame.now.up) }
{
    at.peer == frame.peer && at.slot == frame.slot && same_bool(at.client, frame.up)
}

/// Whether the frame is the next after so many.
fn has_next(was: Standing, frame: &FrameView) -> bool
    ensures { result ≡ ((was.epoch == frame.now.epoch) && (was.sent + 1 == frame.now.seq)) }
{
    was.epoch == u128::from(frame.epoch) && follows(was.sent, frame.seq)
}

/// Whether it is the one after that.
fn has_second(was: Standing, frame: &FrameView) -> bool
    ensures { result ≡ ((was.epoch == frame.now.epoch) && (was.sent + 1 + 1 == frame.now.seq)) }
{
    was.epoch == u128::from(frame.epoch) && follows_second(was.sent, frame.seq)
}

/// Whether it is the first of the next opening.
fn has_first(was: Standing, frame: &FrameView) -> bool
    ensures { result ≡ ((was.epoch + 1 == frame.now.epoch) && (1 == frame.now.seq)) }
{
    follows(was.epoch, u64::from(frame.epoch)) && frame.seq == 1
}

fn is_next(at: &EndAt, frame: &FrameView) -> bool
    ensures { result ≡ ((at.now.peer == frame.now.peer) && (at.now.slot == frame.now.slot) && same_bool at.now.client frame.now.up && (at.now.was.epoch == frame.now.epoch) && (at.now.was.sent + 1 == frame.now.seq)) }
{
    is_at(at, frame) && has_next(at.was, frame)
}

fn is_second(at: &EndAt, frame: &FrameView) -> bool
    ensures { result ≡ ((at.now.peer == frame.now.peer) && (at.now.slot == frame.now.slot) && same_bool at.now.client frame.now.up && (at.now.was.epoch == frame.now.epoch) && (at.now.was.sent + 1 + 1 == frame.now.seq)) }
{
    is_at(at, frame) && has_second(at.was, frame)
}

fn is_first(at: &EndAt, frame: &FrameView) -> bool
    ensures { result ≡ ((at.now.peer == frame.now.peer) && (at.now.slot == frame.now.slot) && same_bool at.now.client frame.now.up && (at.now.was.epoch + 1 == frame.now.epoch) && (1 == frame.now.seq)) }
{
    is_at(at, frame) && has_first(at.was, frame)
}

fn is_opening(body: &FrameText) -> bool
    ensures { result ≡ same_body texts.Opening body.now }
{
    matches!(body, FrameText::Opening)
}

fn is_closing(body: &FrameText) -> bool
    ensures { result ≡ same_body texts.Closing body.now }
{
    matches!(body, FrameText::Closing)
}

fn is_line(body: &FrameText, message: &Message) -> bool
    ensures { result ≡ same_body (texts.Line (text_of message.now)) body.now }
{
    match body {
        FrameText::Line(text) => is_text(text.bytes(), message),
        _ => false,
    }
}

fn is_time_line(body: &FrameText, time: u128) -> bool
    ensures { result ≡ same_body (texts.Line (text_of (Timestamp time))) body.now }
{
    match body {
        FrameText::Line(text) => is_time(text.bytes(), time),
        _ => false,
    }
}

fn is_order_line(body: &FrameText, deadline: Option<u128>, key: &Key) -> bool
    ensures { result ≡ same_body (texts.Line (text_of (order_of deadline key.now))) body.now }
{
    match body {
        FrameText::Line(text) => is_order(text.bytes(), deadline, key),
        _ => false,
    }
}

fn is_unlock_line(body: &FrameText, key: &Key) -> bool
    ensures { result ≡ same_body (texts.Line (text_of (UnlockContent key.now))) body.now }
{
    match body {
        FrameText::Line(text) => is_unlock(text.bytes(), key),
        _ => false,
    }
}

fn is_error_line(body: &FrameText, error: &[u8]) -> bool
    ensures { result ≡ same_body (texts.Line (text_of (Error error.now))) body.now }
{
    match body {
        FrameText::Line(text) => is_error(text.bytes(), error),
        _ => false,
    }
}

/// The frame, if it is the only one.
fn only(sent: &[FrameView]) -> Option<&FrameView>
    ensures { (frame : FrameView) → same_frames (frame ∷ []) sent.now ≡ frame_told frame (option_copied result) }
{
    match sent.split_first() {
        Some((frame, rest)) => {
            if says_nothing(rest) {
                Some(frame)
            } else {
                None
            }
        }
        None => None,
    }
}

/// Whether the frame that is sent opens the connection.
pub fn opens(at: EndAt, sent: &[FrameView]) -> bool
    ensures { result ≡ same_frames (frames (name_of at) at.was (texts.Opening ∷ [])) sent.now }
{
    match only(sent) {
        Some(frame) => is_first(&at, frame) && is_opening(&frame.body),
        None => false,
    }
}

/// Whether the frame that is sent closes it.
pub fn closes(at: EndAt, sent: &[FrameView]) -> bool
    ensures { result ≡ same_frames (frames (name_of at) at.was (texts.Closing ∷ [])) sent.now }
{
    match only(sent) {
        Some(frame) => is_next(&at, frame) && is_closing(&frame.body),
        None => false,
    }
}

/// Whether the frame that is sent gives so many bytes.
pub fn gives(at: EndAt, count: u64, sent: &[FrameView]) -> bool
    ensures { result ≡ same_frames (frames (name_of at) at.was (texts.Bytes count ∷ [])) sent.now }
{
    match only(sent) {
        Some(frame) => is_next(&at, frame) && is_bytes(&frame.body, count),
        None => false,
    }
}

/// Whether the frame that is sent says the message.
pub fn says(at: EndAt, message: &Message, sent: &[FrameView]) -> bool
    ensures { result ≡ same_frames (frames (name_of at) at.was (texts.Line (text_of message.now) ∷ [])) sent.now }
{
    match only(sent) {
        Some(frame) => is_next(&at, frame) && is_line(&frame.body, message),
        None => false,
    }
}

/// Whether the frame that is sent says the error.
pub fn says_error(at: EndAt, error: &[u8], sent: &[FrameView]) -> bool
    ensures { result ≡ same_frames (frames (name_of at) at.was (texts.Line (text_of (Error error.now)) ∷ [])) sent.now }
{
    match only(sent) {
        Some(frame) => is_next(&at, frame) && is_error_line(&frame.body, error),
        None => false,
    }
}

/// Whether the frame that is sent tells a time, in seconds.
pub fn says_time(at: EndAt, time: u128, sent: &[FrameView]) -> bool
    ensures { result ≡ same_frames (frames (name_of at) at.was (texts.Line (text_of (Timestamp time)) ∷ [])) sent.now }
{
    match only(sent) {
        Some(frame) => is_next(&at, frame) && is_time_line(&frame.body, time),
        None => false,
    }
}

/// Whether the frame that is sent orders the removal of the key, with this deadline, in seconds, or without one.
pub fn says_order(at: EndAt, deadline: Option<u128>, key: &Key, sent: &[FrameView]) -> bool
    ensures { result ≡ same_frames (frames (name_of at) at.was (texts.Line (text_of (order_of deadline key.now)) ∷ [])) sent.now }
{
    match only(sent) {
        Some(frame) => is_next(&at, frame) && is_order_line(&frame.body, deadline, key),
        None => false,
    }
}

/// Whether the frame that is sent is the second, and closes the connection.
fn closes_second(at: &EndAt, frame: &FrameView) -> bool
    ensures { result ≡ same_frame (second_close at.now) frame.now }
{
    is_second(at, frame) && is_closing(&frame.body)
}

fn only_closes_second(at: &EndAt, sent: &[FrameView]) -> bool
    ensures { result ≡ same_frames (second_close at.now ∷ []) sent.now }
{
    match only(sent) {
        Some(frame) => closes_second(at, frame),
        None => false,
    }
}

/// Whether the two frames that are sent say the error and close the connection.
pub fn says_error_and_closes(at: EndAt, error: &[u8], sent: &[FrameView]) -> bool
    ensures { result ≡ same_frames (frames (name_of at) at.was (texts.Line (text_of (Error error.now)) ∷ texts.Closing ∷ [])) sent.now }
{
    match sent.split_first() {
        Some((frame, rest)) => {
            is_next(&at, frame)
                && is_error_line(&frame.body, error)
                && only_closes_second(&at, rest)
        }
        None => false,
    }
}

/// The frames but the first, if that is told.
fn past(told: bool, rest: &[FrameView]) -> Option<&[FrameView]>
    ensures { (more : List FrameView) → (told && same_frames more rest.now) ≡ rest_told more (option_copied result) }
{
    if told { Some(rest) } else { None }
}

/// The frames that are left after the close of the connection, if it comes first.
pub fn past_close(at: EndAt, sent: &[FrameView]) -> Option<&[FrameView]>
    ensures { (more : List FrameView) → same_frames (frames (name_of at) at.was (texts.Closing ∷ []) ++ more) sent.now ≡ rest_told more (option_copied result) }
{
    match sent.split_first() {
        Some((frame, rest)) => past(is_next(&at, frame) && is_closing(&frame.body), rest),
        None => None,
    }
}

fn past_second_close<'a>(at: &EndAt, sent: &'a [FrameView]) -> Option<&'a [FrameView]>
    ensures { (more : List FrameView) → same_frames (second_close at.now ∷ more) sent.now ≡ rest_told more (option_copied result) }
{
    match sent.split_first() {
        Some((frame, rest)) => past(closes_second(at, frame), rest),
        None => None,
    }
}

/// The frames that are left after the one that gives back the lock of the key and the one that closes the connection, if they
/// come first.
pub fn past_unlock<'a>(at: EndAt, key: &Key, sent: &'a [FrameView]) -> Option<&'a [FrameView]>
    ensures { (more : List FrameView) → same_frames (frames (name_of at) at.was (texts.Line (text_of (UnlockContent key.now)) ∷ texts.Closing ∷ []) ++ more) sent.now ≡ rest_told more (option_copied result) }
{
    match sent.split_first() {
        Some((frame, rest)) => {
            if is_next(&at, frame) && is_unlock_line(&frame.body, key) {
                past_second_close(&at, rest)
            } else {
                None
            }
        }
        None => None,
    }
}
