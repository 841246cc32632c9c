//! Whether a job hears that its peer has the content: what it takes, and what it had asked.

ghost use Rattle.std.specs.Prelude.{◌≡◌, IfOk, Some, false, option_copied, option_map, reverse};
ghost use Rattle.run_model.specs.Frames.{last_of};
ghost use Rattle.run_model.specs.Logs.{has_it, hears_has_it};
ghost use Rattle.run_model.specs.Said.{Says, is_request, message_in, wants_answer};
ghost use Rattle.crashed_jobs.specs.Looks.{asked_before, asked_by, asked_frames, asks_on, goes_there, last_asked, said_in, was_valid};

use annex_base::NoMemory;
use p2p_wire::Message;
use run_data::{Entry, FrameText, FrameView};
use std::alloc::Global;

/// Whether a job of the repository hears by the frame that its peer has the content; the entries before stand in order.
#[tactic(auto, unfolding(run_model::specs::Said::message_in))]
pub(crate) fn hears_has_it(
    alloc: Global,
    before: &[Entry],
    repo: u32,
    frame: &FrameView,
) -> Result<bool, NoMemory>
    ensures { IfOk result (λ b. b ≡ hears_has_it (reverse before.now) repo (Some frame.now)) }
{
    if frame.up {
        return Ok(false);
    }
    match &frame.body {
        FrameText::Line(text) => match Message::read(alloc, text.bytes())? {
            Some(message) => has_it(alloc, before, repo, frame, &message),
            None => Ok(false),
        },
        FrameText::Opening | FrameText::Closing | FrameText::Bytes(_) => Ok(false),
    }
}

/// Whether the message of the frame, which a server sent, says so.
fn has_it(
    alloc: Global,
    before: &[Entry],
    repo: u32,
    frame: &FrameView,
    message: &Message,
) -> Result<bool, NoMemory>
    requires { frame.now.up ≡ false }
    ensures { IfOk result (λ b. b ≡ has_it (Says message.now) (asked_before (reverse before.now) repo frame.now)) }
{
    match message {
        Message::AlreadyHave => Ok(true),
        Message::Success => asked_valid(alloc, before, repo, frame),
        _ => Ok(false),
    }
}

/// Whether the last request on the frame's connection was VALID.
fn asked_valid(
    alloc: Global,
    before: &[Entry],
    repo: u32,
    frame: &FrameView,
) -> Result<bool, NoMemory>
    requires { frame.now.up ≡ false }
    ensures { IfOk result (λ b. b ≡ was_valid (asked_before (reverse before.now) repo frame.now)) }
{
    let asked = last_request(alloc, before, repo, frame)?;
    was_valid(alloc, asked)
}

fn was_valid(alloc: Global, asked: Option<&FrameView>) -> Result<bool, NoMemory>
    ensures { IfOk result (λ b. b ≡ was_valid (option_map said_in (option_copied asked.entry))) }
{
    match asked {
        Some(frame) => is_valid(alloc, &frame.body),
        None => Ok(false),
    }
}

/// The last request that the repository sent on the connection of a frame that it takes.
fn last_request<'a>(
    alloc: Global,
    before: &'a [Entry],
    repo: u32,
    frame: &FrameView,
) -> Result<Option<&'a FrameView>, NoMemory>
    ensures { IfOk result (λ o. option_copied o ≡ last_of (asked_frames (reverse before.now) repo frame.now)) }
{
    let mut rest = before;
    while let Some((last, earlier)) = rest.split_last() {
        match asked_by(alloc, last, repo, frame)? {
            Some(asked) => return Ok(Some(asked)),
            None => rest = earlier,
        }
    }
    Ok(None)
}

/// The last request there that an entry sent, if it is one of the repository.
fn asked_by<'a>(
    alloc: Global,
    entry: &'a Entry,
    repo: u32,
    frame: &FrameView,
) -> Result<Option<&'a FrameView>, NoMemory>
    ensures { IfOk result (λ o. option_copied o ≡ last_of (asked_by repo frame.now entry.now)) }
{
    if entry.repo == Some(repo) {
        last_asked(alloc, entry.sent.as_slice(), frame)
    } else {
        Ok(None)
    }
}

fn last_asked<'a>(
    alloc: Global,
    sent: &'a [FrameView],
    frame: &FrameView,
) -> Result<Option<&'a FrameView>, NoMemory>
    ensures { IfOk result (λ o. option_copied o ≡ last_asked frame.now sent.now) }
{
    let mut rest = sent;
    while let Some((last, earlier)) = rest.split_last() {
        if asks_on(alloc, frame, last)? {
            return Ok(Some(last));
        }
        rest = earlier;
    }
    Ok(None)
}

/// Whether the second frame is a request on the connection of the first.
fn asks_on(alloc: Global, frame: &FrameView, sent: &FrameView) -> Result<bool, NoMemory>
    ensures { IfOk result (λ b. b ≡ asks_on frame.now sent.now) }
{
    if goes_there(frame, sent) {
        is_request(alloc, &sent.body)
    } else {
        Ok(false)
    }
}

fn goes_there(frame: &FrameView, sent: &FrameView) -> bool
    ensures { result ≡ goes_there frame.now sent.now }
{
    sent.peer == frame.peer && sent.slot == frame.slot && sent.up && sent.epoch == frame.epoch
}

#[tactic(auto, unfolding(run_model::specs::Said::message_in))]
fn is_request(alloc: Global, body: &FrameText) -> Result<bool, NoMemory>
    ensures { IfOk result (λ b. b ≡ is_request (message_in body.now)) }
{
    match body {
        FrameText::Opening => Ok(true),
        FrameText::Line(text) => match Message::read(alloc, text.bytes())? {
            Some(message) => Ok(wants_answer(&message)),
            None => Ok(false),
        },
        FrameText::Closing | FrameText::Bytes(_) => Ok(false),
    }
}

/// Whether a client's message wants an answer.
fn wants_answer(message: &Message) -> bool
    ensures { result ≡ wants_answer message.now }
{
    match message {
        Message::Version(_)
        | Message::CheckPresent(_)
        | Message::LockContent(_)
        | Message::Remove(_)
        | Message::RemoveBefore { .. }
        | Message::GetTimestamp
        | Message::Get { .. }
        | Message::Put { .. }
        | Message::Valid
        | Message::Invalid => true,
        _ => false,
    }
}

#[tactic(auto, unfolding(run_model::specs::Said::message_in))]
fn is_valid(alloc: Global, body: &FrameText) -> Result<bool, NoMemory>
    ensures { IfOk result (λ b. b ≡ was_valid (Some (message_in body.now))) }
{
    match body {
        FrameText::Line(text) => match Message::read(alloc, text.bytes())? {
            Some(message) => Ok(is_valid_message(&message)),
            None => Ok(false),
        },
        FrameText::Opening | FrameText::Closing | FrameText::Bytes(_) => Ok(false),
    }
}

fn is_valid_message(message: &Message) -> bool
    ensures { result ≡ was_valid (Some (Says message.now)) }
{
    match message {
        Message::Valid => true,
        _ => false,
    }
}
