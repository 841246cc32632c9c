//! The answers of a session to what it hears, by what it does.
ghost use Rattle.std.specs.Prelude.{◌≡◌, ◌&&◌, ◌<◌, ◌^◌, ℕ, Bool, List, length, nat_le, nat_lt, IfOk};
ghost use Rattle.run_data.specs.declared.entry.By.TheVariants.{Peer};
ghost use Rattle.run_data.specs.declared.entry.EntryKind.TheVariants.{Release, Talk};
ghost use Rattle.node_model.specs.Calls.{to_commit};
ghost use Rattle.node_model.specs.Sessions as sessions;
ghost use Rattle.node_model.specs.SessionStep.{failure_line, is_filled, on_bytes, on_frame, on_message, on_text, on_unlock, on_valid, silent_reply, tries, valid_answer};
ghost use Rattle.node_model.specs.SetUp.{SetUp};
ghost use Rattle.node_model.specs.State.{State};
ghost use Rattle.state_sessions.specs.Doings.{as_session, doing_of};
ghost use Rattle.step_state.specs.States.{IsStateOf};
ghost use Rattle.session_makes.specs.Scenes.{here_in, is_reply};

use crate::answers::is_verdict;
use crate::calls::{commit_calls, tries};
use crate::replies::{
    fails, hears, is_left, is_shut, is_silent, is_unexpected, or_unexpected, sent, shuts, talks,
};
use crate::requests::requests;
use crate::scene::Scene;
use annex_base::{Call, NoMemory};
use annex_key::Key;
use p2p_wire::Message;
use run_data::FrameText;
use state_sessions::{Doing, Session};
use std::alloc::Global;
use step_effects::{is_release, matches_told, says_nothing};

fn releases(scene: &Scene<'_>, hold: u64, key: &Key) -> bool
    ensures { result ≡ is_reply scene.now (silent_reply (Release hold key.now)) }
{
    is_release(&scene.told.kind, hold, key) && says_nothing(sent(scene))
}

/// A locked key is given back.
fn unlocks(scene: &Scene<'_>, hold: u64, key: &Key, given: &Key) -> bool
    ensures { (filled : List ℕ → Bool) → result ≡ is_reply scene.now (on_unlock (here_in scene.now filled) hold key.now given.now) }
{
    let released = releases(scene, hold, key);
    let good = tries(scene, &[Call::Unhold], is_silent(scene), released);
    or_unexpected(scene, *given == *key, good)
}

fn commits_by(scene: &Scene<'_>, key: &Key, size: u128, right: bool) -> bool
    ensures { (filled : List ℕ → Bool) → result ≡ is_reply scene.now (tries (here_in scene.now filled) (to_commit right) failure_line (valid_answer (Peer scene.now.at.peer scene.now.at.slot) size key.now right)) }
{
    tries(
        scene,
        commit_calls(right),
        fails(scene),
        is_verdict(scene, key, size, right),
    )
}

/// The bytes are said to be good.
fn commits(scene: &Scene<'_>, key: &Key, size: u128) -> bool
    ensures { (filled : List ℕ → Bool) → result ≡ is_reply scene.now (on_valid (here_in scene.now filled) key.now size) }
{
    commits_by(scene, key, size, matches_told(&scene.told.kind))
}

/// A message, of a session that guards a key.
fn guards(scene: &Scene<'_>, hold: u64, key: &Key, message: &Message) -> bool
    ensures { (filled : List ℕ → Bool) (v : ℕ) → result ≡ is_reply scene.now (on_message (here_in scene.now filled) v (sessions.Guards hold key.now) message.now) }
{
    match message {
        Message::Error(_) => is_shut(scene),
        Message::UnlockContent(given) => unlocks(scene, hold, key, given),
        _ => is_unexpected(scene),
    }
}

/// Of one that gives bytes.
fn gives(scene: &Scene<'_>, message: &Message) -> bool
    ensures { (filled : List ℕ → Bool) (v : ℕ) (key : List ℕ) (at left : ℕ) (good : Bool) → result ≡ is_reply scene.now (on_message (here_in scene.now filled) v (sessions.Gives key at left good) message.now) }
{
    match message {
        Message::Error(_) => is_shut(scene),
        _ => is_unexpected(scene),
    }
}

/// Of one that has given them.
fn gave(scene: &Scene<'_>, message: &Message) -> bool
    ensures { (filled : List ℕ → Bool) (v : ℕ) → result ≡ is_reply scene.now (on_message (here_in scene.now filled) v sessions.Gave message.now) }
{
    match message {
        Message::Error(_) => is_shut(scene),
        Message::Success | Message::Failure => hears(scene),
        _ => is_unexpected(scene),
    }
}

/// Of one that is to hear how many bytes come.
fn wants(scene: &Scene<'_>, message: &Message) -> bool
    ensures { (filled : List ℕ → Bool) (v : ℕ) (key : List ℕ) (size : ℕ) → result ≡ is_reply scene.now (on_message (here_in scene.now filled) v (sessions.Wants key size) message.now) }
{
    match message {
        Message::Error(_) => is_shut(scene),
        Message::Data(_) => hears(scene),
        _ => is_unexpected(scene),
    }
}

/// Of one that takes them.
fn takes(scene: &Scene<'_>, message: &Message) -> bool
    ensures { (filled : List ℕ → Bool) (v : ℕ) (key : List ℕ) (size left : ℕ) → result ≡ is_reply scene.now (on_message (here_in scene.now filled) v (sessions.Takes key size left) message.now) }
{
    match message {
        Message::Error(_) => is_shut(scene),
        _ => is_unexpected(scene),
    }
}

/// Of one that has taken them.
fn took(scene: &Scene<'_>, key: &Key, size: u128, message: &Message) -> bool
    ensures { (filled : List ℕ → Bool) (v : ℕ) → result ≡ is_reply scene.now (on_message (here_in scene.now filled) v (sessions.Took key.now size) message.now) }
{
    match message {
        Message::Error(_) => is_shut(scene),
        Message::Valid => commits(scene, key, size),
        Message::Invalid => talks(scene, &Message::Failure),
        _ => is_unexpected(scene),
    }
}

/// Of one that waits for a request.
fn waits(scene: &Scene<'_>, version: u64, message: &Message) -> bool
    requires { length scene.now.repos.now < 2 ^ 32 }
    ensures { (s : SetUp) (st : State) → s.repos ≡ scene.now.repos.now → IsStateOf scene.now.state.now s st
        → result ≡ is_reply scene.now (on_message (here_in scene.now (is_filled s st)) version sessions.Waits message.now) }
{
    match message {
        Message::Error(_) => is_shut(scene),
        _ => requests(scene, version, message),
    }
}

fn hears_message(scene: &Scene<'_>, version: u64, doing: &Doing, message: &Message) -> bool
    requires { length scene.now.repos.now < 2 ^ 32 }
    ensures { (s : SetUp) (st : State) → s.repos ≡ scene.now.repos.now → IsStateOf scene.now.state.now s st
        → result ≡ is_reply scene.now (on_message (here_in scene.now (is_filled s st)) version (doing_of doing.now) message.now) }
{
    match doing {
        Doing::Waits => waits(scene, version, message),
        Doing::Guards { hold, key } => guards(scene, *hold, key, message),
        Doing::Gives { .. } => gives(scene, message),
        Doing::Gave => gave(scene, message),
        Doing::Wants { .. } => wants(scene, message),
        Doing::Takes { .. } => takes(scene, message),
        Doing::Took { key, size } => took(scene, key, *size, message),
    }
}

fn is_within(count: u64, left: u64) -> bool
    ensures { result ≡ (nat_lt 0 count && nat_le count left) }
{
    0 < count && count <= left
}

/// A piece of a content, no longer than what is left.
fn appends(scene: &Scene<'_>, count: u64, left: u64) -> bool
    ensures { (filled : List ℕ → Bool) (key : List ℕ) (size : ℕ) → result ≡ is_reply scene.now (on_bytes (here_in scene.now filled) count (sessions.Takes key size left)) }
{
    let good = tries(scene, &[Call::Append], shuts(scene), hears(scene));
    or_unexpected(scene, is_within(count, left), good)
}

fn hears_bytes(scene: &Scene<'_>, count: u64, doing: &Doing) -> bool
    ensures { (filled : List ℕ → Bool) → result ≡ is_reply scene.now (on_bytes (here_in scene.now filled) count (doing_of doing.now)) }
{
    match doing {
        Doing::Takes { left, .. } => appends(scene, count, *left),
        _ => is_unexpected(scene),
    }
}

fn hears_text(scene: &Scene<'_>, session: &Session, message: &Option<Message>) -> bool
    requires { length scene.now.repos.now < 2 ^ 32 }
    ensures { (s : SetUp) (st : State) → s.repos ≡ scene.now.repos.now → IsStateOf scene.now.state.now s st
        → result ≡ is_reply scene.now (on_text (here_in scene.now (is_filled s st)) (as_session session.now) message.now) }
{
    match message {
        Some(message) => hears_message(scene, session.version, &session.doing, message),
        None => is_unexpected(scene),
    }
}

/// The answer of the session to a frame.
pub(crate) fn hears_frame(
    alloc: Global,
    scene: &Scene<'_>,
    session: &Session,
    body: &FrameText,
) -> Result<bool, NoMemory>
    requires { length scene.now.repos.now < 2 ^ 32 }
    ensures { IfOk result (λ b. (s : SetUp) (st : State) → s.repos ≡ scene.now.repos.now → IsStateOf scene.now.state.now s st
        → b ≡ is_reply scene.now (on_frame (here_in scene.now (is_filled s st)) (as_session session.now) body.now)) }
{
    match body {
        FrameText::Opening => Ok(talks(scene, &Message::AuthSuccess(scene.id))),
        FrameText::Closing => Ok(is_left(scene)),
        FrameText::Bytes(count) => Ok(hears_bytes(scene, *count, &session.doing)),
        FrameText::Line(text) => {
            let message = Message::read(alloc, text.bytes())?;
            Ok(hears_text(scene, session, &message))
        }
    }
}
