//! The answers of a session by the row of a key.
ghost use Rattle.std.specs.Prelude.{◌≡◌, ◌+◌, true, None, codes};
ghost use Rattle.run_data.specs.declared.entry.By.TheVariants.{Peer};
ghost use Rattle.run_data.specs.declared.entry.EntryKind.TheVariants as kinds;
ghost use Rattle.node_model.specs.Clocks.{hold_time};
ghost use Rattle.node_model.specs.SessionStep.{check_answer, lock_answer, put_answer, remove_answer, reply, valid_answer};
ghost use Rattle.step_judging.specs.Telling.{first_line, part_told};
ghost use Rattle.session_makes.specs.Scenes.{is_reply};

use crate::replies::{by, sent, talks};
use crate::scene::Scene;
use annex_base::Found;
use annex_key::Key;
use p2p_wire::Message;
use step_effects::{is_check, is_gain, is_gone, is_share, is_talk, part_told, says, says_error};

/// How long a hold lasts, in milliseconds: ten minutes.
const HOLD_TIME: u128 = 600_000;

/// The row was looked at, and this is said.
pub(crate) fn finds(scene: &Scene<'_>, found: Found, key: &Key, message: &Message) -> bool
    ensures { result ≡ is_reply scene.now (reply (kinds.Check found key.now) message.now) }
{
    is_check(&scene.told.kind, found, key) && says(scene.at, message, sent(scene))
}

pub(crate) fn is_checked(scene: &Scene<'_>, key: &Key, here: bool, bar: Option<u32>) -> bool
    ensures { result ≡ is_reply scene.now (check_answer key.now here bar) }
{
    match (here, bar) {
        (false, _) => finds(scene, Found::Absent, key, &Message::Failure),
        (true, Some(_)) => finds(scene, Found::Barred, key, &Message::Failure),
        (true, None) => finds(scene, Found::Present, key, &Message::Success),
    }
}

/// The key is shared.
fn shares(scene: &Scene<'_>, key: &Key) -> bool
    ensures { result ≡ is_reply scene.now (reply (kinds.Share scene.now.number (scene.now.clock + hold_time) (Peer scene.now.at.peer scene.now.at.slot) key.now) Message.Success) }
{
    is_share(
        &scene.told.kind,
        scene.number,
        scene.clock + HOLD_TIME,
        by(scene),
        key,
    ) && says(scene.at, &Message::Success, sent(scene))
}

fn is_locked_here(scene: &Scene<'_>, key: &Key, here: bool, bar: Option<u32>) -> bool
    ensures { result ≡ is_reply scene.now (lock_answer scene.now.number (scene.now.clock + hold_time) (Peer scene.now.at.peer scene.now.at.slot) key.now true here bar) }
{
    match (here, bar) {
        (false, _) => finds(scene, Found::Absent, key, &Message::Failure),
        (true, Some(_)) => finds(scene, Found::Barred, key, &Message::Failure),
        (true, None) => shares(scene, key),
    }
}

pub(crate) fn is_locked(scene: &Scene<'_>, key: &Key, here: bool, bar: Option<u32>) -> bool
    ensures { result ≡ is_reply scene.now (lock_answer scene.now.number (scene.now.clock + hold_time) (Peer scene.now.at.peer scene.now.at.slot) key.now scene.now.locks here bar) }
{
    if scene.locks {
        is_locked_here(scene, key, here, bar)
    } else {
        finds(scene, Found::Nolock, key, &Message::Failure)
    }
}

/// The content is removed.
fn removes(scene: &Scene<'_>, key: &Key) -> bool
    ensures { result ≡ is_reply scene.now (reply (kinds.Gone (Peer scene.now.at.peer scene.now.at.slot) key.now) Message.Success) }
{
    is_gone(&scene.told.kind, by(scene), key) && says(scene.at, &Message::Success, sent(scene))
}

pub(crate) fn is_removed(
    scene: &Scene<'_>,
    key: &Key,
    here: bool,
    bar: Option<u32>,
    blocked: bool,
) -> bool
    ensures { result ≡ is_reply scene.now (remove_answer (Peer scene.now.at.peer scene.now.at.slot) key.now here bar blocked) }
{
    match (here, bar, blocked) {
        (false, _, _) => finds(scene, Found::Absent, key, &Message::Success),
        (true, Some(_), _) => finds(scene, Found::Barred, key, &Message::Failure),
        (true, None, true) => finds(scene, Found::Held, key, &Message::Failure),
        (true, None, false) => removes(scene, key),
    }
}

/// The size of the part, in bytes.
pub(crate) fn part(scene: &Scene<'_>) -> u64
    ensures { result ≡ part_told scene.now.told.now.kind (first_line scene.now.told.now.sent) }
{
    part_told(scene.told)
}

fn is_busy(scene: &Scene<'_>) -> bool
    ensures { result ≡ is_reply scene.now (reply (kinds.Talk None) (Message.Error (codes "busy"))) }
{
    is_talk(&scene.told.kind, None) && says_error(scene.at, b"busy", sent(scene))
}

pub(crate) fn is_offered(scene: &Scene<'_>, part: u64, here: bool, filled: bool) -> bool
    ensures { result ≡ is_reply scene.now (reply (kinds.Talk None) (put_answer part here filled)) }
{
    match (here, filled) {
        (true, _) => talks(scene, &Message::AlreadyHave),
        (false, true) => is_busy(scene),
        (false, false) => talks(scene, &Message::PutFrom(part)),
    }
}

/// The content comes, of this size in bytes.
fn gains(scene: &Scene<'_>, key: &Key, size: u128) -> bool
    ensures { result ≡ is_reply scene.now (reply (kinds.Gain (Peer scene.now.at.peer scene.now.at.slot) size key.now) Message.Success) }
{
    is_gain(&scene.told.kind, by(scene), size, key)
        && says(scene.at, &Message::Success, sent(scene))
}

pub(crate) fn is_verdict(scene: &Scene<'_>, key: &Key, size: u128, right: bool) -> bool
    ensures { result ≡ is_reply scene.now (valid_answer (Peer scene.now.at.peer scene.now.at.slot) size key.now right) }
{
    if right {
        gains(scene, key, size)
    } else {
        talks(scene, &Message::Failure)
    }
}
