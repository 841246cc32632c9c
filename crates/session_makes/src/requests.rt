//! The answers of a session to requests.
ghost use Rattle.std.specs.Prelude.{◌≡◌, ◌+◌, ◌/◌, ◌<◌, ◌^◌, ◌∷◌, [], ℕ, Bool, List, None, length};
ghost use Rattle.annex_base.specs.declared.kinds.Call.TheVariants as calls;
ghost use Rattle.run_data.specs.declared.entry.By.TheVariants.{Peer};
ghost use Rattle.node_model.specs.Clocks.{hold_time};
ghost use Rattle.node_model.specs.Calls.{to_lock, to_offer, to_remove};
ghost use Rattle.node_model.specs.SessionStep.{bytes_left, check_answer, failure_line, is_filled, lock_answer, on_lock, on_put, on_remove, on_remove_before, on_request, put_answer, remove_answer, reply, tries};
ghost use Rattle.node_model.specs.SetUp.{SetUp};
ghost use Rattle.node_model.specs.State.{State};
ghost use Rattle.p2p_wire.specs.declared.message.Message.TheVariants as messages;
ghost use Rattle.run_data.specs.declared.entry.EntryKind.TheVariants.{Talk};
ghost use Rattle.run_data.specs.declared.entry.FrameText.TheVariants.{Closing};
ghost use Rattle.step_state.specs.States.{IsStateOf};
ghost use Rattle.session_makes.specs.Scenes.{here_in, is_reply};

use crate::answers::{finds, is_checked, is_locked, is_offered, is_removed, part};
use crate::calls::{lock_calls, offer_calls, remove_calls, tries};
use crate::fills::is_filled;
use crate::replies::{fails, is_held, is_here, is_unexpected, or_unexpected, sent, shuts, talks};
use crate::scene::Scene;
use annex_base::{Call, Found};
use annex_key::Key;
use p2p_wire::Message;
use step_effects::{is_talk, says_time};

/// VERSION: the greatest version that both speak.
fn agrees(scene: &Scene<'_>, version: u64) -> bool
    ensures { (filled : List ℕ → Bool) (v : ℕ) → result ≡ is_reply scene.now (on_request (here_in scene.now filled) v (messages.Version version)) }
{
    talks(
        scene,
        &Message::Version(version.min(u64::from(scene.version))),
    )
}

fn check_by(scene: &Scene<'_>, key: &Key, here: bool, bar: Option<u32>) -> bool
    ensures { (filled : List ℕ → Bool) → result ≡ is_reply scene.now (tries (here_in scene.now filled) (calls.Has ∷ []) failure_line (check_answer key.now here bar)) }
{
    tries(
        scene,
        &[Call::Has],
        fails(scene),
        is_checked(scene, key, here, bar),
    )
}

fn checks(scene: &Scene<'_>, key: &Key) -> bool
    ensures { (filled : List ℕ → Bool) (v : ℕ) → result ≡ is_reply scene.now (on_request (here_in scene.now filled) v (messages.CheckPresent key.now)) }
{
    check_by(scene, key, is_here(scene, key), scene.rows.bar(key))
}

fn lock_by(scene: &Scene<'_>, key: &Key, here: bool, bar: Option<u32>) -> bool
    ensures { (filled : List ℕ → Bool) → result ≡ is_reply scene.now (tries (here_in scene.now filled) (to_lock scene.now.locks here bar) failure_line
        (lock_answer scene.now.number (scene.now.clock + hold_time) (Peer scene.now.at.peer scene.now.at.slot) key.now scene.now.locks here bar)) }
{
    tries(
        scene,
        lock_calls(scene.locks, here, bar),
        fails(scene),
        is_locked(scene, key, here, bar),
    )
}

fn locks(scene: &Scene<'_>, key: &Key) -> bool
    ensures { (filled : List ℕ → Bool) → result ≡ is_reply scene.now (on_lock (here_in scene.now filled) key.now) }
{
    lock_by(scene, key, is_here(scene, key), scene.rows.bar(key))
}

fn remove_by(scene: &Scene<'_>, key: &Key, here: bool, bar: Option<u32>, blocked: bool) -> bool
    ensures { (filled : List ℕ → Bool) → result ≡ is_reply scene.now (tries (here_in scene.now filled) (to_remove here bar blocked) failure_line
        (remove_answer (Peer scene.now.at.peer scene.now.at.slot) key.now here bar blocked)) }
{
    tries(
        scene,
        remove_calls(here, bar, blocked),
        fails(scene),
        is_removed(scene, key, here, bar, blocked),
    )
}

fn removes(scene: &Scene<'_>, key: &Key) -> bool
    ensures { (filled : List ℕ → Bool) → result ≡ is_reply scene.now (on_remove (here_in scene.now filled) key.now) }
{
    remove_by(
        scene,
        key,
        is_here(scene, key),
        scene.rows.bar(key),
        is_held(scene, key),
    )
}

/// The deadline is in seconds.
fn removes_before(scene: &Scene<'_>, before: u64, key: &Key) -> bool
    ensures { (filled : List ℕ → Bool) → result ≡ is_reply scene.now (on_remove_before (here_in scene.now filled) before key.now) }
{
    if scene.clock < 1000 * u128::from(before) {
        removes(scene, key)
    } else {
        finds(scene, Found::Late, key, &Message::Failure)
    }
}

fn orders(scene: &Scene<'_>, version: u64, before: u64, key: &Key) -> bool
    ensures { (filled : List ℕ → Bool) → result ≡ is_reply scene.now (on_request (here_in scene.now filled) version (messages.RemoveBefore before key.now)) }
{
    or_unexpected(scene, version >= 3, removes_before(scene, before, key))
}

fn tells_time(scene: &Scene<'_>) -> bool
    ensures { result ≡ is_reply scene.now (reply (Talk None) (messages.Timestamp (scene.now.clock / 1000))) }
{
    is_talk(&scene.told.kind, None) && says_time(scene.at, scene.clock / 1000, sent(scene))
}

fn times(scene: &Scene<'_>, version: u64) -> bool
    ensures { (filled : List ℕ → Bool) → result ≡ is_reply scene.now (on_request (here_in scene.now filled) version messages.GetTimestamp) }
{
    or_unexpected(scene, version >= 3, tells_time(scene))
}

/// How many bytes a GET from this place gives.
fn bytes_left(size: Option<u64>, start: u64) -> u64
    ensures { result ≡ bytes_left size start }
{
    match size {
        Some(size) => size.saturating_sub(start),
        None => 0,
    }
}

fn gives_by(scene: &Scene<'_>, start: u64, size: Option<u64>) -> bool
    ensures { (filled : List ℕ → Bool) → result ≡ is_reply scene.now (tries (here_in scene.now filled) (calls.Size ∷ []) (Closing ∷ []) (reply (Talk None) (messages.Data (bytes_left size start)))) }
{
    tries(
        scene,
        &[Call::Size],
        shuts(scene),
        talks(scene, &Message::Data(bytes_left(size, start))),
    )
}

fn gives(scene: &Scene<'_>, version: u64, start: u64, key: &Key) -> bool
    ensures { (filled : List ℕ → Bool) (file : List ℕ) → result ≡ is_reply scene.now (on_request (here_in scene.now filled) version (messages.Get start file key.now)) }
{
    or_unexpected(
        scene,
        version >= 1,
        gives_by(scene, start, scene.rows.size(key)),
    )
}

fn offer_by(scene: &Scene<'_>, part: u64, here: bool, filled: bool) -> bool
    ensures { (keys : List ℕ → Bool) → result ≡ is_reply scene.now (tries (here_in scene.now keys) (to_offer part here filled) failure_line (reply (Talk None) (put_answer part here filled))) }
{
    tries(
        scene,
        offer_calls(part, here, filled),
        fails(scene),
        is_offered(scene, part, here, filled),
    )
}

fn offers(scene: &Scene<'_>, key: &Key) -> bool
    requires { length scene.now.repos.now < 2 ^ 32 }
    ensures { (s : SetUp) (st : State) → s.repos ≡ scene.now.repos.now → IsStateOf scene.now.state.now s st → result ≡ is_reply scene.now (on_put (here_in scene.now (is_filled s st)) key.now) }
{
    offer_by(
        scene,
        part(scene),
        is_here(scene, key),
        is_filled(scene.repos, scene.state, key),
    )
}

fn puts(scene: &Scene<'_>, version: u64, key: &Key) -> bool
    requires { length scene.now.repos.now < 2 ^ 32 }
    ensures { (s : SetUp) (st : State) (file : List ℕ) → s.repos ≡ scene.now.repos.now → IsStateOf scene.now.state.now s st
        → result ≡ is_reply scene.now (on_request (here_in scene.now (is_filled s st)) version (messages.Put file key.now)) }
{
    or_unexpected(scene, version >= 1, offers(scene, key))
}

/// The answer to a request, of a session that waits for one and speaks this version.
pub(crate) fn requests(scene: &Scene<'_>, version: u64, message: &Message) -> bool
    requires { length scene.now.repos.now < 2 ^ 32 }
    ensures { (s : SetUp) (st : State) → s.repos ≡ scene.now.repos.now → IsStateOf scene.now.state.now s st
        → result ≡ is_reply scene.now (on_request (here_in scene.now (is_filled s st)) version message.now) }
{
    match message {
        Message::Version(n) => agrees(scene, *n),
        Message::CheckPresent(key) => checks(scene, key),
        Message::LockContent(key) => locks(scene, key),
        Message::Remove(key) => removes(scene, key),
        Message::RemoveBefore { before, key } => orders(scene, version, *before, key),
        Message::GetTimestamp => times(scene, version),
        Message::Get { start, key, .. } => gives(scene, version, *start, key),
        Message::Put { key, .. } => puts(scene, version, key),
        _ => is_unexpected(scene),
    }
}
