//! The parts of the replies of a session, and the tests that they take.
ghost use Rattle.std.specs.Prelude.{◌≡◌, ◌∷◌, [], ℕ, Bool, false, List, None, is_some, if◌then◌else◌};
ghost use Rattle.std.specs.List.{list_any};
ghost use Rattle.run_data.specs.declared.entry.By.TheVariants.{Peer};
ghost use Rattle.run_data.specs.declared.entry.EntryKind.TheVariants.{Close, Talk};
ghost use Rattle.run_data.specs.declared.entry.FrameText.TheVariants.{Closing};
ghost use Rattle.node_model.specs.Rows.{blocks, is_blocked};
ghost use Rattle.node_model.specs.SessionStep.{Reply, failure_line, reply, shuts, silent_reply, unexpected_reply};
ghost use Rattle.state_rows.specs.Rows.{bar_of, holds_of, size_of};
ghost use Rattle.step_judging.specs.Same.{same_kind};
ghost use Rattle.session_makes.specs.Scenes.{here_in, is_reply, is_said};

use crate::scene::Scene;
use annex_key::Key;
use p2p_wire::Message;
use run_data::{By, FrameView, Hold};
use step_effects::{closes, is_close, is_talk, says, says_error_and_closes, says_nothing};

/// The frames that the entry sends.
pub(crate) fn sent<'a>(scene: &Scene<'a>) -> &'a [FrameView]
    ensures { result.now ≡ scene.now.told.now.sent }
{
    scene.told.sent.as_slice()
}

/// For whom the session's entries are.
pub(crate) fn by(scene: &Scene<'_>) -> By
    ensures { result ≡ Peer scene.now.at.peer scene.now.at.slot }
{
    By::Peer {
        peer: scene.at.peer,
        slot: scene.at.slot,
    }
}

/// Whether the content of the key is there.
pub(crate) fn is_here(scene: &Scene<'_>, key: &Key) -> bool
    ensures { result ≡ is_some (size_of scene.now.rows.now key.now) }
{
    scene.rows.size(key).is_some()
}

fn is_blocking(hold: &Hold, key: &Key, clock: u128) -> bool
    ensures { result ≡ blocks key.now clock hold.now }
{
    hold.key == *key && (!hold.kept || clock < u128::from(hold.end))
}

fn any_blocks(holds: &[Hold], key: &Key, clock: u128) -> bool
    ensures { result ≡ list_any (blocks key.now clock) holds.now }
{
    holds.iter().any(|hold| is_blocking(hold, key, clock))
}

/// Whether a hold blocks the key.
pub(crate) fn is_held(scene: &Scene<'_>, key: &Key) -> bool
    ensures { result ≡ is_blocked (holds_of scene.now.rows.now) key.now scene.now.clock }
{
    any_blocks(scene.rows.holds(), key, scene.clock)
}

/// An entry that changes no row, and says this.
pub(crate) fn talks(scene: &Scene<'_>, message: &Message) -> bool
    ensures { result ≡ is_reply scene.now (reply (Talk None) message.now) }
{
    is_talk(&scene.told.kind, None) && says(scene.at, message, sent(scene))
}

/// An entry that changes no row, and says nothing.
pub(crate) fn hears(scene: &Scene<'_>) -> bool
    ensures { result ≡ is_reply scene.now (silent_reply (Talk None)) }
{
    is_talk(&scene.told.kind, None) && says_nothing(sent(scene))
}

fn is_closed(scene: &Scene<'_>) -> bool
    ensures { result ≡ same_kind (Close scene.now.at.peer scene.now.at.slot false) scene.now.told.now.kind }
{
    is_close(&scene.told.kind, scene.at.peer, scene.at.slot, false)
}

/// The connection was closed by the client.
pub(crate) fn is_left(scene: &Scene<'_>) -> bool
    ensures { result ≡ is_reply scene.now (silent_reply (Close scene.now.at.peer scene.now.at.slot false)) }
{
    is_closed(scene) && says_nothing(sent(scene))
}

/// The connection is closed.
pub(crate) fn is_shut(scene: &Scene<'_>) -> bool
    ensures { result ≡ is_reply scene.now (shuts (Close scene.now.at.peer scene.now.at.slot false)) }
{
    is_closed(scene) && closes(scene.at, sent(scene))
}

/// What isn't expected is answered ERROR, and closes the connection.
pub(crate) fn is_unexpected(scene: &Scene<'_>) -> bool
    ensures { (filled : List ℕ → Bool) → result ≡ is_reply scene.now (unexpected_reply (here_in scene.now filled)) }
{
    is_closed(scene) && says_error_and_closes(scene.at, b"unexpected", sent(scene))
}

/// The reply where it is permitted, and else the answer to what isn't expected.
pub(crate) fn or_unexpected(scene: &Scene<'_>, permitted: bool, good: bool) -> bool
    ensures { (filled : List ℕ → Bool) (r : Reply) → good ≡ is_reply scene.now r → result ≡ is_reply scene.now (if permitted then r else unexpected_reply (here_in scene.now filled)) }
{
    if permitted {
        good
    } else {
        is_unexpected(scene)
    }
}

/// FAILURE is said.
pub(crate) fn fails(scene: &Scene<'_>) -> bool
    ensures { result ≡ is_said scene.now failure_line }
{
    says(scene.at, &Message::Failure, sent(scene))
}

/// A Close is sent.
pub(crate) fn shuts(scene: &Scene<'_>) -> bool
    ensures { result ≡ is_said scene.now (Closing ∷ []) }
{
    closes(scene.at, sent(scene))
}

/// Nothing is sent.
pub(crate) fn is_silent(scene: &Scene<'_>) -> bool
    ensures { result ≡ is_said scene.now [] }
{
    says_nothing(sent(scene))
}
