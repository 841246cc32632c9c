//! The next piece of a content that a session gives.
ghost use Rattle.std.specs.Prelude.{◌≡◌, ◌+◌, ◌∷◌, [], ℕ, Bool, false, List, None, if◌then◌else◌};
ghost use Rattle.annex_base.specs.declared.kinds.Call.TheVariants as calls;
ghost use Rattle.run_data.specs.declared.entry.EntryKind.TheVariants.{Close, Talk};
ghost use Rattle.run_data.specs.declared.entry.FrameText.TheVariants.{Bytes, Closing};
ghost use Rattle.node_model.specs.Sessions as sessions;
ghost use Rattle.node_model.specs.Sessions.{reaches};
ghost use Rattle.node_model.specs.SessionStep.{gives_next, on_piece, reply, shuts, tries};
ghost use Rattle.p2p_wire.specs.declared.message.Message.TheVariants as messages;
ghost use Rattle.state_sessions.specs.Doings.{doing_of};
ghost use Rattle.session_makes.specs.Scenes.{here_in, is_reply, is_reply_if};

use crate::calls::tries;
use crate::replies::{is_shut, sent, shuts, talks};
use crate::scene::Scene;
use annex_base::Call;
use annex_key::Key;
use p2p_wire::Message;
use state_sessions::Doing;
use step_effects::{gives, is_talk};

/// How many bytes a piece has at most.
const PIECE: u64 = 32_768;

/// Whether the content has so many bytes from a place on.
fn reaches(size: Option<u64>, at: u128, count: u64) -> bool
    ensures { result ≡ reaches size (at + count) }
{
    match size {
        Some(size) => count <= size && at <= u128::from(size - count),
        None => false,
    }
}

fn is_piece(scene: &Scene<'_>, count: u64) -> bool
    ensures { result ≡ is_reply scene.now (record { kind = Talk None; says = Bytes count ∷ []; calls = [] }) }
{
    is_talk(&scene.told.kind, None) && gives(scene.at, count, sent(scene))
}

fn is_piece_or_shut(scene: &Scene<'_>, count: u64, reached: bool) -> bool
    ensures { result ≡ is_reply scene.now (if reached then record { kind = Talk None; says = Bytes count ∷ []; calls = [] } else shuts (Close scene.now.at.peer scene.now.at.slot false)) }
{
    if reached {
        is_piece(scene, count)
    } else {
        is_shut(scene)
    }
}

fn piece_by(scene: &Scene<'_>, count: u64, reached: bool) -> bool
    ensures { (filled : List ℕ → Bool) → result ≡ is_reply scene.now (tries (here_in scene.now filled) (calls.Read ∷ []) (Closing ∷ [])
        (if reached then record { kind = Talk None; says = Bytes count ∷ []; calls = [] } else shuts (Close scene.now.at.peer scene.now.at.slot false))) }
{
    tries(
        scene,
        &[Call::Read],
        shuts(scene),
        is_piece_or_shut(scene, count, reached),
    )
}

/// So many bytes from a place on.
fn piece(scene: &Scene<'_>, key: &Key, at: u128, count: u64) -> bool
    ensures { (filled : List ℕ → Bool) → result ≡ is_reply scene.now (on_piece (here_in scene.now filled) key.now at count) }
{
    piece_by(scene, count, reaches(scene.rows.size(key), at, count))
}

/// The word on what was given.
fn word(scene: &Scene<'_>, good: bool) -> bool
    ensures { result ≡ is_reply scene.now (reply (Talk None) (if good then messages.Valid else messages.Invalid)) }
{
    if good {
        talks(scene, &Message::Valid)
    } else {
        talks(scene, &Message::Invalid)
    }
}

fn gives_on(scene: &Scene<'_>, key: &Key, at: u128, left: u64, good: bool) -> bool
    ensures { (filled : List ℕ → Bool) → result ≡ is_reply_if scene.now (gives_next (here_in scene.now filled) (sessions.Gives key.now at left good)) }
{
    if left == 0 {
        word(scene, good)
    } else {
        piece(scene, key, at, PIECE.min(left))
    }
}

/// The next piece, and at the end whether they were good.
pub(crate) fn gives_next(scene: &Scene<'_>, doing: &Doing) -> bool
    ensures { (filled : List ℕ → Bool) → result ≡ is_reply_if scene.now (gives_next (here_in scene.now filled) (doing_of doing.now)) }
{
    match doing {
        Doing::Gives {
            key,
            at,
            left,
            good,
        } => gives_on(scene, key, *at, *left, *good),
        _ => false,
    }
}
