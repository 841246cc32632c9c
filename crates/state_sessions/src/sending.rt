//! What the frames that an entry sends make of sessions.
ghost use Rattle.std.specs.Prelude.{◌≡◌, ◌≤◌, ◌<◌, ◌+◌, ◌^◌, ◌∷◌, [], ℕ, if◌then◌else◌, length};
ghost use Rattle.std.specs.List.{list_any};
ghost use Rattle.indexmap.specs.IndexMap.{spare};
ghost use Rattle.node_model.specs.Ends.{sends_at, sent_at, server_end};
ghost use Rattle.node_model.specs.Sessions.{is_closing, sends_close, sent_more, session_left};
ghost use Rattle.state_sessions.specs.Doings.{number_in};
ghost use Rattle.state_sessions.specs.Tables.{after_sent, is_at, session_in};

use crate::doing::Session;
use crate::table::{close, send};
use indexmap::IndexMap;
use run_data::{FrameText, FrameView};
use state_ends::Connection;

/// The connection of a frame.
pub(crate) fn connection_of(frame: &FrameView) -> Connection
    ensures { result ≡ record { peer = frame.now.peer; slot = frame.now.slot } }
{
    Connection {
        peer: frame.peer,
        slot: frame.slot,
    }
}

/// Whether the server's end of the connection sends the frame.
pub(crate) fn sends(at: Connection, frame: &FrameView) -> bool
    ensures { result ≡ sends_at (server_end at.peer at.slot) frame.now }
{
    frame.peer == at.peer && frame.slot == at.slot && !frame.up
}

/// Whether it sends one of the frames.
fn sends_any(at: Connection, frames: &[FrameView]) -> bool
    ensures { result ≡ list_any (sends_at (server_end at.peer at.slot)) frames.now }
{
    frames.iter().any(|frame| sends(at, frame))
}

fn is_at(took: Option<Connection>, at: Connection) -> bool
    ensures { result ≡ is_at took at.peer at.slot }
{
    match took {
        Some(other) => other.peer == at.peer && other.slot == at.slot,
        None => false,
    }
}

fn is_closing(body: &FrameText) -> bool
    ensures { result ≡ is_closing body.now }
{
    matches!(body, FrameText::Closing)
}

/// The frame is sent, after these.
fn send_one(
    table: &mut IndexMap<Connection, Session>,
    took: Option<Connection>,
    before: &[FrameView],
    frame: &FrameView,
)
    requires room { 0 < spare table.old }
    requires small { (peer slot : ℕ) → number_in (session_in table.old.entries peer slot).doing < 2 ^ 127 }
    ensures session { (peer slot : ℕ) → session_in table.new.entries peer slot ≡ after_sent took before.now frame.now peer slot (session_in table.old.entries peer slot) }
    ensures room { spare table.old ≤ spare table.new + 1 }
    ensures small { (limit peer slot : ℕ) → number_in (session_in table.old.entries peer slot).doing < limit → number_in (session_in table.new.entries peer slot).doing < limit + 2 ^ 64 }
{
    let at = connection_of(frame);
    if frame.up || is_at(took, at) || sends_any(at, before) {
        return;
    }
    send(table, at, &frame.body);
}

/// The frames are sent, one after the other; the session that took a frame sends none unasked.
pub(crate) fn send_all(
    table: &mut IndexMap<Connection, Session>,
    took: Option<Connection>,
    frames: &[FrameView],
)
    requires room { length frames.now ≤ spare table.old }
    requires small { (peer slot : ℕ) → number_in (session_in table.old.entries peer slot).doing < 2 ^ 126 }
    ensures session { (peer slot : ℕ) → session_in table.new.entries peer slot
        ≡ (if is_at took peer slot then session_in table.old.entries peer slot else sent_more (session_in table.old.entries peer slot) (sent_at (server_end peer slot) frames.now)) }
    ensures small { (limit peer slot : ℕ) → number_in (session_in table.old.entries peer slot).doing < limit → number_in (session_in table.new.entries peer slot).doing < limit + 2 ^ 64 }
{
    for (place, frame) in frames.iter().enumerate() {
        let (before, _) = frames.split_at(place);
        send_one(table, took, before, frame);
    }
}

fn close_one(table: &mut IndexMap<Connection, Session>, frame: &FrameView)
    ensures { (peer slot : ℕ) → session_in table.new.entries peer slot ≡ session_left (sends_close (sent_at (server_end peer slot) (frame.now ∷ []))) (session_in table.old.entries peer slot) }
{
    if !frame.up && is_closing(&frame.body) {
        close(table, connection_of(frame));
    }
}

/// The sessions of the connections that the frames close are new.
pub(crate) fn close_all(table: &mut IndexMap<Connection, Session>, frames: &[FrameView])
    ensures { (peer slot : ℕ) → session_in table.new.entries peer slot ≡ session_left (sends_close (sent_at (server_end peer slot) frames.now)) (session_in table.old.entries peer slot) }
{
    for frame in frames {
        close_one(table, frame);
    }
}
