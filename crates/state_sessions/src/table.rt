//! The sessions by connection.
ghost use Rattle.std.specs.Prelude.{◌≡◌, ◌≤◌, ◌<◌, ◌+◌, ◌^◌, ◌&&◌, ◌==◌, ℕ, if◌then◌else◌};
ghost use Rattle.indexmap.specs.IndexMap.{spare};
ghost use Rattle.node_model.specs.Sessions.{new_session, sent_one};
ghost use Rattle.state_sessions.specs.Doings.{as_session, number_in};
ghost use Rattle.state_sessions.specs.Hearing.{heard_so};
ghost use Rattle.state_sessions.specs.Tables.{session_in, taken_so};

use crate::doing::{Session, took_bytes};
use crate::heard::{Heard, apply};
use indexmap::IndexMap;
use run_data::FrameText;
use state_ends::Connection;

/// Takes the session of a connection out of the table; one that isn't listed is new.
fn take_out(table: &mut IndexMap<Connection, Session>, at: Connection) -> Session
    ensures value { as_session result ≡ session_in table.old.entries at.peer at.slot }
    ensures out { (peer slot : ℕ) → session_in table.new.entries peer slot ≡ (if (at.peer == peer) && (at.slot == slot) then new_session else session_in table.old.entries peer slot) }
    ensures room { spare table.old ≤ spare table.new }
{
    match table.swap_remove(&at) {
        Some(session) => session,
        None => Session::new(),
    }
}

fn put(table: &mut IndexMap<Connection, Session>, at: Connection, session: Session)
    requires { 0 < spare table.old }
    ensures session { (peer slot : ℕ) → session_in table.new.entries peer slot ≡ (if (at.peer == peer) && (at.slot == slot) then as_session session else session_in table.old.entries peer slot) }
    ensures room { spare table.old ≤ spare table.new + 1 }
{
    table.insert(at, session).unwrap();
}

/// The session of a connection that closes is new.
pub(crate) fn close(table: &mut IndexMap<Connection, Session>, at: Connection)
    ensures session { (peer slot : ℕ) → session_in table.new.entries peer slot ≡ (if (at.peer == peer) && (at.slot == slot) then new_session else session_in table.old.entries peer slot) }
    ensures room { spare table.old ≤ spare table.new }
{
    table.swap_remove(&at);
}

/// The session of a connection sends this unasked.
pub(crate) fn send(table: &mut IndexMap<Connection, Session>, at: Connection, body: &FrameText)
    requires room { 0 < spare table.old }
    requires small { number_in (session_in table.old.entries at.peer at.slot).doing < 2 ^ 127 }
    ensures session { (peer slot : ℕ) → session_in table.new.entries peer slot ≡ (if (at.peer == peer) && (at.slot == slot) then sent_one (session_in table.old.entries peer slot) body.now else session_in table.old.entries peer slot) }
    ensures room { spare table.old ≤ spare table.new + 1 }
    ensures small { (limit peer slot : ℕ) → number_in (session_in table.old.entries peer slot).doing < limit → number_in (session_in table.new.entries peer slot).doing < limit + 2 ^ 64 }
{
    let was = take_out(table, at);
    put(table, at, was.sends(body));
}

/// The session takes a frame with this body, of which the message, if it is one, was heard so.
fn takes(session: Session, body: &FrameText, heard: Option<Heard>) -> Session
    requires { number_in (as_session session).doing < 2 ^ 127 }
    ensures value { as_session result ≡ taken_so (as_session session) body.now heard }
    ensures small { (limit : ℕ) → 2 ^ 64 ≤ limit → number_in (as_session session).doing < limit → number_in (as_session result).doing < limit + 2 ^ 64 }
{
    match body {
        FrameText::Opening => session,
        FrameText::Closing => Session::new(),
        FrameText::Bytes(count) => {
            let Session { version, doing } = session;
            Session {
                version,
                doing: took_bytes(doing, *count),
            }
        }
        FrameText::Line(_) => hears(session, heard),
    }
}

fn hears(session: Session, heard: Option<Heard>) -> Session
    ensures value { as_session result ≡ heard_so heard (as_session session) }
    ensures small { (limit : ℕ) → 2 ^ 64 ≤ limit → number_in (as_session session).doing < limit → number_in (as_session result).doing < limit + 2 ^ 64 }
{
    match heard {
        None => session,
        Some(
            Heard {
                version: None,
                next,
            },
        ) => {
            let Session { version, doing } = session;
            Session {
                version,
                doing: apply(doing, next),
            }
        }
        Some(
            Heard {
                version: Some(version),
                next,
            },
        ) => {
            let Session { version: _, doing } = session;
            Session {
                version,
                doing: apply(doing, next),
            }
        }
    }
}

/// The session of a connection takes a frame.
pub(crate) fn take(
    table: &mut IndexMap<Connection, Session>,
    at: Connection,
    body: &FrameText,
    heard: Option<Heard>,
)
    requires room { 0 < spare table.old }
    requires small { number_in (session_in table.old.entries at.peer at.slot).doing < 2 ^ 127 }
    ensures session { (peer slot : ℕ) → session_in table.new.entries peer slot ≡ (if (at.peer == peer) && (at.slot == slot) then taken_so (session_in table.old.entries peer slot) body.now heard else session_in table.old.entries peer slot) }
    ensures room { spare table.old ≤ spare table.new + 1 }
    ensures small { (limit peer slot : ℕ) → 2 ^ 64 ≤ limit → number_in (session_in table.old.entries peer slot).doing < limit → number_in (session_in table.new.entries peer slot).doing < limit + 2 ^ 64 }
{
    let was = take_out(table, at);
    put(table, at, takes(was, body, heard));
}
