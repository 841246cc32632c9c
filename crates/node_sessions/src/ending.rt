//! Sessions that are closed, or spent.
ghost use Rattle.std.specs.Prelude.{◌≡◌, ◌<◌, ℕ, List, [], true, false, length, map};
ghost use Rattle.std.specs.List.{list_any, slice_get};
ghost use Rattle.annex_base.specs.Lists.{Member};
ghost use Rattle.content_lock.specs.Rows.{Rows};
ghost use Rattle.p2p_server.specs.declared.session.Session.{Session as AnySession};
ghost use Rattle.node_sessions.specs.Built.{AreClosed, AreLeft, ClosesAmong};
ghost use Rattle.node_sessions.specs.Sessions.{OwnAll, connection_of, is_of};

use content_lock::LockTable;
use p2p_server::Session;

/// Spends the sessions.
pub(crate) fn end_all(mut sessions: Vec<Session>, table: &mut LockTable)
    requires { OwnAll table.old sessions.items }
    ensures { AreLeft sessions.items [] table.old table.new }
{
    while let Some(session) = sessions.pop() {
        session.end(table);
    }
    sessions.destroy_empty();
}

fn is_of(session: &Session, peer: u32, slot: u32) -> bool
    ensures { result ≡ is_of peer slot session.now }
{
    let place = session.place();
    place.peer == peer && place.slot == slot
}

fn any_of(sessions: &[Session], peer: u32, slot: u32) -> bool
    ensures { result ≡ list_any (is_of peer slot) sessions.now }
{
    sessions
        .iter()
        .any(|session: &Session| is_of(session, peer, slot))
}

/// Whether there is a session with this client and slot.
pub(crate) fn has_session(sessions: &[Session], peer: u32, slot: u32) -> bool
    ensures yes { result ≡ true → Member (peer, slot) (map connection_of sessions.now) }
    ensures no { result ≡ false → Member (peer, slot) (map connection_of sessions.now) → ⊥ }
{
    any_of(sessions, peer, slot)
}

/// The place of the session with this client and slot.
pub(crate) fn find_session(sessions: &[Session], peer: u32, slot: u32) -> usize
    requires { Member (peer, slot) (map connection_of sessions.now) }
    ensures within { result < length sessions.now }
    ensures here { (x : AnySession) → slice_get sessions.now result ≡ Some x → connection_of x ≡ (peer, slot) }
{
    for at in 0..sessions.len() {
        let place = sessions[at].place();
        if place.peer == peer && place.slot == slot {
            return at;
        }
    }
    unreachable!()
}

/// Closes the session at this place.
pub(crate) fn close_at(sessions: &mut Vec<Session>, at: usize, table: &mut LockTable)
    requires within { at < length sessions.old.items }
    requires owns { OwnAll table.old sessions.old.items }
    ensures { ClosesAmong at sessions.old.items sessions.new.items table.old table.new }
{
    sessions[at].closed(table);
}

/// Closes each session.
pub(crate) fn close_all(sessions: &mut Vec<Session>, table: &mut LockTable)
    requires { OwnAll table.old sessions.old.items }
    ensures { AreClosed (length sessions.new.items) sessions.old.items sessions.new.items table.old table.new }
{
    for at in 0..sessions.len() {
        close_at(sessions, at, table);
    }
}
