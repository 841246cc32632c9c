//! Whose turn it is.
ghost use Rattle.std.specs.Prelude.{◌≡◌, true, is_some};
ghost use Rattle.node_model.specs.Ends.{server_end};
ghost use Rattle.node_ends.specs.Ends.{link_at, name_of, room_at};
ghost use Rattle.node_sessions.specs.Sessions.{HaveEnds, end_of};
ghost use Rattle.node_sessions.specs.Turns.{IsFirst, turn_at};

use node_ends::{EndId, Ends};
use p2p_server::{Place, Session};

/// What a session has to do: to take a frame, or to give the next piece of a content.
#[derive(Clone, Copy, Debug, PartialEq, Eq)]
pub(crate) enum Turn {
    Takes,
    Gives,
}

/// The first session that has something to do, by its place.
#[derive(Clone, Copy, Debug)]
pub(crate) struct First {
    pub at: usize,
    pub turn: Turn,
}

/// The end of a session that stands here.
pub(crate) fn id_at(place: &Place) -> EndId
    ensures { name_of result ≡ server_end place.now.peer place.now.slot }
{
    EndId {
        peer: place.peer,
        slot: place.slot,
        client: false,
    }
}

/// What a session has to do at an end with room.
fn turn_in_room(session: &Session, ends: &Ends, id: EndId) -> Option<Turn>
    requires end { name_of id ≡ end_of session.now }
    requires there { is_some (link_at ends.now (name_of id)) ≡ true }
    requires room { room_at ends.now (name_of id) ≡ true }
    ensures { result ≡ turn_at ends.now session.now }
{
    match ends.waiting(id) {
        Some(_) => Some(Turn::Takes),
        None => {
            if ends.is_open(id) && session.is_giving() {
                Some(Turn::Gives)
            } else {
                None
            }
        }
    }
}

/// What a session has to do.
fn turn_of(session: &Session, ends: &mut Ends) -> Option<Turn>
    requires there { is_some (link_at ends.old (end_of session.now)) ≡ true }
    ensures turn { result ≡ turn_at ends.old session.now }
    ensures same { ends.new ≡ ends.old }
{
    let place = session.place();
    let id = id_at(&place);
    if ends.room(id) {
        turn_in_room(session, ends, id)
    } else {
        None
    }
}

/// The first that has something to do.
pub(crate) fn first_turn(sessions: &[Session], ends: &mut Ends) -> Option<First>
    requires ends { HaveEnds ends.old sessions.now }
    ensures first { IsFirst ends.old sessions.now result }
    ensures same { ends.new ≡ ends.old }
{
    for at in 0..sessions.len() {
        if let Some(turn) = turn_of(&sessions[at], ends) {
            return Some(First { at, turn });
        }
    }
    None
}
