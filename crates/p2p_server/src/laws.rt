//! The laws of sessions. Each is the contract of a function that does nothing.
ghost use Rattle.std.specs.Prelude.{◌≡◌, List, ℕ, ◌≤◌, true, length};
ghost use Rattle.p2p_wire.specs.declared.message.Message.{Message};
ghost use Rattle.p2p_wire.specs.Messages.{text_of};
ghost use Rattle.p2p_wire.specs.Streams.{IsLine};
ghost use Rattle.object_store.specs.Stores.{Parts};
ghost use Rattle.node_model.specs.Sessions as sessions;
ghost use Rattle.content_lock.specs.Rows.{Rows, is_filling};
ghost use Rattle.p2p_server.specs.declared.session.Session.{Session};
ghost use Rattle.session_state.specs.Bounds.{IsReply};
ghost use Rattle.p2p_server.specs.Talking.{HasFillOf, IsFedOf, session_of};

use p2p_wire::sent_messages_have_lines;

/// While the table goes on to fill the key that a session fills, the session's fill is the table's. While that key's part
/// is as before, it is what the session has taken (own).
pub fn others_leave_it()
    ensures fills { (s : Session) (was now : Rows) → ((key : List ℕ) → sessions.is_filling key (session_of s).doing ≡ true → is_filling was key ≡ true → is_filling now key ≡ true) → HasFillOf was s → HasFillOf now s }
    ensures fed { (s : Session) (was now : Parts) → ((key : List ℕ) → sessions.is_filling key (session_of s).doing ≡ true → now key ≡ was key) → IsFedOf was s → IsFedOf now s }
{}

/// What a session says is a line of the protocol, of at most 64 bytes (git-annex P2P protocol; the bound is own).
pub fn replies_are_short_lines()
    ensures line { (m : Message) → IsReply m → IsLine m }
    ensures short { (m : Message) → IsReply m → length (text_of m) ≤ 64 }
{
    // A law, for the proof that a reply has a line of the protocol, as each message that is sent.
    sent_messages_have_lines();
}
