//! Memory for a reply, which is taken before the answer is known.
ghost use Rattle.std.specs.Prelude.{◌≡◌, ◌≤◌, ℕ, Bool, [], List, length, vec_capacity, IfOk};
ghost use Rattle.std.specs.Option.{ForSome};
ghost use Rattle.node_ends.specs.declared.sending.Sending.TheVariants.{Line};
ghost use Rattle.p2p_wire.specs.Messages.{text_of};
ghost use Rattle.p2p_wire.specs.Streams.{IsLine};
ghost use Rattle.p2p_server.specs.Answers.{closes, says};
ghost use Rattle.p2p_server.specs.Bounds.{IsReply, IsReplyIf};
ghost use Rattle.node_sessions.specs.Pieces.{IsNoPiece};
ghost use Rattle.node_sessions.specs.Serving.{IsTalk, says_in};

use annex_base::{NoMemory, Text};
use node_ends::Sending;
use p2p_server::replies_are_short_lines;
use p2p_wire::Message;
use std::alloc::Global;

/// How many bytes a reply has at most, with its newline.
const REPLY: usize = 65;

/// Two empty texts with room for a reply.
#[derive(Debug, Drop)]
pub(crate) struct Room {
    line: Vec<u8>,
    listed: Vec<u8>,
    ghost line_empty: { line.items ≡ [] },
    ghost line_room: { 65 ≤ vec_capacity line },
    ghost listed_empty: { listed.items ≡ [] },
    ghost listed_room: { 65 ≤ vec_capacity listed },
}

/// The message's line, in memory that was taken before.
fn encoded(mut bytes: Vec<u8>, message: &Message) -> Text
    requires empty { bytes.items ≡ [] }
    requires room { 65 ≤ vec_capacity bytes }
    requires line { IsLine message.now }
    requires short { length (text_of message.now) ≤ 64 }
    ensures { result ≡ text_of message.now }
{
    message.encode_into(&mut bytes);
    let _newline = bytes.pop();
    Text::from_vec(bytes)
}

impl Room {
    pub(crate) fn new(alloc: Global) -> Result<Room, NoMemory> {
        let line = Vec::with_capacity(alloc, REPLY)?;
        let listed = Vec::with_capacity(alloc, REPLY)?;
        Ok(Room { line, listed })
    }

    /// A reply as it is sent.
    pub(crate) fn line(self, message: &Message) -> Sending
        requires { IsReply message.now }
        ensures { result ≡ Line (text_of message.now) (text_of message.now) }
    {
        // A law, for the proof that the reply is a line of at most 64 bytes.
        replies_are_short_lines();
        let Room { line, listed } = self;
        let line = encoded(line, message);
        let listed = encoded(listed, message);
        Sending::Line { line, listed }
    }

    /// The reply, if there is one.
    pub(crate) fn reply(self, message: &Option<Message>) -> Option<Sending>
        requires { IsReplyIf message.now }
        ensures says { (close : Bool) → says_in result close ≡ says message.now (closes close) }
        ensures talk { ForSome result IsTalk }
        ensures line { ForSome result IsNoPiece }
    {
        match message {
            None => None,
            Some(message) => Some(self.line(message)),
        }
    }
}
