//! A message that is to be sent, with its line.
ghost use Rattle.std.specs.Prelude.{◌≡◌, IfOk};
ghost use Rattle.p2p_wire.specs.Messages.{text_of};
ghost use Rattle.p2p_wire.specs.Streams.{IsLine};

use annex_base::{NoMemory, Text};
use p2p_wire::Message;
use std::alloc::Global;
use std::marker::Model;

/// A message that is to be sent, which contracts see as the message. Its line, without the newline, stands in it twice, for the
/// connection and for the entry that lists it: so a node sends it without memory (git-annex P2P protocol).
#[derive(Drop)]
pub struct Said {
    message: Message,
    line: Text,
    copy: Text,
}

impl Model for Said {
    ghost use Rattle.std.specs.Prelude.{◌≡◌};
    ghost use Rattle.p2p_wire.specs.declared.message.Message.{Message};
    ghost use Rattle.p2p_wire.specs.Messages.{text_of};

    ghost Value = { Message };

    ghost view = { λ s. s.message };

    ghost invariant = { λ s. (s.line ≡ text_of s.message) × (s.copy ≡ text_of s.message) };
}

impl Said {
    pub fn new(alloc: Global, message: Message) -> Result<Said, NoMemory>
        requires { IsLine message }
        ensures { IfOk result (λ s. s ≡ message) }
    {
        let mut bytes = message.encode(alloc)?;
        let _newline = bytes.pop();
        let line = Text::from_vec(bytes);
        let copy = line.clone()?;
        Ok(Said {
            message,
            line,
            copy,
        })
    }

    pub fn message(&self) -> &Message
        ensures { result.now ≡ self.now }
    {
        &self.message
    }

    /// Its line, twice.
    pub fn into_lines(self) -> (Text, Text)
        ensures { (result.0 ≡ text_of self) × (result.1 ≡ text_of self) }
    {
        let Said {
            message: _,
            line,
            copy,
        } = self;
        (line, copy)
    }
}
