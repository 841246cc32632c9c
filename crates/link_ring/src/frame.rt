//! What goes over a connection.
ghost use Rattle.std.specs.Prelude.{◌≡◌};
ghost use Rattle.link_ring.specs.Frames.{is_close};

use annex_base::{EntryStamp, Text, Word};

/// One frame (own).
#[derive(Debug, PartialEq, Eq, Drop)]
pub struct Frame {
    /// Where the entry stands that sent it.
    pub sender: EntryStamp,
    /// The number of the connection's opening, from 1.
    pub epoch: u32,
    /// The number of the frame in its epoch and way, from 1.
    pub seq: u64,
    /// What the sender found, beside a refusal or an answer to an order. It is no part of the protocol.
    pub word: Option<Word>,
    pub body: Body,
}

/// What a frame carries: an opening, the line of a message, bytes of a content, or a closing.
#[derive(Debug, PartialEq, Eq, Drop)]
pub enum Body {
    Open,
    Line(Text),
    Bytes(Text),
    Close,
}

impl Frame {
    pub(crate) fn is_close(&self) -> bool
        ensures { result ≡ is_close self.now }
    {
        match &self.body {
            Body::Close => true,
            Body::Open | Body::Line(_) | Body::Bytes(_) => false,
        }
    }
}
