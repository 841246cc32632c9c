//! What a session hears.
use p2p_wire::Message;

/// What a frame brings: an opening, a closing, a message, raw bytes, or a line that is no message (git-annex P2P
/// protocol; openings and closings are own).
#[derive(Drop)]
pub enum Incoming {
    Opening,
    Closing,
    Bytes(Vec<u8>),
    Message(Message),
    Bad,
}
