//! What a session sends next of a content.
use annex_base::Call;
use p2p_wire::Message;

/// How many bytes a piece has at most.
pub const PIECE: usize = 32_768;

/// What is sent next of a content: a piece, or at the end whether the bytes were good. The connection is closed where the
/// content is gone, and where a call of the store failed.
#[derive(Drop)]
pub enum More {
    Piece(Vec<u8>),
    Last(Message),
    /// No content is being sent.
    Nothing,
    Gone,
    Fault(Call),
}
