//! What a session serves.
use annex_base::Word;
use node_ends::Sending;
use run_data::EntryKind;

/// What is to be done at the server's end of a connection: the frame that waits there is taken, if `takes`; an entry of this kind
/// is made; and then this is sent, and a Close after it where the connection closes. The word stands beside the reply (own).
#[derive(Drop)]
pub struct Served {
    /// The number of the client's repository.
    pub peer: u32,
    /// One of the client's four, from 0.
    pub slot: u32,
    pub takes: bool,
    pub kind: EntryKind,
    /// A line or a piece, for which all memory is taken.
    pub reply: Option<Sending>,
    pub close: bool,
    pub word: Option<Word>,
}
