//! What is to be sent.
use annex_base::Text;

/// A frame that is to be sent, for which all memory is taken (own).
#[derive(Debug, Drop)]
pub enum Sending {
    Open,
    Close,
    /// A line of the protocol, and the same line for the entry that lists it.
    Line { line: Text, listed: Text },
    /// A piece of a content.
    Bytes(Text),
}
