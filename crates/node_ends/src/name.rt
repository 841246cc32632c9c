//! The name of an end.
/// An end of a connection, as its repository names it: by the peer, the client's slot, and whether this side is the client's
/// (own).
#[derive(Clone, Copy, Debug, PartialEq, Eq)]
pub struct EndId {
    /// The number of the repository at the other end.
    pub peer: u32,
    /// One of the client's four, from 0.
    pub slot: u32,
    pub client: bool,
}
