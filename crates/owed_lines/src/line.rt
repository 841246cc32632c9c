//! A line that a job owes.
use annex_key::Key;

/// A line that a job owes its repository's branch since a peer answered it: that the peer has the key, or has it no more (own).
#[derive(Drop)]
pub struct ToldLine {
    /// The job's number.
    pub job: u32,
    /// The peer, by its place among the repositories, and whether it has the key.
    pub repo: u32,
    pub there: bool,
    pub key: Key,
}
