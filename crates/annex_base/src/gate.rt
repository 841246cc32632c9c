//! Where a test may hold threads.
/// Where a test may hold the threads of a block (own).
///
/// In a block on threads `reached` is called before each turn that a repository's thread makes, with the
/// repository's number and the turn's, counted from 1. After the threads have joined, `rested` is called once
/// per block, with the number of entries that the rounds after the join added.
pub trait Gate: Sync {
    fn reached(&self, repo: u32, turn: u64);

    fn rested(&self, entries: u64);
}

/// The gate that holds nobody: both calls return at once.
#[derive(Clone, Copy, Debug)]
pub struct OpenGate;

impl Gate for OpenGate {
    fn reached(&self, _repo: u32, _turn: u64) {}

    fn rested(&self, _entries: u64) {}
}
