//! Actions of a plan.
use annex_key::Key;

/// What a repository is to do for a key: a peer is the place of a repository among those of the plan (own).
#[derive(Debug, Drop)]
pub enum Action {
    /// Get the content.
    Get(Key),
    /// Put the content to a peer.
    Put(Key, u32),
    /// Drop the content of the own repository.
    DropHere(Key),
    /// Drop the content of a peer.
    DropFrom(Key, u32),
}
