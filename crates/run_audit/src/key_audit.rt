//! What an audit says of a key.
use annex_key::Key;

/// Of a key with a removal: how many removals it has, the fewest copies and claims of it at a time from the first of them on, and the
/// least mincopies that their drops read.
#[derive(Drop)]
pub struct KeyAudit {
    pub key: Key,
    pub removals: u32,
    pub least: u32,
    pub mincopies: u32,
}
