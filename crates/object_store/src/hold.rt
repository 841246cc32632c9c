//! A hold in a store in memory.
ghost use Rattle.std.specs.Prelude.{◌<◌, ◌^◌};

use annex_key::Key;

/// What a record says beside its number.
#[derive(Debug, Drop)]
pub struct Hold {
    pub key: Key,
    pub end: u64,
    ghost early: { end < 2 ^ 62 },
}
