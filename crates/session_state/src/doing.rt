//! What a session does between two frames. A phase owns what it was given.
ghost use Rattle.std.specs.Prelude.{◌≡◌, ◌≤◌, ◌+◌, ◌<◌, ◌^◌, ◌&&◌, nat_le, nat_lt};
ghost use Rattle.std.specs.Option.{ForSome};
ghost use Rattle.key_verify.specs.Sums.{bytes_taken};

use annex_key::Key;
use content_lock::{Fill, Share};
use key_verify::{Digester, Sum};

/// The phases of a session (git-annex P2P protocol).
pub enum Doing {
    Waits,
    Guards { share: Share },
    Gives(Giving),
    Gave,
    Wants(Wanting),
    Takes(Taking),
    Took(Taken),
}

/// A content that is sent, of which the bytes from one place to another are left, and whether it had the first of the
/// places when it was asked for.
#[derive(Drop)]
pub struct Giving {
    pub key: Key,
    pub at: u64,
    pub end: u64,
    pub good: bool,
    pub ghost ordered: { at ≤ end },
}

/// A part that bytes are asked for, its size, and the digester that has taken it. There is none where what was read of
/// the part wasn't of that size.
pub struct Wanting {
    pub fill: Fill,
    pub size: u64,
    pub digester: Option<Digester>,
    pub ghost small: { size < 2 ^ 62 },
    pub ghost counts: { ForSome digester (λ d. bytes_taken d ≡ size) },
}

/// A part to which bytes come, its size, how many bytes are to come, and the digester that has taken the part. A part of
/// 2^62 bytes and more has none.
pub struct Taking {
    pub fill: Fill,
    pub size: u128,
    pub left: u64,
    pub digester: Option<Digester>,
    pub ghost bound: { size + left < 2 ^ 65 },
    pub ghost counts: { ForSome digester (λ d. bytes_taken d ≡ size) },
    pub ghost small: { ForSome digester (λ d. size < 2 ^ 62) },
}

impl Taking {
    /// Whether a piece of so many bytes may come: it has bytes, and no more than are to come.
    pub fn awaits(&self, count: u64) -> bool
        ensures { result ≡ (nat_lt 0 count && nat_le count self.now.left) }
    {
        0 < count && count <= self.left
    }
}

/// A part whose bytes have come, its size, and its sum, if its digester took all of it.
pub struct Taken {
    pub fill: Fill,
    pub size: u128,
    pub sum: Option<Sum>,
    pub ghost small: { ForSome sum (λ s. size < 2 ^ 62) },
}
