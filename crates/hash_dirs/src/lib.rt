//! The lower-case hash directories, under which objects and files of the location log are kept.
#![tactic(auto)]

ghost use Rattle.std.specs.Prelude.{◌≡◌, take, drop};
ghost use Rattle.hex.specs.Hex.{encode_lower};
ghost use Rattle.md5.specs.Md5.{md5};

mod location;

use annex_base::crosses;
pub use location::location_path;
use md5::{Digest, Md5};

/// The two hash directories of a name, the outer one first. Each is three lower-case hexadecimal digits, in ASCII.
#[derive(Clone, Copy, Debug, PartialEq, Eq)]
pub struct Dirs {
    pub first: [u8; 3],
    pub second: [u8; 3],
}

/// The hash directories of a name, which is the text of a key: the first three and the next three digits of its MD5
/// (git-annex internals, hashing; RFC 1321).
pub fn dirs_of(name: &[u8]) -> Dirs
    ensures first { result.first ≡ take 3 (encode_lower (md5 name.now)) }
    ensures second { result.second ≡ take 3 (drop 3 (encode_lower (md5 name.now))) }
{
    let mut digits = [0; 32];
    // 32 digits have room for the 16 bytes of a digest, so this has no error to pass on.
    let _ = hex::encode_to_slice(Md5::digest(name), &mut digits);
    let (first, rest) = digits.split_at(3);
    let (second, _) = rest.split_at(3);
    Dirs {
        first: [first[0], first[1], first[2]],
        second: [second[0], second[1], second[2]],
    }
}

/// These types go from thread to thread.
fn cross_threads() {
    crosses::<Dirs>();
}
