//! The words of a call.

ghost use Rattle.std.specs.Prelude.{◌≤◌};

use annex_base::parse_decimal;
use std::alloc::{AllocError, Global};

/// The latest clock and the greatest number of a table.
const MOST: u64 = 1_000_000_000;

/// The words of a call, which stand apart by a space.
pub fn words_of(alloc: Global, call: &[u8]) -> Result<Vec<&[u8]>, AllocError> {
    call.split(|b| *b == b' ').collect(alloc)
}

/// The word at this place; the empty one where there are fewer.
pub fn word<'a>(words: &[&'a [u8]], at: usize) -> &'a [u8] {
    match words.get(at) {
        Some(word) => word,
        None => b"",
    }
}

/// The number at this place, up to the greatest of a table; 0 where there is none.
pub fn number(words: &[&[u8]], at: usize) -> u64
    ensures { result ≤ 1000000000 }
{
    parse_decimal(word(words, at)).unwrap_or(0).min(MOST)
}
