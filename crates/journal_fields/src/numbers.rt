//! Numbers.
ghost use Rattle.std.specs.Prelude.{◌≡◌};
ghost use Rattle.journal_reading.specs.Forms.{or_dash};
ghost use Rattle.journal_reading.specs.Fields.{small, large, a_byte};

use script_words::{is_word, read_number};

/// A number below 2 ^ 32, in decimal.
pub fn read_small(word: &[u8]) -> Option<u32>
    ensures { result ≡ small.read word.now }
{
    let number = read_number(word, 4_294_967_295)?;
    Some(number as u32)
}

/// A number below 2 ^ 64, in decimal.
pub fn read_large(word: &[u8]) -> Option<u64>
    ensures { result ≡ large.read word.now }
{
    read_number(word, 18_446_744_073_709_551_615)
}

/// A number below 256, in decimal.
pub fn read_byte(word: &[u8]) -> Option<u8>
    ensures { result ≡ a_byte.read word.now }
{
    let number = read_number(word, 255)?;
    Some(number as u8)
}

/// A number below 2 ^ 32, or a dash where there is none.
pub fn read_small_or_dash(word: &[u8]) -> Option<Option<u32>>
    ensures { result ≡ (or_dash small).read word.now }
{
    if is_word(word, b"-") {
        return Some(None);
    }
    read_small(word).map(Some)
}

/// A number below 2 ^ 64, or a dash where there is none.
pub fn read_large_or_dash(word: &[u8]) -> Option<Option<u64>>
    ensures { result ≡ (or_dash large).read word.now }
{
    if is_word(word, b"-") {
        return Some(None);
    }
    read_large(word).map(Some)
}
