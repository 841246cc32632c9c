//! Numbers in decimal.
ghost use Rattle.std.specs.Prelude.{◌≡◌, ◌++◌, OnOk, OnErr};
ghost use Rattle.std.specs.Fmt.{decimal};
ghost use Rattle.annex_base.specs.Decimal.{number_of};

use std::alloc::AllocError;

/// The number below 2^64 that the word spells, without a sign or a leading zero.
pub fn parse_decimal(word: &[u8]) -> Option<u64>
    ensures { result ≡ number_of word.now }
{
    if word.len() > 1 {
        if word[0] <= b'0' {
            return None;
        }
    }
    let Ok(text) = str::from_utf8(word) else {
        return None;
    };
    text.parse::<u64>().ok()
}

/// Adds the decimal text of a number; without memory it adds nothing.
pub fn put_number(out: &mut Vec<u8>, n: u64) -> Result<(), AllocError>
    ensures ok { OnOk result (out.new.items ≡ out.old.items ++ decimal n) }
    ensures err { OnErr result (out.new.items ≡ out.old.items) }
{
    let mut digits = String::new(*out.allocator());
    write!(digits, "{n}")?;
    out.extend_from_slice(digits.as_bytes())
}
