//! Numbers up to a bound.
ghost use Rattle.std.specs.Prelude.{◌≡◌, ◌≤◌, IfSome};
ghost use Rattle.script_words.specs.Numbers.{number_up_to};

use annex_base::parse_decimal;

/// The number that the word spells, if it is at most this one: decimal, without a sign or a leading zero.
#[tactic(auto, unfolding(crate::specs::Numbers::number_up_to))]
pub fn read_number(word: &[u8], greatest: u64) -> Option<u64>
    ensures value { result ≡ number_up_to greatest word.now }
    ensures bound { IfSome result (λ n. n ≤ greatest) }
{
    match parse_decimal(word) {
        Some(number) if number <= greatest => Some(number),
        _ => None,
    }
}
