//! Laws on verdicts and made keys: each is the contract of a function that does nothing.
ghost use Rattle.std.specs.Prelude.{◌≡◌, ◌↔◌, ◌<◌, ◌^◌, List, ℕ, length};
ghost use Rattle.annex_key.specs.KeyText.{IsKey, key_text};
ghost use Rattle.key_verify.specs.MakingKeys.{made_key};
ghost use Rattle.key_verify.specs.Matching.{MatchesKey, verdict_of};
ghost use Rattle.key_verify.specs.Sums.{sum_of};

use crate::verdict::Verdict;
use annex_key::texts_say_their_parts;

/// A verdict is Right exactly on the content of the key.
pub fn verdicts_are_matches()
    ensures { (key bytes : List ℕ) → (verdict_of key (sum_of key bytes) ≡ Verdict.Right) ↔ MatchesKey key bytes }
{}

/// The key that is made of a content is one, and the content is its content.
pub fn made_keys_match()
    ensures key { (path bytes : List ℕ) → length bytes < 2 ^ 64 → IsKey (made_key path bytes) }
    ensures matching { (path bytes : List ℕ) → length bytes < 2 ^ 64 → MatchesKey (key_text (made_key path bytes)) bytes }
{
    // For the prover: what a key's text says.
    texts_say_their_parts();
}
