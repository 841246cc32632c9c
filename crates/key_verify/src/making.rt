//! The key that is made of a content.
ghost use Rattle.std.specs.Prelude.{◌≡◌, ◌==◌, ◌++◌, List, ℕ, IfOk, OnOk, not};
ghost use Rattle.std.specs.List.{after_last, list_all, suffix_len};
ghost use Rattle.std.specs.Char.{is_ascii_alphanumeric};
ghost use Rattle.std.specs.Option.{option_copied};
ghost use Rattle.annex_key.specs.KeyText.{key_text};
ghost use Rattle.hex.specs.Hex.{encode_lower};
ghost use Rattle.key_verify.specs.MakingKeys.{is_extension, extension_word, extension_of, key_with, made_key};
ghost use Rattle.key_verify.specs.Matching.{MatchesKey};
ghost use Rattle.key_verify.specs.Sums.{made_sum};

use crate::digester::{Digest, Sum};
use crate::laws::made_keys_match;
use annex_base::{NoMemory, put_number};
use annex_key::{Key, KeyFault};
use sha2::{Digest as Sha2Digest, Sha256};
use std::alloc::{AllocError, Global};

// How many bytes follow the last one of this kind.
fn last_len(byte: u8, text: &[u8]) -> usize
    ensures { result ≡ suffix_len (λ b. not (b == byte)) text.now }
{
    text.iter().rev().take_while(|b| **b != byte).count()
}

fn after_last(byte: u8, text: &[u8]) -> &[u8]
    ensures { result.now ≡ after_last (λ b. b == byte) text.now }
{
    let count = last_len(byte, text);
    text.split_at(text.len() - count).1
}

fn all_alphanumeric(word: &[u8]) -> bool
    ensures { result ≡ list_all is_ascii_alphanumeric word.now }
{
    word.iter().all(|b| b.is_ascii_alphanumeric())
}

fn is_extension(word: &[u8]) -> bool
    ensures { result ≡ is_extension word.now }
{
    1 <= word.len() && word.len() <= 4 && all_alphanumeric(word)
}

fn extension_word(path: &[u8]) -> Option<&[u8]>
    ensures { option_copied result ≡ extension_word path.now }
{
    let component = after_last(b'/', path);
    let word = after_last(b'.', component);
    // A component without a dot, or with one at its begin alone, has no more than one byte beside the word.
    if is_extension(word) && word.len() + 1 < component.len() {
        Some(word)
    } else {
        None
    }
}

fn put_extension(text: &mut Vec<u8>, path: &[u8]) -> Result<(), AllocError>
    ensures { OnOk result (text.new.items ≡ text.old.items ++ extension_of path.now) }
{
    if let Some(word) = extension_word(path) {
        text.push(b'.')?;
        text.extend_from_slice(word)?;
    }
    Ok(())
}

fn put_digest(text: &mut Vec<u8>, digest: &[u8; 32]) -> Result<(), AllocError>
    ensures { OnOk result (text.new.items ≡ text.old.items ++ encode_lower digest.now) }
{
    let mut digits = [0; 64];
    // 64 digits have room for the 32 bytes of a digest, so this has no error to pass on.
    let _ = hex::encode_to_slice(*digest, &mut digits);
    text.extend_from_slice(&digits)
}

fn made_text(
    alloc: Global,
    path: &[u8],
    size: u64,
    digest: &[u8; 32],
) -> Result<Vec<u8>, AllocError>
    ensures { IfOk result (λ v. v.items ≡ key_text (key_with path.now size digest.now)) }
{
    let mut text = Vec::from_slice(alloc, b"SHA256E-s")?;
    put_number(&mut text, size)?;
    text.extend_from_slice(b"--")?;
    put_digest(&mut text, digest)?;
    put_extension(&mut text, path)?;
    Ok(text)
}

/// The SHA256E key of a file's content, with its size and the extension of its path, from the content's sum. The sum is
/// that of a digester for a made key, which takes a long content piece by piece.
pub fn make_key_of_sum(alloc: Global, path: &[u8], sum: &Sum) -> Result<Key, NoMemory>
    requires { (bytes : List ℕ) × (sum.now ≡ made_sum bytes) }
    ensures text { (bytes : List ℕ) → sum.now ≡ made_sum bytes → IfOk result (λ k. k ≡ key_text (made_key path.now bytes)) }
    ensures matching { (bytes : List ℕ) → sum.now ≡ made_sum bytes → IfOk result (λ k. MatchesKey k bytes) }
{
    // For the prover: the text is a key's.
    made_keys_match();
    let Digest::Sha256(digest) = &sum.digest else {
        unreachable!();
    };
    let text = made_text(alloc, path, sum.size, digest)?;
    match Key::parse(alloc, &text) {
        Ok(key) => Ok(key),
        Err(KeyFault::NoMemory) => Err(NoMemory),
        Err(_) => unreachable!(),
    }
}

/// The SHA256E key of a file's content, with its size and the extension of its path.
pub fn make_key(alloc: Global, path: &str, bytes: &[u8]) -> Result<Key, NoMemory>
    ensures text { IfOk result (λ k. k ≡ key_text (made_key path.now bytes.now)) }
    ensures matching { IfOk result (λ k. MatchesKey k bytes.now) }
{
    let sum = Sum {
        size: bytes.len() as u64,
        digest: Digest::Sha256(<Sha256 as Sha2Digest>::digest(bytes)),
    };
    make_key_of_sum(alloc, path.as_bytes(), &sum)
}
