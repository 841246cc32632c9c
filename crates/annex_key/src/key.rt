//! Keys, their parts and their files.
ghost use Rattle.std.specs.Prelude.{◌≡◌, ◌≢◌, ◌==◌, ◌↔◌, ◌⊎◌, ◌++◌, List, ℕ, Some, None, IfOk, IsErrOf, MatchResult};
ghost use Rattle.std.proofs.Common.{rules};
ghost use Rattle.std.specs.Cmp.{partial_order_from_own_ties};
ghost use Rattle.std.specs.Cmp.Rules.{comparing};
ghost use Rattle.std.specs.Cmp.Lexicographic.{slice_cmp, pointwise};
ghost use Rattle.std.specs.Ordering.{nat_cmp, as_partial_cmp};
ghost use Rattle.std.specs.List.{list_any};
ghost use Rattle.std.specs.Str.{bytes_eq};
ghost use Rattle.annex_key.specs.KeyText.{KeyParts, IsKey, IsKeyText, key_text, without_chunk, is_digest_backend};
ghost use Rattle.annex_key.specs.Faults.{Breaks};
ghost use Rattle.annex_key.specs.KeyFile.{file_text, BreaksFile};
ghost use Rattle.annex_key.specs.FileKey.{key_of_file};
ghost use Rattle.annex_key.specs.View.{told_fault, first_fault, backend_part, size_part, name_part, unchunked_text};

use crate::escape::{escape, unescape};
use crate::fault::KeyFault;
use crate::reading::{around_chunk, backend_word, find_size};
use annex_base::NoMemory;
use std::alloc::{AllocError, Global};
use std::cmp::Ordering;
use std::hash::{Hash, Hasher};
use std::marker::Model;

const DIGESTS: [&[u8]; 10] = [
    b"MD5", b"SHA224", b"SHA256", b"SHA384", b"SHA512", b"MD5E", b"SHA224E", b"SHA256E",
    b"SHA384E", b"SHA512E",
];

/// A key, which contracts see as its text (git-annex internals: keys).
#[derive(Debug, Drop)]
pub struct Key {
    text: Vec<u8>,
    size: Option<u64>,
}

impl Model for Key {
    ghost use Rattle.std.specs.Prelude.{List, ℕ};
    ghost use Rattle.annex_key.specs.View.{IsKeyed};

    ghost Value = { List ℕ };

    ghost view = { λ k. k.text.items };

    ghost invariant = { λ k. IsKeyed k.text.items k.size };
}

fn read(alloc: Global, text: &[u8]) -> Result<Key, KeyFault>
    ensures text { IfOk result (λ k. k ≡ text.now) }
    ensures exact { told_fault result ≡ first_fault text.now }
{
    let size = find_size(text)?;
    Ok(Key {
        text: Vec::from_slice(alloc, text)?,
        size,
    })
}

impl Key {
    /// The key that the text spells, all of the text. A text that is none has exactly one fault: TooLong is tested
    /// first, then NoDashes, then the other rules from left to right.
    pub fn parse(alloc: Global, text: &[u8]) -> Result<Key, KeyFault>
        ensures found { IfOk result (λ k. (k ≡ text.now) × IsKeyText text.now) }
        ensures only { IsKeyText text.now → MatchResult result (λ k. k ≡ text.now) (λ e. e ≡ KeyFault.NoMemory) }

        // Each fault stands exactly where its rule is broken first, and where it is computed.
        ensures faults { (e : KeyFault) → e ≢ KeyFault.NoMemory → IsErrOf result e ↔ Breaks e text.now }
        ensures exact { told_fault result ≡ first_fault text.now }
    {
        read(alloc, text)
    }

    /// The key's text, which takes no memory.
    pub fn text(&self) -> &[u8]
        ensures same { result.now ≡ self.now }
        ensures key { IsKeyText self.now }
    {
        &self.text
    }

    /// A copy of the key's text.
    pub fn print(&self, alloc: Global) -> Result<Vec<u8>, NoMemory>
        ensures { IfOk result (λ v. v.items ≡ self.now) }
    {
        Ok(Vec::from_slice(alloc, &self.text)?)
    }

    /// The name of the key's file (own).
    pub fn to_file(&self, alloc: Global) -> Result<Vec<u8>, NoMemory>
        ensures { IfOk result (λ v. v.items ≡ file_text self.now) }
    {
        Ok(escape(alloc, &self.text)?)
    }

    /// The key whose file has this name. BadEscape is tested before the faults of the text, whose places are those in
    /// the text that the name stands for (own).
    pub fn from_file(alloc: Global, file: &[u8]) -> Result<Key, KeyFault>
        ensures found { IfOk result (λ k. (file.now ≡ file_text k) × IsKeyText k) }
        ensures only { (text : List ℕ) → IsKeyText text → file.now ≡ file_text text → MatchResult result (λ k. k ≡ text) (λ e. e ≡ KeyFault.NoMemory) }

        // Each fault stands exactly where its rule is broken first, unless memory runs out.
        ensures faults { (e : KeyFault) → e ≢ KeyFault.NoMemory → IsErrOf result e → BreaksFile e file.now }
        ensures first { (e : KeyFault) → BreaksFile e file.now → IsErrOf result e ⊎ IsErrOf result KeyFault.NoMemory }
        ensures exact { MatchResult result (λ k. key_of_file file.now ≡ Some k) (λ e. e ≢ KeyFault.NoMemory → key_of_file file.now ≡ None) }
    {
        let text = unescape(alloc, file)?;
        Key::parse(alloc, &text)
    }

    /// The backend, as `SHA256E`.
    pub fn backend(&self) -> &[u8]
        ensures value { result.now ≡ backend_part self.now }
        ensures spelled { (k : KeyParts) → IsKey k → self.now ≡ key_text k → result.now ≡ k.backend }
    {
        backend_word(&self.text)
    }

    /// The size of the content in bytes, where the key says it.
    pub fn size(&self) -> Option<u64>
        ensures value { result ≡ size_part self.now }
        ensures spelled { (k : KeyParts) → IsKey k → self.now ≡ key_text k → result ≡ k.size }
    {
        self.size
    }

    /// The name: what follows the two dashes.
    pub fn name(&self) -> &[u8]
        ensures value { result.now ≡ name_part self.now }
        ensures spelled { (k : KeyParts) → IsKey k → self.now ≡ key_text k → result.now ≡ k.name }
    {
        let text = self.text.as_slice();
        let Ok((_front, end)) = around_chunk(text) else {
            unreachable!();
        };
        let (_dashes, name) = end.split_at(2);
        name
    }

    /// Whether the backend's names are digests: MD5, SHA224, SHA256, SHA384 or SHA512, or one of these with an `E`.
    pub fn is_digest_backend(&self) -> bool
        ensures { result ≡ is_digest_backend (backend_part self.now) }
    {
        is_digest(self.backend())
    }

    /// The key without its chunk size and chunk.
    pub fn unchunked(&self, alloc: Global) -> Result<Key, NoMemory>
        ensures value { IfOk result (λ u. u ≡ unchunked_text self.now) }
        ensures spelled { (k : KeyParts) → IsKey k → self.now ≡ key_text k → IfOk result (λ u. u ≡ key_text (without_chunk k)) }
    {
        let text = self.text.as_slice();
        let Ok((front, end)) = around_chunk(text) else {
            unreachable!();
        };
        Ok(Key {
            text: joined(alloc, front, end)?,
            size: self.size,
        })
    }

    /// An equal key.
    pub fn copy(&self) -> Result<Key, NoMemory>
        ensures { IfOk result (λ k. k ≡ self.now) }
    {
        Ok(self.clone()?)
    }
}

fn joined(alloc: Global, front: &[u8], end: &[u8]) -> Result<Vec<u8>, AllocError>
    ensures { IfOk result (λ v. v.items ≡ front.now ++ end.now) }
{
    let mut text = Vec::from_slice(alloc, front)?;
    text.extend_from_slice(end)?;
    Ok(text)
}

fn is_one_of(word: &[u8], words: &[&[u8]]) -> bool
    ensures { result ≡ list_any (λ w. bytes_eq word.now w.now) words.now }
{
    words.iter().any(|w| word == *w)
}

fn is_digest(backend: &[u8]) -> bool
    ensures { result ≡ is_digest_backend backend.now }
{
    is_one_of(backend, &DIGESTS)
}

impl Clone for Key {
    ghost is_clone = { λ x y. y ≡ x };

    fn clone(&self) -> Result<Key, AllocError> {
        Ok(Key {
            text: self.text.clone()?,
            size: self.size,
        })
    }
}

impl PartialEq for Key {
    ghost eq = { pointwise ◌==◌ };

    ghost laws = { Prim.search (comparing, rules) };

    fn eq(&self, other: &Key) -> bool {
        self.text() == other.text()
    }
}

impl Eq for Key {
    ghost laws = { Prim.search (comparing, rules) };
}

impl Ord for Key {
    ghost cmp = { slice_cmp nat_cmp };

    ghost total = { Prim.search (comparing, rules) };

    ghost matches_partial_cmp = { Prim.search (comparing, rules) };

    ghost matches_eq = { Prim.search (comparing, rules) };

    fn cmp(&self, other: &Key) -> Ordering {
        self.text().cmp(other.text())
    }
}

impl PartialOrd for Key {
    ghost partial_cmp = { as_partial_cmp (slice_cmp nat_cmp) };

    ghost laws = { partial_order_from_own_ties (Prim.search (comparing, rules)) (Prim.search (comparing, rules)) };

    fn partial_cmp(&self, other: &Key) -> Option<Ordering> {
        Some(self.cmp(other))
    }
}

impl Hash for Key {
    ghost use Rattle.std.specs.Hash as fed;
    ghost use Rattle.std.specs.Cmp.Rules.{hashing};

    ghost hash_input = { fed.slice fed.u8 };

    ghost respects_eq = { Prim.search (hashing, rules) };

    fn hash<H: Hasher>(&self, state: &mut H) {
        self.text.hash(state);
    }
}
