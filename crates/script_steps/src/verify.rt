//! Whether contents match their keys, and the keys that are made of contents.
ghost use Rattle.std.specs.Prelude.{◌≡◌, ◌≤◌, ◌||◌, List, [], ℕ, length, IfOk};
ghost use Rattle.key_verify.specs.Sums.{HasTaken, bytes_taken, sum_of};
ghost use Rattle.script_forms.specs.Steps.{is_large};
ghost use Rattle.script_forms.specs.Verify as spec;

use annex_base::{NoMemory, Text};
use annex_key::Key;
use key_verify::{Digester, Sum, Verdict, judge_sum, make_key_of_sum};
use script_words::Content;
use std::alloc::Global;

/// How many bytes of a content are taken at a time.
const PIECE: usize = 4096;

/// The most bytes of one content.
const MOST_CONTENT: u64 = 16_777_216;

/// Whether the content passes the limit of one.
pub fn is_large(content: &Content) -> bool
    ensures { result ≡ is_large content.now }
{
    content.size() > MOST_CONTENT
}

/// The sum of the content, which the digester takes piece by piece.
fn content_sum(mut digester: Digester, content: &Content) -> Sum
    requires small { length content.now ≤ 16777216 }
    requires fresh { bytes_taken digester ≡ 0 }
    ensures { (key : List ℕ) → HasTaken digester key [] → result ≡ sum_of key content.now }
{
    let mut room = [0; PIECE];
    let mut at = 0;
    while at < content.size() {
        let count = content.piece(at, &mut room);
        let (piece, _) = room.split_at(count);
        digester.update(piece);
        at += count as u64;
    }
    digester.finish()
}

/// Whether the content matches the key.
#[tactic(auto, unfolding(script_forms::specs::Verify::is_content_of))]
fn is_content_of(alloc: Global, key: &Key, content: &Content) -> Result<bool, NoMemory>
    requires { length content.now ≤ 16777216 }
    ensures { IfOk result (λ b. b ≡ spec.is_content_of key.now content.now) }
{
    let sum = content_sum(Digester::new(key), content);
    match judge_sum(alloc, key, &sum)? {
        Verdict::Right => Ok(true),
        Verdict::WrongSize { .. } | Verdict::WrongDigest { .. } => Ok(false),
    }
}

/// Whether the content matches the key, or passes the limit of one and isn't looked at.
pub fn may_have(alloc: Global, key: &Key, content: &Content) -> Result<bool, NoMemory>
    ensures { IfOk result (λ b. b ≡ (is_large content.now || spec.is_content_of key.now content.now)) }
{
    if is_large(content) {
        return Ok(true);
    }
    is_content_of(alloc, key, content)
}

/// The key that is made of the content that a path gets.
#[tactic(auto, unfolding(script_forms::specs::Verify::made_key))]
pub fn key_for(alloc: Global, path: &Text, content: &Content) -> Result<Key, NoMemory>
    requires { length content.now ≤ 16777216 }
    ensures { IfOk result (λ k. k ≡ spec.made_key path.now content.now) }
{
    let sum = content_sum(Digester::for_made_key(), content);
    make_key_of_sum(alloc, path.bytes(), &sum)
}
