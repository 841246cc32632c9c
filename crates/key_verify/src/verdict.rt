//! The verdict on a content: the size comes before the digest.
ghost use Rattle.std.specs.Prelude.{◌≡◌, ◌↔◌, List, ℕ, IfOk, string_bytes};
ghost use Rattle.key_verify.specs.Digests.{digest_text, wanted_digest};
ghost use Rattle.key_verify.specs.Sums.{sum_of};
ghost use Rattle.key_verify.specs.Matching.{MatchesKey, verdict_of, digest_verdict, told_verdict};

use crate::digester::{Digest, Digester, Sum};
use crate::method::wanted_digest;
use annex_base::{NoMemory, Text};
use annex_key::Key;
use std::alloc::Global;

/// Whether a content is its key's. Sizes are in bytes, digests lower-case hexadecimal texts.
#[derive(Debug, PartialEq, Eq, Drop)]
pub enum Verdict {
    Right,
    WrongSize { want: u64, got: u64 },
    WrongDigest { want: Text, got: Text },
}

fn judge_digest(alloc: Global, key: &Key, digest: &Digest) -> Result<Verdict, NoMemory>
    ensures { IfOk result (λ v. v ≡ digest_verdict (wanted_digest key.now) (digest_text digest.now)) }
{
    let Some(want) = wanted_digest(key) else {
        return Ok(Verdict::Right);
    };
    let text = hex::encode(alloc, digest.bytes())?;
    compare(alloc, want, text)
}

fn compare(alloc: Global, want: &[u8], text: String) -> Result<Verdict, NoMemory>
    ensures { IfOk result (λ v. v ≡ told_verdict want.now (string_bytes text)) }
{
    if text.as_bytes() == want {
        return Ok(Verdict::Right);
    }
    Ok(Verdict::WrongDigest {
        want: Text::new(alloc, want)?,
        got: Text::from_vec(text.into_bytes()),
    })
}

fn judge(alloc: Global, key: &Key, sum: &Sum) -> Result<Verdict, NoMemory>
    ensures { IfOk result (λ v. v ≡ verdict_of key.now sum.now) }
{
    match key.size() {
        Some(want) if want != sum.size => Ok(Verdict::WrongSize {
            want,
            got: sum.size,
        }),
        _ => judge_digest(alloc, key, &sum.digest),
    }
}

/// The verdict on a content from its sum.
pub fn judge_sum(alloc: Global, key: &Key, sum: &Sum) -> Result<Verdict, NoMemory>
    ensures exact { IfOk result (λ v. v ≡ verdict_of key.now sum.now) }
    ensures right { (bytes : List ℕ) → sum.now ≡ sum_of key.now bytes → IfOk result (λ v. (v ≡ Verdict.Right) ↔ MatchesKey key.now bytes) }
{
    judge(alloc, key, sum)
}

/// The verdict on a content.
pub fn matches(alloc: Global, key: &Key, bytes: &[u8]) -> Result<Verdict, NoMemory>
    ensures exact { IfOk result (λ v. v ≡ verdict_of key.now (sum_of key.now bytes.now)) }
    ensures right { IfOk result (λ v. (v ≡ Verdict.Right) ↔ MatchesKey key.now bytes.now) }
{
    let mut digester = Digester::new(key);
    digester.update(bytes);
    let sum = digester.finish();
    judge_sum(alloc, key, &sum)
}
