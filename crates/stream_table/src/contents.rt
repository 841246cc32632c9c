//! Contents and their keys, at once and in two pieces.
ghost use Rattle.std.specs.Prelude.{◌+◌, ◌<◌, ◌^◌, length};

use annex_base::NoMemory;
use annex_key::Key;
use key_verify::{Digester, Verdict, judge_sum, matches};
use std::alloc::Global;
use table_cases::{Case, TableFault, put_truth};

/// The key of this text, which must be one.
fn key_of(alloc: Global, text: &[u8]) -> Result<Key, TableFault> {
    match Key::parse(alloc, text) {
        Ok(key) => Ok(key),
        Err(_) => Err(TableFault::Wrong),
    }
}

/// `content KEY | CONTENT`: whether the content is the key's.
pub fn content(alloc: Global, case: &Case, out: &mut String) -> Result<(), TableFault> {
    let key = key_of(alloc, case.text(0))?;
    let verdict = matches(alloc, &key, case.text(1))?;
    put_truth(out, verdict == Verdict::Right)
}

fn is_right(alloc: Global, key: &Key, first: &[u8], second: &[u8]) -> Result<bool, NoMemory>
    requires { length first.now + length second.now < 2 ^ 64 }
{
    let mut digester = Digester::new(key);
    digester.update(first);
    digester.update(second);
    let verdict = judge_sum(alloc, key, &digester.finish())?;
    Ok(verdict == Verdict::Right)
}

fn is_right_in_two(alloc: Global, key: &Key, bytes: &[u8]) -> Result<bool, NoMemory> {
    for cut in 0..bytes.len() {
        let (first, second) = bytes.split_at(cut);
        if !is_right(alloc, key, first, second)? {
            return Ok(false);
        }
    }
    Ok(true)
}

/// `halves KEY | CONTENT`: whether the content is the key's wherever it is cut in two.
pub fn halves(alloc: Global, case: &Case, out: &mut String) -> Result<(), TableFault> {
    let key = key_of(alloc, case.text(0))?;
    let is_right = is_right_in_two(alloc, &key, case.text(1))?;
    put_truth(out, is_right)
}
