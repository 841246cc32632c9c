//! How many keys of a storm have a copy at the end.

ghost use Rattle.std.specs.Prelude.{◌≡◌, ◌≤◌, ◌<◌, ◌^◌, IfOk, length, nat_le, ℕ};
ghost use Rattle.annex_base.specs.Lists.{Each};
ghost use Rattle.kept_copies.specs.Scripts.{kept_of};
ghost use Rattle.kept_copies.specs.Storms.{storm_keys};
ghost use Rattle.report_tables.specs.Walk.{IsAhead, IsWellFormed, StandsAt};
ghost use Rattle.run_model.specs.Safety.{copies_at};
ghost use Rattle.storm_script.specs.Storm.{key_word};

use crate::counting::one_if;
use annex_base::{NoMemory, put_number};
use annex_key::Key;
use report_tables::Walk;
use run_data::Run;
use std::alloc::Global;

/// How many keys of a storm some repository has at the end of the run.
pub(crate) fn kept_keys(alloc: Global, run: &Run) -> Result<u64, NoMemory>
    requires formed { Each IsWellFormed run.now.entries }
    requires ahead { Each IsAhead run.now.repos }
    requires few { length run.now.repos < 2 ^ 32 }
    ensures { IfOk result (λ kept. kept ≡ kept_of run.now storm_keys) }
{
    let mut walk = Walk::new(alloc, run)?;
    let entries = run.entries.as_slice();
    walk.move_to(alloc, run, entries.len())?;
    let mut kept = 0;
    for number in 0..16 {
        let key = storm_key(alloc, number)?;
        let has = has_copy(alloc, &walk, run, &key)?;
        kept += one_if(has);
    }
    Ok(kept)
}

/// The key of a storm with this number.
fn storm_key(alloc: Global, number: u64) -> Result<Key, NoMemory>
    ensures { IfOk result (λ key. key ≡ key_word number) }
{
    let mut text = Vec::new(alloc);
    text.extend_from_slice(b"WORM-s3--k")?;
    put_number(&mut text, number)?;
    // The text is a key's, so nothing but memory can be wanting.
    match Key::parse(alloc, &text) {
        Ok(key) => Ok(key),
        Err(_) => Err(NoMemory),
    }
}

/// Whether some repository has the key where the walk stands.
fn has_copy(alloc: Global, walk: &Walk, run: &Run, key: &Key) -> Result<bool, NoMemory>
    requires { length run.now.repos < 2 ^ 32 }
    ensures { IfOk result (λ has. (place : ℕ) → StandsAt walk.now run.now place → has ≡ nat_le 1 (copies_at run.now key.now place)) }
{
    let numbers = walk.possessors(alloc, run, key)?;
    Ok(1 <= numbers.as_slice().len())
}
