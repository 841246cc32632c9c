//! The bars of a repository, as its entries change them.

ghost use Rattle.std.specs.Prelude.{◌≡◌, ℕ, if◌then◌else◌, List, OnOk, None};
ghost use Rattle.std.specs.BTreeMap.{get};
ghost use Rattle.node_model.specs.Rows.{bar_after, option_is};
ghost use Rattle.report_tables.specs.Contents.{key_cmp};

use annex_base::NoMemory;
use annex_key::Key;
use run_data::EntryKind;
use std::collections::BTreeMap;

/// Takes note of what an entry of their repository changes: the job whose bar stands on a key.
pub(crate) fn change_bars(bars: &mut BTreeMap<Key, u32>, kind: &EntryKind) -> Result<(), NoMemory>
    ensures { OnOk result ((key : List ℕ) → get key_cmp bars.new key ≡ bar_after key (get key_cmp bars.old key) kind.now) }
{
    match kind {
        EntryKind::Bar { job, key, .. } => {
            bars.insert(key.copy()?, *job)?;
        }
        EntryKind::Gone { key, .. } => {
            bars.remove(key);
        }
        EntryKind::End { job, .. } => end(bars, *job),
        EntryKind::Crash { .. } => bars.clear(),
        _ => {}
    }
    Ok(())
}

/// Takes off the bar of a job.
fn end(bars: &mut BTreeMap<Key, u32>, job: u32)
    ensures { (key : List ℕ) → get key_cmp bars.new key ≡ (if option_is (get key_cmp bars.old key) job then None else get key_cmp bars.old key) }
{
    bars.retain(|_, barred| *barred != job);
}
