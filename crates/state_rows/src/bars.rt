//! The bars of a repository: the job whose bar stands on a key.
ghost use Rattle.std.specs.Prelude.{◌≡◌, ◌<◌, ℕ, List, None, if◌then◌else◌, IfOk};
ghost use Rattle.indexmap.specs.IndexMap.{spare};
ghost use Rattle.node_model.specs.Rows.{bar_after, option_is};
ghost use Rattle.state_rows.specs.Changes.{barred_key, number_at};

use annex_base::NoMemory;
use annex_key::Key;
use indexmap::IndexMap;
use run_data::EntryKind;

/// A copy of the key that an entry of this kind bars, if it bars one.
pub(crate) fn barred_key(kind: &EntryKind) -> Result<Option<Key>, NoMemory>
    ensures { IfOk result (λ key. key ≡ barred_key kind.now) }
{
    match kind {
        EntryKind::Bar { key, .. } => Ok(Some(key.copy()?)),
        _ => Ok(None),
    }
}

/// Takes note of what an entry of this kind changes.
pub(crate) fn change_bars(bars: &mut IndexMap<Key, u32>, kind: &EntryKind, barred: Option<Key>)
    requires room { 0 < spare bars.old }
    requires barred { barred ≡ barred_key kind.now }
    ensures { (key : List ℕ) → number_at bars.new.entries key ≡ bar_after key (number_at bars.old.entries key) kind.now }
{
    match kind {
        EntryKind::Bar { job, .. } => {
            bars.insert(barred.unwrap(), *job).unwrap();
        }
        EntryKind::Gone { key, .. } => {
            bars.swap_remove(key);
        }
        EntryKind::End { job, .. } => end_bars(bars, *job),
        EntryKind::Crash { .. } => bars.clear(),
        _ => {}
    }
}

/// Takes off the bars of a job.
fn end_bars(bars: &mut IndexMap<Key, u32>, job: u32)
    ensures { (key : List ℕ) → number_at bars.new.entries key ≡ (if option_is (number_at bars.old.entries key) job then None else number_at bars.old.entries key) }
{
    // For the proof: no key stands in the map twice.
    let _ = bars.len();
    bars.retain(|_, barred| *barred != job);
}
