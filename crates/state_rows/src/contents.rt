//! The contents of a repository: the size of each that is there.
ghost use Rattle.std.specs.Prelude.{◌≡◌, ◌<◌, ℕ, List, IfOk};
ghost use Rattle.indexmap.specs.IndexMap.{spare};
ghost use Rattle.node_model.specs.Rows.{content_after};
ghost use Rattle.state_rows.specs.Changes.{gained_key, number_at};

use annex_base::NoMemory;
use annex_key::Key;
use indexmap::IndexMap;
use run_data::EntryKind;

/// A copy of the key whose content an entry of this kind brings, if it brings one.
pub(crate) fn gained_key(kind: &EntryKind) -> Result<Option<Key>, NoMemory>
    ensures { IfOk result (λ key. key ≡ gained_key kind.now) }
{
    match kind {
        EntryKind::Gain { key, .. } => Ok(Some(key.copy()?)),
        _ => Ok(None),
    }
}

/// Takes note of what an entry of this kind changes.
pub(crate) fn change_contents(sizes: &mut IndexMap<Key, u64>, kind: &EntryKind, gained: Option<Key>)
    requires room { 0 < spare sizes.old }
    requires gained { gained ≡ gained_key kind.now }
    ensures { (key : List ℕ) → number_at sizes.new.entries key ≡ content_after key (number_at sizes.old.entries key) kind.now }
{
    match kind {
        EntryKind::Gain { size, .. } => {
            sizes.insert(gained.unwrap(), *size).unwrap();
        }
        EntryKind::Gone { key, .. } => {
            sizes.swap_remove(key);
        }
        _ => {}
    }
}
