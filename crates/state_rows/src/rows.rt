//! The rows of one running repository.
ghost use Rattle.std.specs.Prelude.{◌≡◌, reverse, IfOk, OnOk};
ghost use Rattle.node_model.specs.After.{first_state, state_after};
ghost use Rattle.node_model.specs.SetUp.{SetUp};
ghost use Rattle.node_model.specs.State.{State};
ghost use Rattle.state_rows.specs.Changes.{SetsClock};
ghost use Rattle.state_rows.specs.Rows.{AreRowsOf, HasRoom, IsChangeOf, StaySame, bar_of, holds_of, size_of};

use crate::{bars, contents, holds};
use annex_base::NoMemory;
use annex_key::Key;
use indexmap::IndexMap;
use run_data::{Entry, EntryKind, Hold};
use std::alloc::Global;

/// The rows of one repository: the sizes of the contents that are there, the jobs whose bars stand, and the holds, the oldest
/// first (own).
#[derive(Drop)]
pub struct Rows {
    sizes: IndexMap<Key, u64>,
    bars: IndexMap<Key, u32>,
    holds: Vec<Hold>,
}

/// What an entry adds to the rows: the key of the content that it brings, the key that it bars, and the hold that it takes.
#[derive(Drop)]
pub struct RowChange {
    pub gained: Option<Key>,
    pub barred: Option<Key>,
    pub hold: Option<Hold>,
}

impl Rows {
    /// No content, no bar and no hold.
    pub fn new(alloc: Global) -> Rows
        ensures { (s : SetUp) → AreRowsOf result (first_state s) }
    {
        Rows {
            sizes: IndexMap::new(alloc),
            bars: IndexMap::new(alloc),
            holds: Vec::new(alloc),
        }
    }

    /// What an entry of this kind will add, and room for it. The rows stay.
    pub fn ready(&mut self, kind: &EntryKind) -> Result<RowChange, NoMemory>
        ensures change { IfOk result (IsChangeOf kind.now) }
        ensures room { OnOk result (HasRoom self.new) }
        ensures same { StaySame self.old self.new }
    {
        self.sizes.reserve(1)?;
        self.bars.reserve(1)?;
        self.holds.reserve(1)?;
        change_of(kind)
    }

    /// Takes note of an entry, by what was made ready for it. It takes no memory, and goes over the bars and the holds that stand
    /// where one of them ends, and else looks up the entry's key.
    pub fn note(&mut self, entry: &Entry, change: RowChange)
        requires room { HasRoom self.old }
        requires change { IsChangeOf entry.now.kind change }
        requires clock { SetsClock entry.now.kind }
        ensures { (s : SetUp) (st : State) → AreRowsOf self.old st → AreRowsOf self.new (state_after s st entry.now) }
    {
        let RowChange {
            gained,
            barred,
            hold,
        } = change;
        contents::change_contents(&mut self.sizes, &entry.kind, gained);
        bars::change_bars(&mut self.bars, &entry.kind, barred);
        holds::change_holds(&mut self.holds, &entry.kind, hold);
    }

    /// The size of the key's content, if it is there.
    pub fn size(&self, key: &Key) -> Option<u64>
        ensures { result ≡ size_of self.now key.now }
    {
        self.sizes.get(key).copied()
    }

    /// The job whose bar stands on the key.
    pub fn bar(&self, key: &Key) -> Option<u32>
        ensures { result ≡ bar_of self.now key.now }
    {
        self.bars.get(key).copied()
    }

    /// Its holds, the oldest first.
    pub fn holds(&self) -> &[Hold]
        ensures { reverse result.now ≡ holds_of self.now }
    {
        &self.holds
    }
}

fn change_of(kind: &EntryKind) -> Result<RowChange, NoMemory>
    ensures { IfOk result (IsChangeOf kind.now) }
{
    let gained = contents::gained_key(kind)?;
    let barred = bars::barred_key(kind)?;
    let hold = holds::new_hold(kind)?;
    Ok(RowChange {
        gained,
        barred,
        hold,
    })
}
