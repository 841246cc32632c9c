//! The row that an entry found.
ghost use Rattle.std.specs.Prelude.{◌≡◌, IfOk, None, Some, option_copied};
ghost use Rattle.node_model.specs.SetUp.{SetUp};
ghost use Rattle.node_model.specs.State.{State};
ghost use Rattle.step_judging.specs.Verdicts.{absent_row, hold_view, key_in, row_of};
ghost use Rattle.step_state.specs.States.{IsStateOf};
ghost use Rattle.state_rows.specs.Rows.{AreRowsOf};
ghost use Rattle.state_checks.specs.Rows.{blocking};
ghost use Rattle.run_data.specs.declared.entry.EntryKind.TheVariants.{Log};
ghost use Rattle.step_state.specs.declared.state.RepoState.{RepoState};

use crate::row::blocks;
use annex_base::{Items, NoMemory};
use annex_key::Key;
use run_data::{Entry, EntryKind, Hold, HoldView, LogFile, RowView};
use state_rows::Rows;
use std::alloc::Global;
use step_state::RepoState;

/// The row of the entry's key as the entry found it, by the state of its repository before it, with those of its holds that block at
/// the entry's time; where it has no key or is of no repository, a row without content, bar and holds.
pub fn row_found(
    alloc: Global,
    state: Option<&RepoState>,
    entry: &Entry,
) -> Result<RowView, NoMemory>
    ensures none { option_copied state.entry ≡ None → IfOk result (λ row. row ≡ absent_row) }
    ensures some { (x : RepoState) → option_copied state.entry ≡ Some x → IfOk result (λ row. (s : SetUp) (st : State) → IsStateOf x s st → row ≡ row_of st (st.clock entry.now.time) (key_in entry.now.kind)) }
{
    match (state, key_in(&entry.kind)) {
        (Some(state), Some(key)) => row_of(alloc, state.rows(), state.clock(entry.time), key),
        _ => Ok(absent(alloc)),
    }
}

fn absent(alloc: Global) -> RowView
    ensures { result ≡ absent_row }
{
    RowView {
        present: false,
        bar: None,
        holds: Items::new(alloc),
    }
}

/// The key of an entry, if it has one.
fn key_in(kind: &EntryKind) -> Option<&Key>
    ensures { option_copied result ≡ key_in kind.now }
{
    match kind {
        EntryKind::Begin { what, .. } => Some(&what.key),
        EntryKind::Gain { key, .. }
        | EntryKind::Share { key, .. }
        | EntryKind::Release { key, .. }
        | EntryKind::Check { key, .. }
        | EntryKind::Bar { key, .. }
        | EntryKind::Order { key, .. }
        | EntryKind::Gone { key, .. } => Some(key),
        EntryKind::Log { file } | EntryKind::Compact { file } => located(file),
        _ => None,
    }
}

/// The key whose location log the file is.
fn located(file: &LogFile) -> Option<&Key>
    ensures { option_copied result ≡ key_in (Log file.now) }
{
    match file {
        LogFile::Location(key) => Some(key),
        _ => None,
    }
}

fn row_of(alloc: Global, rows: &Rows, clock: u128, key: &Key) -> Result<RowView, NoMemory>
    ensures { IfOk result (λ row. (st : State) → AreRowsOf rows.now st → row ≡ row_of st clock (Some key.now)) }
{
    let holds = blocking(alloc, rows.holds(), key, clock)?;
    Ok(RowView {
        present: rows.size(key).is_some(),
        bar: rows.bar(key),
        holds,
    })
}

/// Those of the holds that block the key, as they are printed.
fn blocking(
    alloc: Global,
    holds: &[Hold],
    key: &Key,
    clock: u128,
) -> Result<Items<HoldView>, NoMemory>
    ensures { IfOk result (λ views. views ≡ blocking holds.now key.now clock) }
{
    let mut views = Items::new(alloc);
    for hold in holds {
        if blocks(hold, key, clock) {
            views.push(view_of(hold))?;
        }
    }
    Ok(views)
}

fn view_of(hold: &Hold) -> HoldView
    ensures { result ≡ hold_view hold.now }
{
    HoldView {
        number: hold.number,
        end: hold.end,
        kept: hold.kept,
    }
}
