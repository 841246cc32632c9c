//! What an entry changes of the lines that are owed.
ghost use Rattle.std.specs.Prelude.{◌≡◌, ◌<◌, ◌++◌, ℕ, List, drop, option_to_list, if◌then◌else◌, IfSome};
ghost use Rattle.std.specs.VecDeque.{deque_capacity, deque_len};
ghost use Rattle.annex_base.specs.declared.kinds.Call.TheVariants.{PutFile};
ghost use Rattle.node_model.specs.OwedLines.{OwedLine, owed_without};
ghost use Rattle.state_owed.specs.Changes.{AddsWithin, changed};
ghost use Rattle.state_owed.specs.Lines.{IsWithin};

use crate::debts::Debt;
use annex_base::Call;
use run_data::By;
use std::collections::VecDeque;

/// What an entry changes of the lines that its repository owes (own).
#[derive(Drop)]
pub enum OwedChange {
    /// They stay.
    Stay,
    /// This one is owed after them.
    Adds(Debt),
    /// The first is owed no more: it is paid, or it couldn't be written.
    FirstGoes,
    /// None is owed any more.
    AllGo,
}

pub(crate) fn added(line: Option<Debt>) -> OwedChange
    ensures change { (was : List OwedLine) → changed result was ≡ was ++ option_to_list line }
    ensures within { (count : ℕ) → IfSome line (IsWithin count) → AddsWithin count result }
{
    match line {
        Some(line) => OwedChange::Adds(line),
        None => OwedChange::Stay,
    }
}

pub(crate) fn paid(goes: bool) -> OwedChange
    ensures change { (was : List OwedLine) → changed result was ≡ (if goes then drop 1 was else was) }
    ensures within { (count : ℕ) → AddsWithin count result }
{
    if goes {
        OwedChange::FirstGoes
    } else {
        OwedChange::Stay
    }
}

/// A file couldn't be written for this.
fn unwritten(by: By) -> OwedChange
    ensures change { (was : List OwedLine) → changed result was ≡ owed_without PutFile by was }
    ensures within { (count : ℕ) → AddsWithin count result }
{
    match by {
        By::Script => OwedChange::Stay,
        By::Job(_) | By::Peer { .. } => OwedChange::FirstGoes,
    }
}

/// A call of the store failed.
pub(crate) fn failed(call: Call, by: By) -> OwedChange
    ensures change { (was : List OwedLine) → changed result was ≡ owed_without call by was }
    ensures within { (count : ℕ) → AddsWithin count result }
{
    match call {
        Call::PutFile => unwritten(by),
        _ => OwedChange::Stay,
    }
}

/// Changes the lines so.
pub(crate) fn change_lines(lines: &mut VecDeque<Debt>, change: OwedChange)
    requires { deque_len lines.old < deque_capacity lines.old }
    ensures { lines.new.items ≡ changed change lines.old.items }
{
    match change {
        OwedChange::Stay => {}
        OwedChange::Adds(line) => lines.push_back_reserved(line),
        OwedChange::FirstGoes => {
            lines.pop_front();
        }
        OwedChange::AllGo => lines.clear(),
    }
}
