//! Sameness of numbers, of names, and of lines.
ghost use Rattle.std.specs.Prelude.{◌≡◌, ◌==◌};
ghost use Rattle.annex_base.specs.Bools.{same_bool};
ghost use Rattle.annex_base.specs.Calls.{call_number, same_call};
ghost use Rattle.node_model.specs.Rows.{same_owner};
ghost use Rattle.step_judging.specs.Same.{same_found, same_lines, same_need, same_number, same_numbers};

use annex_base::{Call, Found, Line};
use drop_proof::Need;
use run_data::By;

/// Whether the number is the one that is told.
pub fn is_number(made: u128, told: u64) -> bool
    ensures { result ≡ (made == told) }
{
    made == u128::from(told)
}

/// Whether the number, if there is one, is the one that is told.
pub(crate) fn is_number_if(made: Option<u128>, told: Option<u64>) -> bool
    ensures { result ≡ same_number made told }
{
    match (made, told) {
        (Some(made), Some(told)) => is_number(made, told),
        (None, None) => true,
        _ => false,
    }
}

/// Whether both are the same number, or neither is one.
pub fn same_number(one: Option<u32>, other: Option<u32>) -> bool
    ensures { result ≡ same_number one other }
{
    match (one, other) {
        (Some(one), Some(other)) => one == other,
        (None, None) => true,
        _ => false,
    }
}

pub fn same_numbers(one: &[u32], other: &[u32]) -> bool
    ensures { result ≡ same_numbers one.now other.now }
{
    one == other
}

pub(crate) fn same_bool(one: bool, other: bool) -> bool
    ensures { result ≡ same_bool one other }
{
    one == other
}

/// Whether both are the same job or session, or the script.
pub fn same_owner(one: By, other: By) -> bool
    ensures { result ≡ same_owner one other }
{
    match (one, other) {
        (By::Script, By::Script) => true,
        (By::Job(job), By::Job(number)) => job == number,
        (By::Peer { peer, slot }, By::Peer { peer: p, slot: s }) => peer == p && slot == s,
        _ => false,
    }
}

pub fn same_need(one: Need, other: Need) -> bool
    ensures { result ≡ same_need one other }
{
    one.n == other.n && one.m == other.m
}

fn call_number(call: Call) -> u8
    ensures { result ≡ call_number call }
{
    match call {
        Call::Has => 0,
        Call::Size => 1,
        Call::Read => 2,
        Call::PartSize => 3,
        Call::ReadPart => 4,
        Call::Append => 5,
        Call::Commit => 6,
        Call::DropPart => 7,
        Call::Remove => 8,
        Call::Hold => 9,
        Call::Unhold => 10,
        Call::Holds => 11,
        Call::PutFile => 12,
        Call::File => 13,
    }
}

pub fn same_call(one: Call, other: Call) -> bool
    ensures { result ≡ same_call one other }
{
    call_number(one) == call_number(other)
}

pub(crate) fn same_found(one: Found, other: Found) -> bool
    ensures { result ≡ same_found one other }
{
    match one {
        Found::Present => matches!(other, Found::Present),
        Found::Absent => matches!(other, Found::Absent),
        Found::Barred => matches!(other, Found::Barred),
        Found::Held => matches!(other, Found::Held),
        Found::Late => matches!(other, Found::Late),
        Found::Nolock => matches!(other, Found::Nolock),
    }
}

pub fn same_lines(one: &[Line], other: &[Line]) -> bool
    ensures { result ≡ same_lines one.now other.now }
{
    one == other
}
