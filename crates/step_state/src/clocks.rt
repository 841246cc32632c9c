//! A clock as it was set last, and what an entry changes of it and of the number of jobs that were begun.
ghost use Rattle.std.specs.Prelude.{◌≡◌, ◌<◌, ◌≤◌, ◌+◌, ◌^◌};
ghost use Rattle.node_model.specs.After.{clock_after};
ghost use Rattle.node_model.specs.Clocks.{runs_on};
ghost use Rattle.node_model.specs.Slots.{begun_after};
ghost use Rattle.step_state.specs.Clocks.{clock_set};

use run_data::EntryKind;

/// When a clock was set last, and to what, both in milliseconds: it has run on since (own).
#[derive(Clone, Copy, Debug)]
pub struct SetClock {
    pub at: u64,
    pub to: u64,
}

/// When the clock was set last, after an entry of this time and kind, and to what.
pub(crate) fn clock_after(was: SetClock, time: u64, kind: &EntryKind) -> SetClock
    ensures { runs_on (clock_set result) ≡ clock_after (runs_on (clock_set was)) time kind.now }
{
    match kind {
        EntryKind::Crash { clock } => SetClock {
            at: time,
            to: *clock,
        },
        _ => was,
    }
}

pub(crate) fn begun_after(was: u64, kind: &EntryKind) -> u64
    requires { was + 1 < 2 ^ 64 }
    ensures value { result ≡ begun_after was kind.now }
    ensures few { result ≤ was + 1 }
{
    match kind {
        EntryKind::Begin { .. } => was + 1,
        _ => was,
    }
}
