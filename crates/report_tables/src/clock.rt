//! The clock of a repository, as it was set last.

ghost use Rattle.std.specs.Prelude.{◌≤◌};

use run_data::EntryKind;

/// When a clock was set last, and to what, in milliseconds.
#[derive(Clone, Copy, Debug)]
pub(crate) struct Setting {
    at: u64,
    to: u64,
    ghost small: { to ≤ 100000000000 },
}

impl Setting {
    ghost use Rattle.std.specs.Prelude.{◌≡◌};
    ghost use Rattle.node_model.specs.Clocks.{runs_on};
    ghost use Rattle.run_model.specs.Past.{set_after};
    ghost use Rattle.report_tables.specs.Scan.{set_of};
    ghost use Rattle.report_tables.specs.Walk.{SetsClock};

    /// At first it is the wall clock, so far ahead of the script's time.
    pub(crate) fn new(offset: u64) -> Setting
        requires { offset ≤ 100000000000 }
        ensures { set_of result ≡ record { at = 0; to = offset } }
    {
        Setting { at: 0, to: offset }
    }

    /// How the clock is set after an entry of its repository at this time.
    pub(crate) fn after(self, time: u64, kind: &EntryKind) -> Setting
        requires { SetsClock kind.now }
        ensures { set_of result ≡ set_after time (set_of self) kind.now }
    {
        match kind {
            EntryKind::Crash { clock } => Setting {
                at: time,
                to: *clock,
            },
            _ => self,
        }
    }

    /// What the clock shows at a time.
    pub(crate) fn shows(self, time: u64) -> u64
        requires { time ≤ 1000000000000 }
        ensures { result ≡ runs_on (set_of self) time }
    {
        time.saturating_sub(self.at) + self.to
    }
}
