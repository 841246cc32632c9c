//! The clock of a repository, and how many entries it has made and jobs it has begun.
ghost use Rattle.std.specs.Prelude.{◌≤◌};

use crate::clocks::{SetClock, begun_after, clock_after};
use run_data::Entry;

/// The clock of one repository, and how many entries it has made and jobs it has begun (own).
#[derive(Drop)]
pub struct Counts {
    clock: SetClock,
    made: u64,
    begun: u64,
    ghost fewer: { begun ≤ made },
}

impl Counts {
    ghost use Rattle.std.specs.Prelude.{◌≡◌, ◌<◌, ◌+◌, ◌^◌};
    ghost use Rattle.node_model.specs.After.{first_state, state_after};
    ghost use Rattle.node_model.specs.Clocks.{runs_on};
    ghost use Rattle.node_model.specs.SetUp.{SetUp};
    ghost use Rattle.node_model.specs.State.{State};
    ghost use Rattle.run_data.specs.Repos.{offset_of};
    ghost use Rattle.step_state.specs.Counts.{AreCountsOf, begun_in, clock_in, made_in};

    /// Before the first entry: the clock was set at the script's time 0, to the wall clock, which is so far ahead of it.
    pub(crate) fn new(offset: u64) -> Counts
        ensures counts { (s : SetUp) → offset_of s.repos s.number ≡ offset → AreCountsOf result (first_state s) }
        ensures made { made_in result ≡ 0 }
    {
        Counts {
            clock: SetClock { at: 0, to: offset },
            made: 0,
            begun: 0,
        }
    }

    /// Takes note of an entry.
    pub(crate) fn note(&mut self, entry: &Entry)
        requires { made_in self.old + 1 < 2 ^ 63 }
        ensures counts { (s : SetUp) (st : State) → AreCountsOf self.old st → AreCountsOf self.new (state_after s st entry.now) }
        ensures made { made_in self.new ≡ made_in self.old + 1 }
    {
        let clock = clock_after(self.clock, entry.time, &entry.kind);
        let begun = begun_after(self.begun, &entry.kind);
        *self = Counts {
            clock,
            made: self.made + 1,
            begun,
        };
    }

    /// What the clock says at a time of the script.
    pub(crate) fn clock(&self, time: u64) -> u128
        ensures value { result ≡ runs_on (clock_in self.now) time }
        ensures small { result < 2 ^ 65 }
    {
        u128::from(time.saturating_sub(self.clock.at)) + u128::from(self.clock.to)
    }

    pub(crate) fn made(&self) -> u64
        ensures { result ≡ made_in self.now }
    {
        self.made
    }

    pub(crate) fn begun(&self) -> u64
        ensures { result ≡ begun_in self.now }
    {
        self.begun
    }
}
