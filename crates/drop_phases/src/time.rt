//! Times of a run.
ghost use Rattle.std.specs.Prelude.{◌≡◌, ◌≤◌};

use std::marker::Model;

/// A time of a run: milliseconds since it began, at most 1,000,000,000,000. Contracts see it as a number (own).
#[derive(Clone, Copy, Debug, PartialEq, Eq)]
pub struct Time {
    ms: u64,
}

impl Model for Time {
    ghost use Rattle.std.specs.Prelude.{ℕ, ◌≤◌};

    ghost Value = { ℕ };

    ghost view = { λ t. t.ms };

    ghost inverse = { λ n. record { ms = n } };

    ghost invariant = { λ t. t.ms ≤ 1000000000000 };
}

impl Time {
    pub fn new(ms: u64) -> Time
        requires { ms ≤ 1000000000000 }
        ensures { result ≡ ms }
    {
        Time { ms }
    }

    /// The milliseconds.
    pub fn ms(self) -> u64
        ensures same { result ≡ self }
        ensures early { result ≤ 1000000000000 }
    {
        self.ms
    }
}
