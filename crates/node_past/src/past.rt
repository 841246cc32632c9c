//! What a repository has done, and what its next entry is made of.
ghost use Rattle.std.specs.Prelude.{◌≡◌, ◌<◌, ◌≤◌, ◌+◌, ◌^◌, Some, slice_get, vec_len};

use crate::setup::{Ended, SetClock, Setup};
use run_data::Entry;
use std::alloc::Global;

/// The entries of a repository, the oldest first, and what the next one is made of (own).
#[derive(Drop)]
pub struct Past {
    pub alloc: Global,
    pub setup: Setup,
    /// The script's time, in milliseconds.
    pub time: u64,
    pub clock: SetClock,
    /// The count of the last entry, or a greater one.
    pub count: u64,
    pub history: Vec<Entry>,
    /// Its jobs that have ended, in the order of their ends.
    pub outcomes: Vec<Ended>,
    ghost few: { vec_len history ≤ 100000 },
    // It is raised to less than 2 ^ 61 from outside, and by one with each entry.
    ghost counted: { count < 2 ^ 61 + vec_len history },
    ghost early: { time ≤ 1000000000000 },
    ghost near: { setup.offset ≤ 100000000000 },
    ghost set_early: { clock.at ≤ 1000000000000 },
    ghost set_near: { clock.to ≤ 100000000000 },
    ghost own: { slice_get setup.repos setup.number ≡ Some setup.id },
}
