//! What a node is given before its first entry, when its clock was set, and which of its entries end its jobs.
use annex_base::{Items, RepoId};
use std::marker::Model;

/// A repository as it is set up, and the identifiers of all repositories of its run in order of number (own).
#[derive(Debug, Drop)]
pub struct Setup {
    /// Its place among the repositories, from 0.
    pub number: u32,
    pub id: RepoId,
    /// How far its wall clock is ahead of the script's time, in milliseconds; at most 100,000,000,000.
    pub offset: u64,
    /// The greatest version of the P2P protocol that it speaks, 1 to 3.
    pub version: u8,
    /// Whether it gives holds to its peers.
    pub locks: bool,
    pub repos: Items<RepoId>,
}

/// When the clock that times locks was set last, and to what, both in milliseconds: it has run on since. The wall clock, which
/// makes stamps, is another (own).
#[derive(Clone, Copy, Debug, PartialEq, Eq)]
pub struct SetClock {
    pub at: u64,
    pub to: u64,
}

impl Model for SetClock {
    ghost use Rattle.node_model.specs.Clocks.{ClockSet};

    ghost Value = { ClockSet };

    ghost view = { λ c. record { at = c.at; to = c.to } };

    ghost inverse = { λ c. record { at = c.at; to = c.to } };
}

/// A job that has ended; the entry that ended it says how (own).
#[derive(Debug, Drop)]
pub struct Ended {
    /// The job's number.
    pub number: u32,
    /// The place of the entry that ended it in the history of its repository, from 0.
    pub place: usize,
}
