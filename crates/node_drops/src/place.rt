//! What jobs know of their repository's set-up, and its clock.
ghost use Rattle.std.specs.Prelude.{◌≡◌, ◌+◌, ◌<◌, ◌^◌, [], length, slice_get, unwrap_or};
ghost use Rattle.node_model.specs.Clocks.{runs_on};

use annex_base::{Items, RepoId};
use drop_worker::Time;
use std::marker::Model;

/// A repository among those of a run: its number, and the identifiers of all in order of number (own).
#[derive(Debug, Drop)]
pub struct Place {
    number: u32,
    ids: Items<RepoId>,
}

impl Model for Place {
    ghost use Rattle.std.specs.Prelude.{◌<◌, ◌^◌, length};
    ghost use Rattle.node_drops.specs.Places.{PlaceView};

    ghost Value = { PlaceView };

    ghost view = { λ p. record { number = p.number; ids = p.ids } };

    ghost invariant = { λ p. (p.number < length p.ids) × (length p.ids < 2 ^ 32) };
}

impl Place {
    pub fn new(number: u32, ids: Items<RepoId>) -> Place
        requires own { number < length ids }
        requires few { length ids < 2 ^ 32 }
        ensures { result ≡ record { number = number; ids = ids } }
    {
        Place { number, ids }
    }

    /// The repository's number.
    pub fn number(&self) -> u32
        ensures same { result ≡ self.now.number }
        ensures own { result < length self.now.ids }
    {
        self.number
    }

    /// How many repositories there are.
    pub fn count(&self) -> u32
        ensures count { result ≡ length self.now.ids }
        ensures own { self.now.number < result }
    {
        self.ids.as_slice().len() as u32
    }

    /// The identifier of one of the repositories.
    pub(crate) fn id_of(&self, repo: u32) -> RepoId
        requires among { repo < length self.now.ids }
        ensures { result ≡ unwrap_or (slice_get self.now.ids repo) [] }
    {
        let ids = self.ids.as_slice();
        ids[repo as usize]
    }

    pub fn ids(&self) -> &[RepoId]
        ensures { result.now ≡ self.now.ids }
    {
        self.ids.as_slice()
    }
}

/// The clock of a repository, in milliseconds: it was set at a time, and has run on since (own).
#[derive(Clone, Copy, Debug, PartialEq, Eq)]
pub struct Clock {
    at: u64,
    to: u64,
}

impl Model for Clock {
    ghost use Rattle.std.specs.Prelude.{◌<◌, ◌^◌};
    ghost use Rattle.node_model.specs.Clocks.{ClockSet};

    ghost Value = { ClockSet };

    ghost view = { λ c. record { at = c.at; to = c.to } };

    ghost inverse = { λ c. record { at = c.at; to = c.to } };

    ghost invariant = { λ c. c.to < 2 ^ 61 };
}

impl Clock {
    /// The clock that was set to this at this time.
    pub fn set(at: Time, to: u64) -> Clock
        requires { to < 2 ^ 61 }
        ensures { result ≡ record { at = at; to = to } }
    {
        Clock { at: at.ms(), to }
    }

    /// What it shows at a time.
    pub fn read(self, time: Time) -> u64
        ensures same { result ≡ runs_on self time }
        ensures early { result + 600000 < 2 ^ 62 }
    {
        time.ms().saturating_sub(self.at) + self.to
    }
}
