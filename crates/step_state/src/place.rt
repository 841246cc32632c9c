//! Where a repository stands in its run.
ghost use Rattle.std.specs.Prelude.{◌≡◌, ◌<◌, ◌≤◌, length, map, IfOk};
ghost use Rattle.run_data.specs.Repos.{offset_of};

use annex_base::{NoMemory, RepoId};
use run_data::RepoView;
use std::alloc::Global;

/// The place of a repository in its run, the identifiers of all in order of number, and how far its wall clock is ahead of the
/// script's time, in milliseconds (own).
#[derive(Drop)]
pub struct Place {
    number: u32,
    ids: Vec<RepoId>,
    offset: u64,
    ghost within: { number < length ids.items },
    ghost near: { offset ≤ 100000000000 },
}

impl Place {
    ghost use Rattle.std.specs.Prelude.{◌+◌};
    ghost use Rattle.node_model.specs.SetUp.{SetUp};
    ghost use Rattle.step_state.specs.Places.{IsPlaceOf, count_in, ids_in, number_in, offset_in};

    pub(crate) fn new(alloc: Global, repos: &[RepoView], number: u32) -> Result<Place, NoMemory>
        requires within { number < length repos.now }
        requires near { offset_of repos.now number ≤ 100000000000 }
        ensures place { IfOk result (λ place. (s : SetUp) → s.repos ≡ repos.now → s.number ≡ number → IsPlaceOf place s) }
        ensures count { IfOk result (λ place. count_in place ≡ length repos.now) }
    {
        let offset = offset_of(repos, number);
        let ids = identifiers(alloc, repos)?;
        Ok(Place {
            number,
            ids,
            offset,
        })
    }

    pub(crate) fn number(&self) -> u32
        ensures value { result ≡ number_in self.now }
        ensures within { result < count_in self.now }
    {
        self.number
    }

    pub(crate) fn ids(&self) -> &[RepoId]
        ensures { result.now ≡ ids_in self.now }
    {
        &self.ids
    }

    pub(crate) fn offset(&self) -> u64
        ensures { result ≡ offset_in self.now }
    {
        self.offset
    }

    /// What the wall clock says at a time of the script.
    pub(crate) fn wall(&self, time: u64) -> u64
        requires { time ≤ 1000000000000 }
        ensures value { result ≡ time + offset_in self.now }
        ensures small { result ≤ 1100000000000 }
    {
        time + self.offset
    }
}

fn offset_of(repos: &[RepoView], number: u32) -> u64
    requires { number < length repos.now }
    ensures { result ≡ offset_of repos.now number }
{
    repos[number as usize].offset
}

/// The identifiers of repositories, in order of number.
fn identifiers(alloc: Global, repos: &[RepoView]) -> Result<Vec<RepoId>, NoMemory>
    ensures { IfOk result (λ ids. ids.items ≡ map (λ repo. repo.id) repos.now) }
{
    let mut ids = Vec::new(alloc);
    for repo in repos {
        ids.push(repo.id)?;
    }
    Ok(ids)
}
