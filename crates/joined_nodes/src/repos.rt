//! The repositories of a run, and how each of their nodes is set up.
ghost use Rattle.std.specs.Prelude.{◌≡◌, ◌<◌, ◌^◌, ◌↔◌, IfOk, IsTrue, Some, length, slice_get};
ghost use Rattle.annex_base.specs.Lists.{Each};
ghost use Rattle.run_data.specs.Repos.{IsSetUp};
ghost use Rattle.run_data.specs.declared.run.RepoView.{RepoView};
ghost use Rattle.joined_nodes.specs.Apart.{are_apart, is_among};
ghost use Rattle.joined_nodes.specs.Joined.{MayRun, ids_of, setup_of};

use annex_base::{Items, NoMemory, RepoId};
use repo_node::Setup;
use run_data::RepoView;
use std::alloc::Global;

/// The latest clock, in milliseconds ahead of the script's.
const MOST_OFFSET: u64 = 100_000_000_000;

/// One more than the most repositories of a run.
const TOO_MANY: usize = 1 << 32;

/// Whether these repositories may make a run: no two have one identifier, their clocks are at most 100,000,000,000 milliseconds
/// ahead, their versions are 1 to 3, and they are fewer than 2^32.
pub fn may_run(repos: &[RepoView]) -> bool
    ensures { IsTrue result ↔ MayRun repos.now }
{
    if TOO_MANY <= repos.len() {
        return false;
    }
    are_set_up(repos) && are_apart(repos)
}

fn are_set_up(repos: &[RepoView]) -> bool
    ensures { IsTrue result ↔ Each IsSetUp repos.now }
{
    for repo in repos.iter() {
        if !is_set_up(repo) {
            return false;
        }
    }
    true
}

fn is_set_up(repo: &RepoView) -> bool
    ensures { IsTrue result ↔ IsSetUp repo.now }
{
    // For the proof: an identifier has sixteen bytes.
    let _ = repo.id.print();
    repo.offset <= MOST_OFFSET && 1 <= repo.version && repo.version <= 3
}

/// Whether one of these repositories has the identifier.
fn is_among(id: RepoId, repos: &[RepoView]) -> bool
    ensures { result ≡ is_among id repos.now }
{
    for repo in repos.iter() {
        if repo.id == id {
            return true;
        }
    }
    false
}

/// Whether no two have one identifier.
fn are_apart(repos: &[RepoView]) -> bool
    ensures { result ≡ are_apart repos.now }
{
    for (place, repo) in repos.iter().enumerate() {
        let (_before, others) = repos.split_at(place + 1);
        if is_among(repo.id, others) {
            return false;
        }
    }
    true
}

/// Their identifiers.
fn ids(alloc: Global, repos: &[RepoView]) -> Result<Items<RepoId>, NoMemory>
    ensures { IfOk result (λ ids. ids ≡ ids_of repos.now) }
{
    let mut ids = Items::new(alloc);
    for repo in repos {
        ids.push(repo.id)?;
    }
    Ok(ids)
}

/// What the repository of this number is given before its first entry.
pub(crate) fn setup_of(alloc: Global, repos: &[RepoView], number: usize) -> Result<Setup, NoMemory>
    requires there { number < length repos.now }
    requires few { length repos.now < 2 ^ 32 }
    ensures { IfOk result (λ setup. (repo : RepoView) → slice_get repos.now number ≡ Some repo → setup ≡ setup_of (ids_of repos.now) number repo) }
{
    let repo = &repos[number];
    Ok(Setup {
        number: number as u32,
        id: repo.id,
        offset: repo.offset,
        version: repo.version,
        locks: repo.locks,
        repos: ids(alloc, repos)?,
    })
}
