//! Where a content is claimed to be, and where it is wanted.

ghost use Rattle.std.specs.Prelude.{◌≡◌, ◌<◌, ◌≤◌, ◌^◌, length, IfOk, bytes_eq};
ghost use Rattle.std.specs.List.{list_any};
ghost use Rattle.annex_key.specs.Tree.{paths_of};
ghost use Rattle.sync_core.specs.Placement.{lacks_at, spares_at, wishes_of};

use annex_base::{NoMemory, RepoId, Text};
use annex_key::{Key, Tree};
use std::alloc::Global;
use std::marker::Model;
use trust_groups::Settings;
use wanted_rules::Wishes;

/// A content of the tree before the repositories of a plan: who is claimed to have it, and who wants it. Contracts see
/// the settings, the repositories in order of number, the key and its paths.
#[derive(Drop)]
pub(crate) struct Placement<'a> {
    settings: &'a Settings,
    repos: &'a [RepoId],
    wishes: &'a [Wishes<'a>],
    key: &'a Key,
    paths: Vec<Text>,
    claimed: Vec<RepoId>,
}

impl<'a> Model for Placement<'a> {
    ghost use Rattle.sync_core.specs.Placement.{IsLookedUp, Placed};

    ghost Value = { Placed };

    ghost view = { λ p. record { indices = p.settings.now; repos = p.repos.now; key = p.key.now; paths = p.paths.items } };

    ghost invariant = { λ p. IsLookedUp p.settings.now p.repos.now p.wishes.now p.key.now p.claimed.items };
}

impl<'a> Placement<'a> {
    /// Looks up the paths of a key, and who is claimed to have it. The wishes are those of the repositories, in order.
    pub(crate) fn of_key(
        alloc: Global,
        settings: &'a Settings,
        tree: &Tree,
        repos: &'a [RepoId],
        wishes: &'a [Wishes<'a>],
        key: &'a Key,
    ) -> Result<Placement<'a>, NoMemory>
        requires { wishes.now ≡ wishes_of settings.now repos.now }
        ensures { IfOk result (λ p. p ≡ record { indices = settings.now; repos = repos.now; key = key.now; paths = paths_of tree.now key.now }) }
    {
        let paths = tree.paths(alloc, key)?;
        let claimed = settings.claims(key)?;
        Ok(Placement {
            settings,
            repos,
            wishes,
            key,
            paths,
            claimed,
        })
    }

    /// A copy of the key.
    pub(crate) fn key(&self) -> Result<Key, NoMemory>
        ensures { IfOk result (λ key. key ≡ self.now.key) }
    {
        Ok(self.key.copy()?)
    }

    /// How many repositories there are.
    pub(crate) fn count(&self) -> u32
        requires { length self.now.repos < 2 ^ 32 }
        ensures { result ≡ length self.now.repos }
    {
        self.repos.len() as u32
    }

    /// Whether the repository isn't claimed to have the content, and wants it.
    pub(crate) fn is_lacking(&self, repo: u32) -> Result<bool, NoMemory>
        requires { repo < length self.now.repos }
        ensures { IfOk result (λ b. b ≡ lacks_at self.now repo) }
    {
        let place = repo as usize;
        if is_among(&self.claimed, self.repos[place]) {
            return Ok(false);
        }
        self.wishes[place].wants(self.key, &self.paths, false)
    }

    /// Whether the repository is claimed to have the content, and with its copy assumed gone neither wants nor requires it.
    pub(crate) fn is_spare(&self, repo: u32) -> Result<bool, NoMemory>
        requires { repo < length self.now.repos }
        ensures { IfOk result (λ b. b ≡ spares_at self.now repo) }
    {
        let place = repo as usize;
        if !is_among(&self.claimed, self.repos[place]) {
            return Ok(false);
        }
        let wishes = &self.wishes[place];
        if wishes.wants(self.key, &self.paths, true)? {
            return Ok(false);
        }
        let required = wishes.required(self.key, &self.paths)?;
        Ok(required.is_none())
    }
}

fn is_among(repos: &[RepoId], repo: RepoId) -> bool
    ensures { result ≡ list_any (bytes_eq repo) repos.now }
{
    repos.iter().any(|other| repo == *other)
}
