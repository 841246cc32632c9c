//! Plans.

ghost use Rattle.std.specs.Prelude.{◌≡◌, ◌<◌, ◌^◌, length, IfOk};
ghost use Rattle.trust_groups.specs.View.{settings_of};
ghost use Rattle.wanted_rules.specs.Plan.{plan};
ghost use Rattle.sync_core.specs.KeyPlans.{plan_of_keys};
ghost use Rattle.sync_core.specs.Placement.{wishes_of};

use crate::adding::add_plan;
use crate::placement::Placement;
use annex_base::{NoMemory, RepoId};
use annex_key::{Key, Tree};
use std::alloc::Global;
use trust_groups::Settings;
use wanted_rules::{Action, Wishes};

/// What a repository is to do, by these settings and for the keys of this tree, so that it and its peers have the contents
/// that they want, and no others (own). `here` is its place among the repositories. The expressions of each repository are
/// found once; the cost grows with the number of keys times that of repositories.
pub fn plan(
    alloc: Global,
    settings: &Settings,
    tree: &Tree,
    here: u32,
    repos: &[RepoId],
) -> Result<Vec<Action>, NoMemory>
    requires here { here < length repos.now }
    requires few { length repos.now < 2 ^ 32 }
    ensures { IfOk result (λ actions. actions.items ≡ plan (settings_of settings.now) tree.now here repos.now) }
{
    let wishes = read_wishes(alloc, settings, repos)?;
    let keys = tree.keys(alloc)?;
    plan_keys(alloc, settings, tree, here, repos, &wishes, &keys)
}

/// What is to be done for these keys of the tree, in their order. The wishes are those of the repositories.
pub(crate) fn plan_keys<'a>(
    alloc: Global,
    settings: &'a Settings,
    tree: &Tree,
    here: u32,
    repos: &'a [RepoId],
    wishes: &'a [Wishes<'a>],
    keys: &'a [Key],
) -> Result<Vec<Action>, NoMemory>
    requires here { here < length repos.now }
    requires few { length repos.now < 2 ^ 32 }
    requires wished { wishes.now ≡ wishes_of settings.now repos.now }
    ensures { IfOk result (λ actions. actions.items ≡ plan_of_keys settings.now tree.now here repos.now keys.now) }
{
    let mut actions = Vec::new(alloc);
    for key in keys {
        let placement = Placement::of_key(alloc, settings, tree, repos, wishes, key)?;
        add_plan(&mut actions, &placement, here)?;
    }
    Ok(actions)
}

/// Finds the expressions of each of the repositories.
pub(crate) fn read_wishes<'a>(
    alloc: Global,
    settings: &'a Settings,
    repos: &[RepoId],
) -> Result<Vec<Wishes<'a>>, NoMemory>
    ensures { IfOk result (λ wishes. wishes.items ≡ wishes_of settings.now repos.now) }
{
    let mut wishes = Vec::new(alloc);
    for repo in repos {
        wishes.push(Wishes::read(alloc, settings, *repo)?)?;
    }
    Ok(wishes)
}
