//! Plans whose parts are handed to threads.

ghost use Rattle.std.specs.Prelude.{◌≡◌, ◌<◌, ◌^◌, flat_map, length, IfOk};
ghost use Rattle.trust_groups.specs.View.{settings_of};
ghost use Rattle.wanted_rules.specs.Plan.{plan};

use crate::plans::{plan_keys, read_wishes};
use annex_base::{NoMemory, RepoId};
use annex_key::{Key, Tree};
use rayon::prelude::*;
use std::alloc::Global;
use std::thread::Threads;
use trust_groups::Settings;
use wanted_rules::Action;

/// How many keys a part has: enough that it is worth a thread.
const KEYS_A_PART: usize = 64;

/// The plan that `plan` makes, for which the keys are cut into parts that `rayon` hands to threads; it is the same for every
/// number of threads (own). `here` is the repository's place among the repositories. The expressions of each repository are
/// found once, before; the cost of all parts together grows with the number of keys times that of repositories. The only
/// error is want of memory.
pub fn par_plan<R: Threads + Sync>(
    rt: &R,
    alloc: Global,
    settings: &Settings,
    tree: &Tree,
    here: u32,
    repos: &[RepoId],
) -> Result<Vec<Action>, NoMemory>
    requires here { here < length repos.now }
    requires few { length repos.now < 2 ^ 32 }
    ensures { IfOk result (λ actions. actions.items ≡ plan (settings_of settings.now) tree.now here repos.now) }
{
    let read = read_wishes(alloc, settings, repos)?;
    let wishes = read.as_slice();
    let keys = tree.keys(alloc)?;
    let parts: Result<Vec<Vec<Action>>, NoMemory> = keys
        .par_chunks(KEYS_A_PART)
        .with_min_len(1)
        .map(|part: &[Key]| plan_keys(alloc, settings, tree, here, repos, wishes, part))
        .collect(rt, alloc)?;
    joined(alloc, parts?)
}

/// The parts of a plan, one after the other.
fn joined(alloc: Global, parts: Vec<Vec<Action>>) -> Result<Vec<Action>, NoMemory>
    ensures { IfOk result (λ actions. actions.items ≡ flat_map (λ part. part.items) parts.items) }
{
    let mut actions = Vec::new(alloc);
    for mut part in parts {
        actions.append(&mut part)?;
    }
    Ok(actions)
}
