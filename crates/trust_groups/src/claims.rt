//! The repositories that are claimed to have a key.

ghost use Rattle.std.specs.Prelude.{◌≡◌, ◌≢◌, ◌↔◌, ◌++◌, [], ◌∷◌, ℕ, List, IfOk, OnOk};
ghost use Rattle.std.specs.List.Sorted.{IsStrictlySortedBy};
ghost use Rattle.annex_base.specs.ByteOrder.{text_cmp};
ghost use Rattle.annex_base.specs.Lists.{Member};
ghost use Rattle.annex_base.specs.declared.kinds.Level.TheVariants.{Dead};
ghost use Rattle.log_lines.specs.declared.entry.LogKind.TheVariants as kinds;
ghost use Rattle.log_lines.specs.Newest.{newest};
ghost use Rattle.union_merge.specs.Branch.{lines_at};
ghost use Rattle.hash_dirs.specs.LogPath.{location_path};
ghost use Rattle.trust_groups.specs.Settings.{level, claims, is_present, is_dead};
ghost use Rattle.trust_groups.specs.Claims.{IsClaimed};
ghost use Rattle.log_lines.specs.Index.{entries_in, entry_with};
ghost use Rattle.trust_groups.specs.Kept.{level_among, claims_among};
ghost use Rattle.trust_groups.specs.Reads.{entries_or_none};
ghost use Rattle.std.specs.Option.{option_copied};
ghost use Rattle.trust_groups.specs.View.{level_of};

use crate::files::lines_of;
use crate::levels::{Levels, level_among};
use annex_base::{Level, NoMemory, RepoId};
use annex_key::Key;
use hash_dirs::location_path;
use log_lines::{
    LogKind, Newest, Statement, Topic, Value, entries_are_found_by_topic, readings_are_exact,
};
use std::alloc::Global;
use std::collections::btree_map::Iter;
use union_merge::Branch;

fn is_present(value: &Value) -> bool
    ensures { result ≡ is_present value.now }
{
    matches!(value, Value::Present)
}

fn is_dead(level: Level) -> bool
    ensures { result ≡ is_dead level }
{
    matches!(level, Level::Dead)
}

fn add_claim(
    repos: &mut Vec<RepoId>,
    trust: Option<&Newest>,
    topic: &Topic,
    statement: &Statement,
) -> Result<(), NoMemory>
    ensures { OnOk result (repos.new.items ≡ repos.old.items ++ claims_among (level_among (entries_or_none (option_copied trust.entry))) (entry_with topic.now statement.now ∷ [])) }
{
    if let Topic::Repo(repo) = topic {
        if is_present(&statement.value) && !is_dead(level_among(trust, *repo)) {
            repos.push(*repo)?;
        }
    }
    Ok(())
}

fn claims_by(
    alloc: Global,
    trust: Option<&Newest>,
    entries: Iter<'_, Topic, Statement>,
) -> Result<Vec<RepoId>, NoMemory>
    ensures { IfOk result (λ v. v.items ≡ claims_among (level_among (entries_or_none (option_copied trust.entry))) (entries_in entries.entry)) }
{
    let mut repos = Vec::new(alloc);
    for (topic, statement) in entries {
        add_claim(&mut repos, trust, topic, statement)?;
    }
    Ok(repos)
}

fn claims_among(
    alloc: Global,
    trust: Option<&Newest>,
    log: &Newest,
) -> Result<Vec<RepoId>, NoMemory>
    ensures value { IfOk result (λ v. v.items ≡ claims_among (level_among (entries_or_none (option_copied trust.entry))) log.now.entries) }
    ensures sorted { IfOk result (λ v. IsStrictlySortedBy text_cmp v.items) }
    ensures alive { IfOk result (λ v. (repo : List ℕ) → Member repo v.items → level_among (entries_or_none (option_copied trust.entry)) repo ≢ Dead) }
{
    let entries = log.entries();
    claims_by(alloc, trust, entries)
}

/// The claims by the indices of trust.log and of a key's location log.
pub(crate) fn claims_in(
    alloc: Global,
    trust: Option<&Newest>,
    log: Option<&Newest>,
) -> Result<Vec<RepoId>, NoMemory>
    ensures value { IfOk result (λ v. v.items ≡ claims_among (level_among (entries_or_none (option_copied trust.entry))) (entries_or_none (option_copied log.entry))) }
    ensures sorted { IfOk result (λ v. IsStrictlySortedBy text_cmp v.items) }
    ensures alive { IfOk result (λ v. (repo : List ℕ) → Member repo v.items → level_among (entries_or_none (option_copied trust.entry)) repo ≢ Dead) }
{
    match log {
        Some(log) => claims_among(alloc, trust, log),
        None => Ok(Vec::new(alloc)),
    }
}

/// The repositories that are claimed to have a key, each once, in order of identifier: those whose newest status is `1`,
/// but for dead ones (git-annex internals: location log; git-annex-dead).
pub fn claims_of(
    alloc: Global,
    branch: &Branch,
    levels: &Levels,
    key: &Key,
) -> Result<Vec<RepoId>, NoMemory>
    ensures value { IfOk result (λ v. v.items ≡ claims_among (level_of levels.now) (newest kinds.Location (lines_at branch.now (location_path key.now)))) }
    ensures exact { level_of levels.now ≡ level (lines_at branch.now) → IfOk result (λ v. v.items ≡ claims (lines_at branch.now) key.now) }
    ensures claimed { level_of levels.now ≡ level (lines_at branch.now) → IfOk result (λ v. (repo : List ℕ) → Member repo v.items ↔ IsClaimed (lines_at branch.now) key.now repo) }
    ensures sorted { IfOk result (λ v. IsStrictlySortedBy text_cmp v.items) }
    ensures alive { IfOk result (λ v. (repo : List ℕ) → Member repo v.items → level_of levels.now repo ≢ Dead) }
{
    // laws, for the proof that these are the claimed ones
    readings_are_exact();
    entries_are_found_by_topic();
    let path = location_path(alloc, key)?;
    let lines = lines_of(branch, path.bytes());
    let log = Newest::read(alloc, LogKind::Location, lines)?;
    claims_among(alloc, Some(levels.index()), &log)
}
