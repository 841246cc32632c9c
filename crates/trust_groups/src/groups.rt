//! The groups and the level of one repository, and which repositories are grouped.

ghost use Rattle.std.specs.Prelude.{◌≡◌, ◌≢◌, ◌↔◌, ◌++◌, [], ◌∷◌, ℕ, List, IfOk, OnOk, Some};
ghost use Rattle.std.specs.List.Sorted.{IsStrictlySortedBy};
ghost use Rattle.annex_base.specs.ByteOrder.{text_cmp};
ghost use Rattle.annex_base.specs.Lists.{Member};
ghost use Rattle.union_merge.specs.Branch.{lines_at};
ghost use Rattle.log_lines.specs.Index.{entries_in, entry_with};
ghost use Rattle.std.specs.Option.{option_copied};
ghost use Rattle.trust_groups.specs.Reads.{entries_or_none};
ghost use Rattle.trust_groups.specs.Settings.{level, groups_in, groups, is_some};
ghost use Rattle.trust_groups.specs.Kept.{groups_among, grouped_among};

use crate::files::lines_of;
use crate::values::{groups_in, level_in};
use annex_base::{Level, NoMemory, RepoId};
use log_lines::{
    GroupList, LogKind, Newest, Statement, Topic, Value, entries_are_found_by_topic, newest_of,
};
use std::alloc::Global;
use std::collections::btree_map::Iter;
use union_merge::Branch;

/// The groups that a repository is in, in the order of their line, none where none are set (git-annex-group).
pub fn groups_of(alloc: Global, branch: &Branch, repo: RepoId) -> Result<GroupList, NoMemory>
    ensures { IfOk result (λ g. g ≡ groups (lines_at branch.now) repo) }
{
    let lines = lines_of(branch, LogKind::Group.file_name());
    match newest_of(alloc, LogKind::Group, lines, &Topic::Repo(repo))? {
        Some(entry) => Ok(list_in(alloc, entry.value)),
        None => Ok(GroupList::new(alloc)),
    }
}

/// How far a repository is trusted, semitrusted where no level is set (git-annex trust).
pub fn level_of(alloc: Global, branch: &Branch, repo: RepoId) -> Result<Level, NoMemory>
    ensures { IfOk result (λ l. l ≡ level (lines_at branch.now) repo) }
{
    let lines = lines_of(branch, LogKind::Trust.file_name());
    match newest_of(alloc, LogKind::Trust, lines, &Topic::Repo(repo))? {
        Some(entry) => Ok(level_in(Some(&entry.value))),
        None => Ok(Level::Semitrusted),
    }
}

fn list_in(alloc: Global, value: Value) -> GroupList
    ensures { result ≡ groups_in (Some value) }
{
    match value {
        Value::Groups(groups) => groups,
        _ => GroupList::new(alloc),
    }
}

fn has_groups(value: &Value) -> bool
    ensures { result ≡ is_some (groups_in (Some value.now)) }
{
    !groups_in(Some(value)).is_empty()
}

fn add_grouped(
    repos: &mut Vec<RepoId>,
    topic: &Topic,
    statement: &Statement,
) -> Result<(), NoMemory>
    ensures { OnOk result (repos.new.items ≡ repos.old.items ++ grouped_among (entry_with topic.now statement.now ∷ [])) }
{
    if let Topic::Repo(repo) = topic {
        if has_groups(&statement.value) {
            repos.push(*repo)?;
        }
    }
    Ok(())
}

fn grouped_by(alloc: Global, entries: Iter<'_, Topic, Statement>) -> Result<Vec<RepoId>, NoMemory>
    ensures { IfOk result (λ v. v.items ≡ grouped_among (entries_in entries.entry)) }
{
    let mut repos = Vec::new(alloc);
    for (topic, statement) in entries {
        add_grouped(&mut repos, topic, statement)?;
    }
    Ok(repos)
}

fn grouped_among(alloc: Global, index: &Newest) -> Result<Vec<RepoId>, NoMemory>
    ensures value { IfOk result (λ v. v.items ≡ grouped_among index.now.entries) }
    ensures sorted { IfOk result (λ v. IsStrictlySortedBy text_cmp v.items) }
    ensures each { IfOk result (λ v. (repo : List ℕ) → Member repo v.items ↔ (groups_among index.now.entries repo ≢ [])) }
{
    // a law, for the proof that each repository stands there
    entries_are_found_by_topic();
    let entries = index.entries();
    grouped_by(alloc, entries)
}

/// The repositories of the entries with a group, by the index of group.log.
pub(crate) fn grouped_in(alloc: Global, index: Option<&Newest>) -> Result<Vec<RepoId>, NoMemory>
    ensures value { IfOk result (λ v. v.items ≡ grouped_among (entries_or_none (option_copied index.entry))) }
    ensures sorted { IfOk result (λ v. IsStrictlySortedBy text_cmp v.items) }
    ensures each { IfOk result (λ v. (repo : List ℕ) → Member repo v.items ↔ (groups_among (entries_or_none (option_copied index.entry)) repo ≢ [])) }
{
    match index {
        Some(index) => grouped_among(alloc, index),
        None => Ok(Vec::new(alloc)),
    }
}
