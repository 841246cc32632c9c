//! Identifiers as the names of their repositories.

ghost use Rattle.std.specs.Prelude.{◌≡◌, ◌++◌, IfOk, OnOk, bytes_eq, filter, map, not};
ghost use Rattle.std.specs.List.{list_any};
ghost use Rattle.annex_base.specs.RepoText.{repo_text};
ghost use Rattle.shown_text.specs.Shown.{names_of_ids};

use annex_base::{NoMemory, RepoId, Text};
use run_data::RepoView;
use std::alloc::Global;

/// Whether the repository is among the identifiers.
fn is_among(ids: &[RepoId], repo: &RepoView) -> bool
    ensures { result ≡ list_any (λ id. bytes_eq id repo.now.id) ids.now }
{
    ids.iter().any(|id| *id == repo.id)
}

/// Whether a repository has the identifier.
fn has_name(repos: &[RepoView], id: &RepoId) -> bool
    ensures { result ≡ list_any (λ repo. bytes_eq id.now repo.id) repos.now }
{
    repos.iter().any(|repo| *id == repo.id)
}

/// The names of the repositories among the identifiers, in order of number.
fn put_known(words: &mut Vec<Text>, repos: &[RepoView], ids: &[RepoId]) -> Result<(), NoMemory>
    ensures { OnOk result (words.new.items ≡ words.old.items ++ map (λ repo. repo.name) (filter (λ repo. list_any (λ id. bytes_eq id repo.id) ids.now) repos.now)) }
{
    for repo in repos {
        if is_among(ids, repo) {
            words.push(repo.name.clone()?)?;
        }
    }
    Ok(())
}

/// The texts of the identifiers that no repository has, in their order.
fn put_unknown(
    words: &mut Vec<Text>,
    alloc: Global,
    repos: &[RepoView],
    ids: &[RepoId],
) -> Result<(), NoMemory>
    ensures { OnOk result (words.new.items ≡ words.old.items ++ map repo_text (filter (λ id. not (list_any (λ repo. bytes_eq id repo.id) repos.now)) ids.now)) }
{
    for id in ids {
        if !has_name(repos, id) {
            words.push(Text::new(alloc, &id.print())?)?;
        }
    }
    Ok(())
}

/// The repositories of these identifiers by name, in order of number, and after them the identifiers that no repository
/// has, as texts.
pub(crate) fn named(
    alloc: Global,
    repos: &[RepoView],
    ids: &[RepoId],
) -> Result<Vec<Text>, NoMemory>
    ensures { IfOk result (λ words. words.items ≡ names_of_ids repos.now ids.now) }
{
    let mut words = Vec::new(alloc);
    put_known(&mut words, repos, ids)?;
    put_unknown(&mut words, alloc, repos, ids)?;
    Ok(words)
}
