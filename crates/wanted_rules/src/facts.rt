//! The facts by which the expressions of a repository are judged, for a key.

ghost use Rattle.std.specs.Prelude.{◌≡◌, ◌&&◌, ◌++◌, [], ◌∷◌, None, IfOk, OnOk, bytes_eq, nat_le};
ghost use Rattle.std.specs.List.{list_any};
ghost use Rattle.trust_groups.specs.View.{settings_of};
ghost use Rattle.wanted_expr.specs.Truth.{rank};
ghost use Rattle.wanted_expr.specs.Wanted.{claimant, members, plain_facts};
ghost use Rattle.wanted_rules.specs.Reads.{at_path, claimed_by, members_among, members_of};

use annex_base::{Items, Level, NoMemory, RepoId, Text};
use annex_key::Key;
use std::alloc::Global;
use trust_groups::Settings;
use wanted_expr::{Claimant, Facts, Member};

fn copy_texts(alloc: Global, texts: &[Text]) -> Result<Items<Text>, NoMemory>
    ensures { IfOk result (λ v. v ≡ texts.now) }
{
    let mut copied = Items::new(alloc);
    for text in texts {
        copied.push(text.clone()?)?;
    }
    Ok(copied)
}

fn claimant(alloc: Global, settings: &Settings, repo: RepoId) -> Result<Claimant, NoMemory>
    ensures { IfOk result (λ c. c ≡ claimant (settings_of settings.now) repo) }
{
    let groups = copy_texts(alloc, settings.groups(repo))?;
    Ok(Claimant {
        repo,
        level: settings.level(repo),
        groups,
    })
}

fn is_gone(repo: RepoId, gone: bool, other: RepoId) -> bool
    ensures { result ≡ (gone && bytes_eq repo other) }
{
    gone && repo == other
}

/// Adds a repository that is claimed, unless it is this one and its copy is assumed gone.
fn add_claimant(
    claimed: &mut Items<Claimant>,
    alloc: Global,
    settings: &Settings,
    repo: RepoId,
    gone: bool,
    other: RepoId,
) -> Result<(), NoMemory>
    ensures { OnOk result (claimed.new ≡ claimed.old ++ claimed_by (settings_of settings.now) repo gone (other ∷ [])) }
{
    if is_gone(repo, gone, other) {
        return Ok(());
    }
    let found = claimant(alloc, settings, other)?;
    claimed.push(found)
}

fn claimed_by(
    alloc: Global,
    settings: &Settings,
    repo: RepoId,
    gone: bool,
    repos: &[RepoId],
) -> Result<Items<Claimant>, NoMemory>
    ensures { IfOk result (λ v. v ≡ claimed_by (settings_of settings.now) repo gone repos.now) }
{
    let mut claimed = Items::new(alloc);
    for other in repos {
        add_claimant(&mut claimed, alloc, settings, repo, gone, *other)?;
    }
    Ok(claimed)
}

fn is_alive(level: Level) -> bool
    ensures { result ≡ nat_le 1 (rank level) }
{
    match level {
        Level::Dead => false,
        Level::Untrusted | Level::Semitrusted | Level::Trusted => true,
    }
}

fn add_groups(members: &mut Items<Member>, repo: RepoId, groups: &[Text]) -> Result<(), NoMemory>
    ensures { OnOk result (members.new ≡ members.old ++ members_of repo groups.now) }
{
    for group in groups {
        let group = group.clone()?;
        members.push(Member { repo, group })?;
    }
    Ok(())
}

/// Adds the groups of a repository, unless it is dead.
fn add_members(
    members: &mut Items<Member>,
    settings: &Settings,
    repo: RepoId,
) -> Result<(), NoMemory>
    ensures { OnOk result (members.new ≡ members.old ++ members_among (settings_of settings.now) (repo ∷ [])) }
{
    if is_alive(settings.level(repo)) {
        add_groups(members, repo, settings.groups(repo))
    } else {
        Ok(())
    }
}

fn members_among(
    alloc: Global,
    settings: &Settings,
    repos: &[RepoId],
) -> Result<Items<Member>, NoMemory>
    ensures { IfOk result (λ v. v ≡ members_among (settings_of settings.now) repos.now) }
{
    let mut members = Items::new(alloc);
    for repo in repos {
        add_members(&mut members, settings, *repo)?;
    }
    Ok(members)
}

fn members(alloc: Global, settings: &Settings) -> Result<Items<Member>, NoMemory>
    ensures { IfOk result (λ v. v ≡ members (settings_of settings.now)) }
{
    let grouped = settings.grouped()?;
    members_among(alloc, settings, grouped.as_slice())
}

fn is_among(repo: RepoId, repos: &[RepoId]) -> bool
    ensures { result ≡ list_any (bytes_eq repo) repos.now }
{
    repos.iter().any(|other| repo == *other)
}

/// The facts for a key without a path, and before the expressions of groups are judged; the repository's own copy may be
/// assumed gone.
pub(crate) fn plain_facts(
    alloc: Global,
    settings: &Settings,
    repo: RepoId,
    key: &Key,
    gone: bool,
) -> Result<Facts, NoMemory>
    ensures { IfOk result (λ f. f ≡ plain_facts (settings_of settings.now) repo key.now gone None) }
{
    let claims = settings.claims(key)?;
    let repos = claims.as_slice();
    let claimed = claimed_by(alloc, settings, repo, gone, repos)?;
    let members = members(alloc, settings)?;
    let backend = Text::new(alloc, key.backend())?;
    let size = key.size();
    let present = is_among(repo, repos);
    let numcopies = settings.numcopies();
    Ok(Facts {
        path: None,
        backend,
        size,
        present,
        numcopies,
        claimed,
        members,
        standard: false,
        groupwanted: false,
    })
}

/// The same facts at another path.
pub(crate) fn set_path(facts: &mut Facts, numcopies: u32, path: Text)
    ensures { facts.new ≡ at_path facts.old numcopies path }
{
    facts.path = Some(path);
    facts.numcopies = numcopies;
    facts.standard = false;
    facts.groupwanted = false;
}
