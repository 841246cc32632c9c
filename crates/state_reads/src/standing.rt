//! How the logs that a drop has read see a repository.
ghost use Rattle.std.specs.Prelude.{◌≡◌, map, bytes_eq, IfOk};
ghost use Rattle.std.specs.List.{list_any};
ghost use Rattle.trust_groups.specs.View.{settings_of};
ghost use Rattle.node_model.specs.Evidence.{standing_by, standing_seen};
ghost use Rattle.state_reads.specs.Standings.{standing_of};

use annex_base::{Level, NoMemory, RepoId};
use annex_key::Key;
use run_data::Cause;
use std::alloc::Global;
use trust_groups::Settings;

/// How the logs see a repository (git-annex trust, git-annex internals: location log).
#[derive(Clone, Copy, Debug, PartialEq, Eq)]
pub enum Standing {
    /// It is trusted, and claimed to have the key.
    Claimed,
    /// It is untrusted or dead.
    Ignored(Cause),
    Asked,
}

/// How each of these repositories stands.
pub(crate) fn standings(
    alloc: Global,
    settings: &Settings,
    key: &Key,
    ids: &[RepoId],
) -> Result<Vec<Standing>, NoMemory>
    ensures { IfOk result (λ v. map standing_of v.items ≡ map (standing_by (settings_of settings.now) key.now) ids.now) }
{
    let claims = settings.claims(key)?;
    let mut standings = Vec::new(alloc);
    for id in ids.iter() {
        standings.push(seen_as(settings.level(*id), &claims, *id))?;
    }
    Ok(standings)
}

/// How a repository of this level stands, where these are claimed to have the key.
fn seen_as(level: Level, claims: &[RepoId], id: RepoId) -> Standing
    ensures { standing_of result ≡ standing_seen level (list_any (λ claimed. bytes_eq claimed id) claims.now) }
{
    match level {
        Level::Trusted => claimed(is_claimed(claims, id)),
        Level::Semitrusted => Standing::Asked,
        Level::Untrusted => Standing::Ignored(Cause::Untrusted),
        Level::Dead => Standing::Ignored(Cause::Dead),
    }
}

fn claimed(yes: bool) -> Standing
    ensures { standing_of result ≡ standing_seen Level.Trusted yes }
{
    if yes {
        Standing::Claimed
    } else {
        Standing::Asked
    }
}

fn is_claimed(claims: &[RepoId], id: RepoId) -> bool
    ensures { result ≡ list_any (λ claimed. bytes_eq claimed id) claims.now }
{
    for claimed in claims.iter() {
        if *claimed == id {
            return true;
        }
    }
    false
}
