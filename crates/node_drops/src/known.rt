//! What a job reads of the logs at its first step.
ghost use Rattle.std.specs.Prelude.{◌≡◌, map, bytes_eq, IfOk};
ghost use Rattle.std.specs.List.{list_any};
ghost use Rattle.std.specs.Option.{option_copied, option_map};
ghost use Rattle.wanted_expr.specs.Wanted.{required};
ghost use Rattle.trust_groups.specs.View.{settings_of};
ghost use Rattle.node_model.specs.Evidence.{standing_by, standing_seen};
ghost use Rattle.node_model.specs.Knows.{need_by};
ghost use Rattle.drop_worker.specs.Standings.{standing_of};
ghost use Rattle.node_drops.specs.Reads.{standing_in, standings_by};

use annex_base::{Level, NoMemory, RepoId, Text};
use annex_key::Key;
use drop_proof::Need;
use drop_worker::Standing;
use run_data::Cause;
use std::alloc::Global;
use std::marker::Model;
use trust_groups::Settings;
use wanted_rules::Wishes;

/// The numbers of copies that must stay; how each repository stands, in order of number; and the expression by which the target
/// requires the content, if it does.
#[derive(Debug, Drop)]
pub struct KnownLogs {
    need: Need,
    standings: Vec<Standing>,
    required: Option<Text>,
}

impl Model for KnownLogs {
    ghost use Rattle.node_drops.specs.Reads.{KnownLogs};

    ghost Value = { KnownLogs };

    ghost view = { λ k. record { need = k.need; standings = k.standings.items; requires = k.required } };
}

impl KnownLogs {
    /// Reads these settings, for a drop from a target of a key with these paths, among these repositories.
    pub(crate) fn read(
        alloc: Global,
        settings: &Settings,
        key: &Key,
        target: RepoId,
        paths: &[Text],
        ids: &[RepoId],
    ) -> Result<KnownLogs, NoMemory>
        ensures need { IfOk result (λ k. k.need ≡ need_by (settings_of settings.now) paths.now) }
        ensures standings { IfOk result (λ k. map standing_of k.standings ≡ standings_by (settings_of settings.now) key.now ids.now) }
        ensures required { IfOk result (λ k. k.requires ≡ required (settings_of settings.now) target key.now paths.now) }
    {
        let standings = standings(alloc, settings, key, ids)?;
        let required = required(alloc, settings, key, target, paths)?;
        Ok(KnownLogs {
            need: need(settings, paths),
            standings,
            required,
        })
    }

    pub(crate) fn need(&self) -> Need
        ensures { result ≡ self.now.need }
    {
        self.need
    }

    /// The expression by which the target requires the content, if it does.
    pub(crate) fn required(&self) -> Option<&Text>
        ensures { option_copied result ≡ self.now.requires }
    {
        self.required.as_ref()
    }

    /// How the repository of this number stands.
    pub(crate) fn standing(&self, repo: u32) -> Standing
        ensures { standing_of result ≡ standing_in self.now repo }
    {
        match self.standings.get(repo as usize) {
            Some(standing) => *standing,
            None => Standing::Asked,
        }
    }
}

/// The numbers of copies that must stay of a content with these paths.
fn need(settings: &Settings, paths: &[Text]) -> Need
    ensures { result ≡ need_by (settings_of settings.now) paths.now }
{
    let n = settings.numcopies_of(paths);
    let m = settings.mincopies_of(paths);
    Need { n, m }
}

/// The expression by which a repository requires the key, which has these paths, if it does.
fn required(
    alloc: Global,
    settings: &Settings,
    key: &Key,
    repo: RepoId,
    paths: &[Text],
) -> Result<Option<Text>, NoMemory>
    ensures { IfOk result (λ text. text ≡ required (settings_of settings.now) repo key.now paths.now) }
{
    let wishes = Wishes::read(alloc, settings, repo)?;
    let text = wishes.required(key, paths)?;
    Ok(owned(alloc, text)?)
}

fn owned(alloc: Global, text: Option<&[u8]>) -> Result<Option<Text>, NoMemory>
    ensures { IfOk result (λ own. own ≡ option_map (λ t. t.now) text.entry) }
{
    match text {
        Some(text) => Ok(Some(Text::new(alloc, text)?)),
        None => Ok(None),
    }
}

/// How each of these repositories stands.
fn standings(
    alloc: Global,
    settings: &Settings,
    key: &Key,
    ids: &[RepoId],
) -> Result<Vec<Standing>, NoMemory>
    ensures { IfOk result (λ v. map standing_of v.items ≡ standings_by (settings_of settings.now) key.now ids.now) }
{
    let claims = settings.claims(key)?;
    let mut standings = Vec::new(alloc);
    for id in ids.iter() {
        standings.push(standing(settings.level(*id), &claims, *id))?;
    }
    Ok(standings)
}

/// How a repository of this level stands, where these are claimed to have the key.
fn standing(level: Level, claims: &[RepoId], id: RepoId) -> Standing
    ensures { standing_of result ≡ standing_seen level (list_any (λ claimed. bytes_eq claimed id) claims.now) }
{
    match level {
        Level::Trusted => claimed(is_claimed(claims, id)),
        Level::Semitrusted => Standing::Asked,
        Level::Untrusted => Standing::Ignored(Cause::Untrusted),
        Level::Dead => Standing::Ignored(Cause::Dead),
    }
}

fn claimed(yes: bool) -> Standing
    ensures { standing_of result ≡ standing_seen Level.Trusted yes }
{
    if yes {
        Standing::Claimed
    } else {
        Standing::Asked
    }
}

fn is_claimed(claims: &[RepoId], id: RepoId) -> bool
    ensures { result ≡ list_any (λ claimed. bytes_eq claimed id) claims.now }
{
    for claimed in claims.iter() {
        if *claimed == id {
            return true;
        }
    }
    false
}
