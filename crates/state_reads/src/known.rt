//! What a drop reads of the logs at its first step.
ghost use Rattle.std.specs.Prelude.{◌≡◌, map, slice_get, IfOk};
ghost use Rattle.std.specs.Option.{option_copied, option_map};
ghost use Rattle.trust_groups.specs.View.{settings_of};
ghost use Rattle.wanted_expr.specs.Wanted.{required};
ghost use Rattle.node_model.specs.Evidence.{standing_by};
ghost use Rattle.node_model.specs.Knows.{need_by};
ghost use Rattle.state_reads.specs.Known.{required_by, standing_in};
ghost use Rattle.state_reads.specs.Standings.{standing_of};

use crate::standing::{Standing, standings};
use annex_base::{NoMemory, RepoId, Text};
use annex_key::Key;
use drop_proof::Need;
use std::alloc::Global;
use std::marker::Model;
use trust_groups::Settings;
use wanted_rules::Wishes;

/// The numbers of copies that must stay; how the logs see each repository, in order of number; and the expression by which the
/// target requires the content, if it does.
#[derive(Debug, Drop)]
pub struct KnownLogs {
    need: Need,
    standings: Vec<Standing>,
    required: Option<Text>,
}

impl Model for KnownLogs {
    ghost use Rattle.state_reads.specs.Known.{KnownLogs};

    ghost Value = { KnownLogs };

    ghost view = { λ k. record { need = k.need; standings = k.standings.items; requires = k.required } };
}

impl KnownLogs {
    /// Reads these settings, for a drop of a key with these paths from this target, if it is a repository, among these
    /// repositories.
    pub(crate) fn read(
        alloc: Global,
        settings: &Settings,
        key: &Key,
        target: Option<RepoId>,
        paths: &[Text],
        ids: &[RepoId],
    ) -> Result<KnownLogs, NoMemory>
        ensures need { IfOk result (λ k. k.need ≡ need_by (settings_of settings.now) paths.now) }
        ensures standings { IfOk result (λ k. map standing_of k.standings ≡ map (standing_by (settings_of settings.now) key.now) ids.now) }
        ensures required { IfOk result (λ k. k.requires ≡ required_by (settings_of settings.now) target key.now paths.now) }
    {
        let standings = standings(alloc, settings, key, ids)?;
        let required = required(alloc, settings, key, target, paths)?;
        Ok(KnownLogs {
            need: need(settings, paths),
            standings,
            required,
        })
    }

    /// The numbers of copies.
    pub fn need(&self) -> Need
        ensures { result ≡ self.now.need }
    {
        self.need
    }

    /// The expression by which the target requires the content, if it does.
    pub fn required(&self) -> Option<&Text>
        ensures { option_copied result ≡ self.now.requires }
    {
        self.required.as_ref()
    }

    /// How the logs see the repository of this number; one that isn't there is asked.
    pub fn standing(&self, repo: u32) -> Standing
        ensures { standing_of result ≡ standing_in self.now repo }
    {
        match self.standings.get(repo as usize) {
            Some(standing) => *standing,
            None => Standing::Asked,
        }
    }
}

/// The numbers of copies that must stay of a content with these paths.
fn need(settings: &Settings, paths: &[Text]) -> Need
    ensures { result ≡ need_by (settings_of settings.now) paths.now }
{
    let n = settings.numcopies_of(paths);
    let m = settings.mincopies_of(paths);
    Need { n, m }
}

/// The expression by which a repository requires the key, which has these paths, if it does.
fn required(
    alloc: Global,
    settings: &Settings,
    key: &Key,
    repo: Option<RepoId>,
    paths: &[Text],
) -> Result<Option<Text>, NoMemory>
    ensures { IfOk result (λ text. text ≡ required_by (settings_of settings.now) repo key.now paths.now) }
{
    match repo {
        Some(id) => required_of(alloc, settings, key, id, paths),
        None => Ok(None),
    }
}

fn required_of(
    alloc: Global,
    settings: &Settings,
    key: &Key,
    repo: RepoId,
    paths: &[Text],
) -> Result<Option<Text>, NoMemory>
    ensures { IfOk result (λ text. text ≡ required (settings_of settings.now) repo key.now paths.now) }
{
    let wishes = Wishes::read(alloc, settings, repo)?;
    let text = wishes.required(key, paths)?;
    Ok(owned(alloc, text)?)
}

fn owned(alloc: Global, text: Option<&[u8]>) -> Result<Option<Text>, NoMemory>
    ensures { IfOk result (λ own. own ≡ option_map (λ t. t.now) text.entry) }
{
    match text {
        Some(text) => Ok(Some(Text::new(alloc, text)?)),
        None => Ok(None),
    }
}

/// The identifier of the repository of this number, if it is one.
pub(crate) fn id_at(ids: &[RepoId], number: u32) -> Option<RepoId>
    ensures { result ≡ slice_get ids.now number }
{
    ids.get(number as usize).copied()
}
