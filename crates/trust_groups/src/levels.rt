//! How far each repository is trusted.

ghost use Rattle.std.specs.Prelude.{◌≡◌, IfOk};
ghost use Rattle.std.specs.Option.{option_copied};
ghost use Rattle.union_merge.specs.Branch.{lines_at};
ghost use Rattle.trust_groups.specs.Settings.{level};
ghost use Rattle.trust_groups.specs.Kept.{level_among};
ghost use Rattle.trust_groups.specs.Reads.{entries_or_none};

use crate::files::lines_of;
use crate::values::{level_in, value_of};
use annex_base::{Level, NoMemory, RepoId};
use log_lines::{LogKind, Newest, Topic};
use std::alloc::Global;
use union_merge::Branch;

/// How far each repository is trusted, as a branch says it (git-annex trust).
#[derive(Debug, Drop)]
pub struct Levels {
    index: Newest,
}

impl Levels {
    ghost use Rattle.trust_groups.specs.View.{level_of};

    /// Reads the levels alone of a branch.
    pub fn read(alloc: Global, branch: &Branch) -> Result<Levels, NoMemory>
        ensures { IfOk result (λ l. level_of l ≡ level (lines_at branch.now)) }
    {
        let lines = lines_of(branch, LogKind::Trust.file_name());
        let index = Newest::read(alloc, LogKind::Trust, lines)?;
        Ok(Levels { index })
    }

    /// The level of a repository, semitrusted where none is set.
    pub fn level(&self, repo: RepoId) -> Level
        ensures { result ≡ level_of self.now repo }
    {
        level_among(Some(&self.index), repo)
    }

    pub(crate) fn index(&self) -> &Newest
        ensures { result.now ≡ self.now.index }
    {
        &self.index
    }
}

/// The level of a repository by the index of trust.log.
pub(crate) fn level_among(trust: Option<&Newest>, repo: RepoId) -> Level
    ensures { result ≡ level_among (entries_or_none (option_copied trust.entry)) repo }
{
    level_in(value_of(trust, &Topic::Repo(repo)))
}
