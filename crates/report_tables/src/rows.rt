//! The clocks, bars and holds of a run's repositories, as the entries so far change them.

ghost use Rattle.std.specs.Prelude.{◌≤◌};

use crate::bars::change_bars;
use crate::clock::Setting;
use crate::holds::{blockers, change_holds};
use annex_base::NoMemory;
use annex_key::Key;
use run_data::{Entry, EntryKind, Hold, HoldView, RepoView};
use std::alloc::Global;
use std::collections::BTreeMap;

/// The clock of a repository, the jobs whose bars stand on keys, and its holds, the newest first.
#[derive(Debug, Drop)]
struct RepoRows {
    setting: Setting,
    bars: BTreeMap<Key, u32>,
    holds: Vec<Hold>,
}

/// Those of a run's repositories after some first entries of the run, and the time of the newest of these.
#[derive(Debug, Drop)]
pub(crate) struct Rows {
    repos: Vec<RepoRows>,
    time: u64,
    ghost early: { time ≤ 1000000000000 },
}

impl Rows {
    ghost use Rattle.std.specs.Prelude.{◌≡◌, ◌<◌, List, [], ◌∷◌, IfOk, OnOk, length};
    ghost use Rattle.annex_base.specs.Lists.{Each};
    ghost use Rattle.run_data.specs.declared.entry.Entry.{Entry};
    ghost use Rattle.run_data.specs.declared.run.RepoView.{RepoView};
    ghost use Rattle.run_model.specs.Past.{bar, clock, holds, now};
    ghost use Rattle.report_tables.specs.Before.{blockers};
    ghost use Rattle.report_tables.specs.Rows.{HasRows};
    ghost use Rattle.report_tables.specs.Walk.{IsAhead, IsWellFormed};

    /// Before the first entry the clocks are the wall clocks, and neither bars nor holds stand.
    pub(crate) fn new(alloc: Global, repos: &[RepoView]) -> Result<Rows, NoMemory>
        requires { Each IsAhead repos.now }
        ensures { IfOk result (λ rows. HasRows rows repos.now []) }
    {
        let mut rows = Vec::new(alloc);
        for repo in repos {
            rows.push(RepoRows {
                setting: Setting::new(repo.offset),
                bars: BTreeMap::new(alloc),
                holds: Vec::new(alloc),
            })?;
        }
        Ok(Rows {
            repos: rows,
            time: 0,
        })
    }

    /// The job whose bar stands on the key.
    pub(crate) fn bar(&self, repo: u32, key: &Key) -> Option<u32>
        requires { repo < length self.now.repos.items }
        ensures { (repos : List RepoView) (past : List Entry) → HasRows self.now repos past → result ≡ bar past repo key.now }
    {
        self.repos[repo as usize].bars.get(key).copied()
    }

    /// The holds that block the key, the oldest first.
    pub(crate) fn blockers(
        &self,
        alloc: Global,
        repo: u32,
        key: &Key,
    ) -> Result<Vec<HoldView>, NoMemory>
        requires { repo < length self.now.repos.items }
        ensures { IfOk result (λ views. (repos : List RepoView) (past : List Entry) → HasRows self.now repos past → views.items ≡ blockers key.now (clock repos past repo (now past)) (holds past repo)) }
    {
        let rows = &self.repos[repo as usize];
        blockers(alloc, &rows.holds, key, rows.setting.shows(self.time))
    }

    /// Takes note of what one more entry changes. Where memory is lacking, nothing is said of the table any more.
    pub(crate) fn add(&mut self, entry: &Entry) -> Result<(), NoMemory>
        requires { IsWellFormed entry.now }
        ensures { OnOk result ((repos : List RepoView) (past : List Entry) → HasRows self.old repos past → HasRows self.new repos (entry.now ∷ past)) }
    {
        self.time = entry.time;
        let Some(repo) = entry.repo else {
            return Ok(());
        };
        let index = repo as usize;
        if index < self.repos.len() {
            self.repos[index].change(entry.time, &entry.kind)?;
        }
        Ok(())
    }
}

impl RepoRows {
    ghost use Rattle.std.specs.Prelude.{◌≡◌, ℕ, List, OnOk};
    ghost use Rattle.std.specs.BTreeMap.{get};
    ghost use Rattle.node_model.specs.Rows.{bar_after, holds_after};
    ghost use Rattle.run_model.specs.Past.{set_after};
    ghost use Rattle.report_tables.specs.Contents.{key_cmp};
    ghost use Rattle.report_tables.specs.Scan.{set_of};
    ghost use Rattle.report_tables.specs.Walk.{SetsClock};

    /// Takes note of what an entry of the repository at this time changes.
    fn change(&mut self, time: u64, kind: &EntryKind) -> Result<(), NoMemory>
        requires { SetsClock kind.now }
        ensures setting { OnOk result (set_of self.new.setting ≡ set_after time (set_of self.old.setting) kind.now) }
        ensures bars { OnOk result ((key : List ℕ) → get key_cmp self.new.bars key ≡ bar_after key (get key_cmp self.old.bars key) kind.now) }
        ensures holds { OnOk result (self.new.holds.items ≡ holds_after self.old.holds.items kind.now) }
    {
        self.setting = self.setting.after(time, kind);
        change_bars(&mut self.bars, kind)?;
        change_holds(&mut self.holds, kind)?;
        Ok(())
    }
}
