//! The way through a run: which repositories have which keys at a place, and their branches, settings and rows there.

ghost use Rattle.std.specs.Prelude.{◌≡◌, ◌≤◌, ◌<◌, ◌^◌, ◌∷◌, ℕ, List, OnOk, IfOk, length};
ghost use Rattle.annex_base.specs.Lists.{Each};
ghost use Rattle.run_data.specs.declared.entry.Entry.{Entry};
ghost use Rattle.run_data.specs.declared.run.RepoView.{RepoView};
ghost use Rattle.run_data.specs.declared.run.Run.{Run};
ghost use Rattle.report_tables.specs.Before.{branch_at, possessors, row_at};
ghost use Rattle.report_tables.specs.Contents.{count_of};
ghost use Rattle.report_tables.specs.Walk.{HasRead, IsAhead, IsWellFormed, Knows, KnowsBranch, KnowsRow, KnowsSets, StandsIn, StandsAt};
ghost use Rattle.trust_groups.specs.Settings.{settings};
ghost use Rattle.trust_groups.specs.View.{settings_of};
ghost use Rattle.union_merge.specs.Branch.{lines_at};

use crate::branches::Branches;
use crate::contents::{Contents, possessors};
use crate::rows::Rows;
use crate::sets::Sets;
use annex_base::{Items, NoMemory};
use annex_key::Key;
use run_data::{Entry, RowView, Run};
use std::alloc::Global;
use trust_groups::Settings;
use union_merge::Branch;

/// A place of a run, which repositories have which keys there, and their branches and rows; of what the branches set, as much as was
/// asked for.
#[derive(Drop)]
pub struct Walk {
    contents: Contents,
    branches: Branches,
    sets: Sets,
    rows: Rows,
    place: usize,
}

impl Walk {
    /// Before the first entry.
    pub fn new(alloc: Global, run: &Run) -> Result<Walk, NoMemory>
        requires { Each IsAhead run.now.repos }
        ensures { IfOk result (λ walk. StandsAt walk run.now 0) }
    {
        let repos = run.repos.as_slice();
        Ok(Walk {
            contents: Contents::new(alloc, repos.len())?,
            branches: Branches::new(alloc, repos.len())?,
            sets: Sets::new(alloc, repos.len())?,
            rows: Rows::new(alloc, repos)?,
            place: 0,
        })
    }

    /// The numbers of the repositories that have the key, in order.
    pub fn possessors(&self, alloc: Global, run: &Run, key: &Key) -> Result<Vec<u32>, NoMemory>
        requires { length run.now.repos < 2 ^ 32 }
        ensures { IfOk result (λ numbers. (place : ℕ) → StandsAt self.now run.now place → numbers.items ≡ possessors run.now place key.now) }
    {
        let numbers = possessors(alloc, &self.contents, run.repos.as_slice().len(), key)?;
        Ok(numbers)
    }

    /// How many contents a repository has.
    pub fn total(&self, repo: u32) -> u64
        ensures { result ≡ count_of self.now.contents.sets.items repo }
    {
        self.contents.count(repo) as u64
    }

    /// The branch of a repository of the run.
    pub fn branch(&self, repo: u32) -> &Branch
        requires { KnowsBranch self.now repo }
        ensures { (run : Run) (place : ℕ) → StandsAt self.now run place → result.now ≡ branch_at run place repo }
    {
        self.branches.branch(repo)
    }

    /// Reads what the branch of a repository of the run sets, unless it was read since the branch changed.
    pub fn read_settings(&mut self, alloc: Global, repo: u32) -> Result<(), NoMemory>
        requires known { KnowsBranch self.old repo }
        requires sets { KnowsSets self.old repo }
        ensures stands { OnOk result ((run : Run) (place : ℕ) → StandsAt self.old run place → StandsAt self.new run place) }
        ensures read { OnOk result (HasRead self.new repo) }
    {
        let branch = self.branches.branch(repo);
        self.sets.read(alloc, repo, branch)
    }

    /// What the branch of a repository of the run sets, once it was read.
    pub fn settings(&self, repo: u32) -> &Settings
        requires { HasRead self.now repo }
        ensures { (run : Run) (place : ℕ) → StandsAt self.now run place → settings_of result.now ≡ settings (lines_at (branch_at run place repo)) }
    {
        self.sets.settings(repo)
    }

    /// The row of a key at a repository.
    pub fn row(&self, alloc: Global, repo: u32, key: &Key) -> Result<RowView, NoMemory>
        requires { KnowsRow self.now repo }
        ensures { IfOk result (λ row. (run : Run) (place : ℕ) → StandsAt self.now run place → row ≡ row_at run place repo key.now) }
    {
        let holds = self.rows.blockers(alloc, repo, key)?;
        Ok(RowView {
            present: self.contents.has(repo, key),
            bar: self.rows.bar(repo, key),
            holds: Items::from_vec(holds),
        })
    }

    /// Goes to a place: on from where it stands, or from the beginning to one before that.
    pub fn move_to(&mut self, alloc: Global, run: &Run, place: usize) -> Result<(), NoMemory>
        requires stands { StandsIn self.old run.now }
        requires formed { Each IsWellFormed run.now.entries }
        requires ahead { Each IsAhead run.now.repos }
        ensures { OnOk result (StandsAt self.new run.now place) }
    {
        self.back_before(alloc, run, place)?;
        self.follow(run, place)?;
        Ok(())
    }

    /// Goes back to the beginning, unless it stands at the place or before it.
    fn back_before(&mut self, alloc: Global, run: &Run, place: usize) -> Result<(), NoMemory>
        requires stands { StandsIn self.old run.now }
        requires ahead { Each IsAhead run.now.repos }
        ensures stands { OnOk result (StandsIn self.new run.now) }
        ensures before { OnOk result (self.new.place ≤ place) }
    {
        if self.place > place {
            *self = Walk::new(alloc, run)?;
        }
        Ok(())
    }

    /// Goes on to a place that isn't before where it stands.
    fn follow(&mut self, run: &Run, upto: usize) -> Result<(), NoMemory>
        requires stands { StandsIn self.old run.now }
        requires order { self.old.place ≤ upto }
        requires formed { Each IsWellFormed run.now.entries }
        ensures { OnOk result (StandsAt self.new run.now upto) }
    {
        let entries = run.entries.as_slice();
        for place in self.place..upto.min(entries.len()) {
            self.add(&entries[place])?;
        }
        self.place = upto;
        Ok(())
    }

    /// Takes note of one more entry; where it stands is left to the caller.
    fn add(&mut self, entry: &Entry) -> Result<(), NoMemory>
        requires { IsWellFormed entry.now }
        ensures { OnOk result ((repos : List RepoView) (past : List Entry) → Knows self.old repos past → Knows self.new repos (entry.now ∷ past)) }
    {
        self.contents.add(entry)?;
        self.branches.add(entry)?;
        self.sets.add(entry);
        self.rows.add(entry)?;
        Ok(())
    }
}
