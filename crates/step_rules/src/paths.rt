//! The paths that the keys of a repository's running jobs had as the jobs began.
ghost use Rattle.std.specs.Prelude.{◌≡◌, ◌<◌, ◌==◌, ℕ, [], if◌then◌else◌, OnOk};
ghost use Rattle.indexmap.specs.IndexMap.{spare};
ghost use Rattle.step_rules.specs.Members.{paths_after, paths_at, paths_for};

use annex_base::{Items, NoMemory, Text};
use indexmap::IndexMap;
use run_data::EntryKind;
use std::alloc::Global;

/// The paths of the keys of running jobs, by the jobs' numbers (own).
#[derive(Drop)]
pub struct Paths {
    kept: IndexMap<u32, Items<Text>>,
}

impl Paths {
    pub(crate) fn new(alloc: Global) -> Paths
        ensures { (job : ℕ) → paths_at result job ≡ [] }
    {
        Paths {
            kept: IndexMap::new(alloc),
        }
    }

    /// Those of the key of a job; none where it isn't one, or doesn't run.
    pub(crate) fn of(&self, job: Option<u32>) -> &[Text]
        ensures { result.now ≡ paths_for self.now job }
    {
        match job {
            Some(job) => self.of_job(job),
            None => &[],
        }
    }

    fn of_job(&self, job: u32) -> &[Text]
        ensures { result.now ≡ paths_at self.now job }
    {
        match self.kept.get(&job) {
            Some(paths) => paths.as_slice(),
            None => &[],
        }
    }

    pub(crate) fn ready(&mut self) -> Result<(), NoMemory>
        ensures room { OnOk result (0 < spare self.new.kept) }
        ensures same { self.new.kept.entries ≡ self.old.kept.entries }
    {
        self.kept.reserve(1)?;
        Ok(())
    }

    /// Takes note of an entry of this kind, by the paths of the key of the job that it begins.
    pub(crate) fn note(&mut self, kind: &EntryKind, begun: Items<Text>)
        requires { 0 < spare self.old.kept }
        ensures { (job : ℕ) → paths_at self.new job ≡ paths_after job (paths_at self.old job) kind.now begun }
    {
        match kind {
            EntryKind::Begin { job, .. } => self.begin(*job, begun),
            EntryKind::End { job, .. } => self.end(*job),
            EntryKind::Crash { .. } => self.kept.clear(),
            _ => {}
        }
    }

    fn begin(&mut self, job: u32, begun: Items<Text>)
        requires { 0 < spare self.old.kept }
        ensures { (other : ℕ) → paths_at self.new other ≡ (if job == other then begun else paths_at self.old other) }
    {
        self.kept.insert(job, begun).unwrap();
    }

    fn end(&mut self, job: u32)
        ensures { (other : ℕ) → paths_at self.new other ≡ (if job == other then [] else paths_at self.old other) }
    {
        self.kept.swap_remove(&job);
    }
}
