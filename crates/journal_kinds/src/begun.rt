//! The jobs that were begun, by repository and number.
ghost use Rattle.std.specs.Prelude.{◌≡◌, ◌∷◌, ◌<◌, ◌&&◌, ◌==◌, ℕ, List, [], Option, Some, if◌then◌else◌, IfOk, OnOk};
ghost use Rattle.std.specs.Option.{option_map};
ghost use Rattle.indexmap.specs.IndexMap.{spare};
ghost use Rattle.run_data.specs.declared.entry.Entry.{Entry};
ghost use Rattle.run_data.specs.declared.job.Job.{Job};
ghost use Rattle.run_model.specs.Past.{begun_job};
ghost use Rattle.run_text.specs.Outcomes.{transfer_word, transfer_word_of};
ghost use Rattle.journal_text.specs.Begun.{begun_after};
ghost use Rattle.journal_kinds.specs.Begun.{kind_at, kind_of, AreBegun, begins, word_in, word_at};

use annex_base::NoMemory;
use indexmap::IndexMap;
use run_data::{Entry, EntryKind, JobKind};
use std::alloc::Global;

/// A job of a repository, by its number.
#[derive(Clone, Copy, Debug, PartialEq, Eq, Hash)]
pub struct JobName {
    pub repo: u32,
    pub number: u32,
}

/// The kinds of the jobs that were begun. Where a repository began several of the same number, the last one counts.
#[derive(Drop)]
pub struct Begun {
    kinds: IndexMap<JobName, JobKind>,
}

impl Begun {
    /// No job was begun.
    pub fn new(alloc: Global) -> Begun
        ensures { AreBegun [] result }
    {
        Begun {
            kinds: IndexMap::new(alloc),
        }
    }

    /// Takes note of an entry.
    pub fn note(&mut self, entry: &Entry) -> Result<(), NoMemory>
        ensures { (past : List Entry) → AreBegun past self.old → OnOk result (AreBegun (entry.now ∷ past) self.new) }
    {
        let Some((name, kind)) = begun_by(entry) else {
            return Ok(());
        };
        self.kinds.reserve(1)?;
        put(&mut self.kinds, name, kind);
        Ok(())
    }

    /// The word that names the transfer of the job, where it is a move; else an empty one.
    pub fn word_of(&self, repo: u32, number: u32) -> &'static [u8]
        ensures same { result.now ≡ word_at self.now repo number }
        ensures begun { (past : List Entry) → AreBegun past self.now → result.now ≡ transfer_word_of (begun_job past repo number) }
    {
        kind_word(kind_in(&self.kinds, repo, number))
    }
}

/// The job that the entry begins, and its kind.
fn begun_by(entry: &Entry) -> Option<(JobName, JobKind)>
    ensures { (r j : ℕ) (was : Option Job) → option_map (λ job. job.kind) (begun_after r j was entry.now) ≡ begins r j result (option_map (λ job. job.kind) was) }
{
    let repo = entry.repo?;
    match &entry.kind {
        EntryKind::Begin { job, what } => {
            let name = JobName { repo, number: *job };
            Some((name, what.kind))
        }
        _ => None,
    }
}

fn kind_in(kinds: &IndexMap<JobName, JobKind>, repo: u32, number: u32) -> Option<JobKind>
    ensures { result ≡ kind_at kinds.now.entries repo number }
{
    match kinds.get(&JobName { repo, number }) {
        Some(kind) => Some(*kind),
        None => None,
    }
}

fn put(kinds: &mut IndexMap<JobName, JobKind>, name: JobName, kind: JobKind)
    requires { 0 < spare kinds.old }
    ensures { (r j : ℕ) → kind_at kinds.new.entries r j ≡ (if (name.repo == r) && (name.number == j) then Some kind else kind_at kinds.old.entries r j) }
{
    kinds.insert(name, kind).unwrap();
}

fn kind_word(kind: Option<JobKind>) -> &'static [u8]
    ensures { result.now ≡ word_in kind }
{
    match kind {
        None => b"",
        Some(JobKind::Drop | JobKind::Get | JobKind::Copy) => b"",
        Some(JobKind::MoveTo | JobKind::MoveFrom) => b"transfer ",
    }
}
