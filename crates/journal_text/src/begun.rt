//! The job that a repository began with a number.

ghost use Rattle.std.specs.Prelude.{◌≡◌, IsNone, IfSome, Option, Some, reverse, option_copied};
ghost use Rattle.run_data.specs.declared.job.Job.{Job};
ghost use Rattle.run_model.specs.Past.{begun_job};
ghost use Rattle.journal_text.specs.Begun.{begun_after};

use run_data::{Entry, EntryKind, Job};

/// The job that the repository began last with this number; the entries before stand in order.
pub fn begun_job(before: &[Entry], repo: u32, number: u32) -> Option<&Job>
    ensures { option_copied result ≡ begun_job (reverse before.now) repo number }
{
    let mut rest = before;
    while let Some((last, earlier)) = rest.split_last() {
        if let Some(job) = job_begun_by(last, repo, number) {
            return Some(job);
        }
        rest = earlier;
    }
    None
}

/// The job that the entry begins, if it is one of the repository with this number.
fn job_begun_by(entry: &Entry, repo: u32, number: u32) -> Option<&Job>
    ensures begun { IfSome result (λ job. (was : Option Job) → begun_after repo number was entry.now ≡ Some job.now) }
    ensures other { IsNone result → (was : Option Job) → begun_after repo number was entry.now ≡ was }
{
    if entry.repo != Some(repo) {
        return None;
    }
    match &entry.kind {
        EntryKind::Begin { job, what } if *job == number => Some(what),
        _ => None,
    }
}
