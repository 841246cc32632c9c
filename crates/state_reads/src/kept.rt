//! A list of what drops have read.
ghost use Rattle.std.specs.Prelude.{◌≡◌, ◌<◌, ◌++◌, ◌==◌, find, filter, option_to_list, vec_len, vec_capacity};
ghost use Rattle.std.specs.Option.{option_copied};
ghost use Rattle.state_works.specs.Jobs.{works_of};
ghost use Rattle.state_reads.specs.Begun.{drop_has_read};
ghost use Rattle.state_reads.specs.Reads.{reading_in};

use crate::begun::has_read;
use crate::known::KnownLogs;
use state_works::Jobs;

/// What the drop of a job has read of the logs.
#[derive(Drop)]
pub struct Kept {
    pub job: u32,
    pub known: KnownLogs,
}

fn first_for(kept: &[Kept], job: u32) -> Option<&Kept>
    ensures { option_copied result ≡ find (λ k. k.job == job) kept.now }
{
    kept.iter().find(|k| k.job == job)
}

pub(crate) fn reading_in(kept: &[Kept], job: u32) -> Option<&KnownLogs>
    ensures { option_copied result ≡ reading_in kept.now job }
{
    match first_for(kept, job) {
        Some(found) => Some(&found.known),
        None => None,
    }
}

/// Lets go what was read for jobs that don't run, or whose drop isn't past its first step.
pub(crate) fn keep_read(kept: &mut Vec<Kept>, jobs: &Jobs)
    ensures items { kept.new.items ≡ filter (λ k. drop_has_read (find (λ w. w.number == k.job) (works_of jobs.now))) kept.old.items }
    ensures room { vec_len kept.old < vec_capacity kept.old → vec_len kept.new < vec_capacity kept.new }
{
    kept.retain(|k| has_read(jobs, k.job));
}

pub(crate) fn add(kept: &mut Vec<Kept>, change: Option<Kept>)
    requires { vec_len kept.old < vec_capacity kept.old }
    ensures { kept.new.items ≡ kept.old.items ++ option_to_list change }
{
    if let Some(new) = change {
        kept.push_reserved(new);
    }
}
