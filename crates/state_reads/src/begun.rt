//! The drops at whose first step an entry may stand, and those that are past it.
ghost use Rattle.std.specs.Prelude.{◌≡◌, ◌==◌, find, Some};
ghost use Rattle.std.specs.Option.{option_copied, option_map};
ghost use Rattle.node_model.specs.After.{has_read};
ghost use Rattle.node_model.specs.Jobs.{Drops};
ghost use Rattle.node_model.specs.Slots.{job_of};
ghost use Rattle.state_jobs.specs.Phases.{part_of, phase_of};
ghost use Rattle.state_jobs.specs.Works.{work_of};
ghost use Rattle.state_works.specs.Jobs.{works_of};
ghost use Rattle.state_reads.specs.Begun.{begins, begun_drop, drop_has_read, if_begins, work_at};

use run_data::EntryKind;
use state_jobs::{Part, Phase, Work};
use state_works::{Jobs, job_of};

fn is_fresh(phase: Phase) -> bool
    ensures { result ≡ begins Drops (phase_of phase) }
{
    matches!(phase, Phase::Fresh)
}

/// Whether the drop of a job that is at this is to begin.
fn begins(part: Part, phase: Phase) -> bool
    ensures { result ≡ begins (part_of part) (phase_of phase) }
{
    match part {
        Part::Drops => is_fresh(phase),
        Part::Gets | Part::Puts => false,
    }
}

fn is_past_fresh(phase: Phase) -> bool
    ensures { result ≡ has_read Drops (phase_of phase) }
{
    !matches!(phase, Phase::Fresh)
}

/// Whether the drop of a job that is at this is past its first step.
fn is_past(part: Part, phase: Phase) -> bool
    ensures { result ≡ has_read (part_of part) (phase_of phase) }
{
    match part {
        Part::Drops => is_past_fresh(phase),
        Part::Gets | Part::Puts => false,
    }
}

/// Whether the job of this number runs, and its drop is past its first step.
pub(crate) fn has_read(jobs: &Jobs, number: u32) -> bool
    ensures { result ≡ drop_has_read (find (λ w. w.number == number) (works_of jobs.now)) }
{
    match jobs.job(number) {
        Some(work) => is_past(work.part, work.phase),
        None => false,
    }
}

/// The running job that made an entry of this kind.
fn maker<'a>(jobs: &'a Jobs, kind: &EntryKind) -> Option<&'a Work>
    ensures { option_map work_of (option_copied result) ≡ work_at (works_of jobs.now) (job_of kind.now) }
{
    match job_of(kind) {
        Some(job) => jobs.job(job),
        None => None,
    }
}

fn if_begins(work: &Work) -> Option<&Work>
    ensures { option_map work_of (option_copied result) ≡ if_begins (Some (work_of work.now)) }
{
    if begins(work.part, work.phase) {
        Some(work)
    } else {
        None
    }
}

/// The job that made an entry of this kind, if its drop is to begin.
pub(crate) fn begun_drop<'a>(jobs: &'a Jobs, kind: &EntryKind) -> Option<&'a Work>
    ensures { option_map work_of (option_copied result) ≡ begun_drop (works_of jobs.now) kind.now }
{
    match maker(jobs, kind) {
        Some(work) => if_begins(work),
        None => None,
    }
}
