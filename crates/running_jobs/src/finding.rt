//! The first job, in order of slot, that has a step.
ghost use Rattle.std.specs.Prelude.{◌≡◌, ◌<◌, ◌*◌, length, position, IfOk};
ghost use Rattle.annex_base.specs.Lists.{Each};
ghost use Rattle.node_tasks.specs.Tasks.{IsTask};
ghost use Rattle.running_jobs.specs.Finding.{Finds, FindsAtSlot, has_slot};

use annex_base::NoMemory;
use node_ends::Ends;
use node_tasks::{Clock, Place, Task, Time, Told, ready};
use std::alloc::Global;

/// A job that has a step, by its place in the list, and what it is told.
#[derive(Drop)]
pub(crate) struct Found {
    pub index: usize,
    pub told: Told,
}

/// The first job, in order of slot, that has a step.
pub(crate) fn find_ready(
    jobs: &[Task],
    alloc: Global,
    place: &Place,
    clock: Clock,
    ends: &mut Ends,
    time: Time,
) -> Result<Option<Found>, NoMemory>
    requires tasks { Each (IsTask place.now) jobs.now }
    requires count { length ends.old ≡ length place.now.ids * 8 }
    ensures finds { IfOk result (Finds place.now clock ends.old jobs.now time) }
    ensures same { ends.new ≡ ends.old }
{
    for slot in 0..4 {
        if let Some(found) = at_slot(jobs, alloc, place, clock, ends, time, slot)? {
            return Ok(Some(found));
        }
    }
    Ok(None)
}

/// The job in this slot, if it has a step.
fn at_slot(
    jobs: &[Task],
    alloc: Global,
    place: &Place,
    clock: Clock,
    ends: &mut Ends,
    time: Time,
    slot: u32,
) -> Result<Option<Found>, NoMemory>
    requires tasks { Each (IsTask place.now) jobs.now }
    requires count { length ends.old ≡ length place.now.ids * 8 }
    ensures finds { IfOk result (FindsAtSlot place.now clock ends.old jobs.now time slot) }
    ensures same { ends.new ≡ ends.old }
{
    let Some(index) = index_of(jobs, slot) else {
        return Ok(None);
    };
    match ready(&jobs[index], alloc, place, clock, ends, time)? {
        Some(told) => Ok(Some(Found { index, told })),
        None => Ok(None),
    }
}

/// Where the job in this slot stands in the list.
fn index_of(jobs: &[Task], slot: u32) -> Option<usize>
    ensures { result ≡ position (has_slot slot) jobs.now }
{
    jobs.iter().position(|task| task.slot() == slot)
}
