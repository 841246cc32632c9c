//! A job that begins.
ghost use Rattle.running_jobs.specs.Beginning.{IsNewTask};

use annex_base::{Items, Text};
use node_tasks::{DropJob, DropWorker as Drops, Task, TransferJob, Worker};
use run_data::{Job, JobKind};
use std::alloc::Global;

/// The job of this number, as it begins in this slot, on a key that has these paths in the tree.
pub(crate) fn new_task(alloc: Global, number: u32, slot: u32, what: Job, paths: Items<Text>) -> Task
    ensures { IsNewTask number slot what paths result }
{
    match what.kind {
        JobKind::Drop => Task::Drops(DropJob {
            worker: Drops::start(alloc, number, slot, what, 3),
            paths,
            known: None,
            causes: Items::new(alloc),
        }),
        JobKind::Get | JobKind::Copy | JobKind::MoveTo | JobKind::MoveFrom => {
            Task::Transfers(TransferJob {
                worker: Worker::start(alloc, number, slot, what),
                paths,
            })
        }
    }
}
