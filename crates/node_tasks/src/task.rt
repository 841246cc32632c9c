//! What a job does.
ghost use Rattle.std.specs.Prelude.{◌≡◌, ◌&&◌, ℕ, List, map, not};
ghost use Rattle.run_data.specs.declared.entry.EntryKind.TheVariants.{Crash};
ghost use Rattle.node_model.specs.Rows.{holds_after};
ghost use Rattle.content_lock.specs.Rows.{bar_at, is_filling};
ghost use Rattle.content_lock.specs.Stored.{label_of};
ghost use Rattle.drop_phases.specs.Doing.{OthersStay};
ghost use Rattle.transfer_turns.specs.Steps.{fills_key};
ghost use Rattle.node_tasks.specs.Tasks.{IsSpent, OwnsOf, number_of, slot_of, work_now};

use content_lock::LockTable;
use node_drops::{DropJob, drop_worker};
use node_transfers::{TransferJob, transfer_worker};

/// What a job does: it drops a content, or brings one here or to a peer.
pub enum Task {
    Drops(DropJob),
    Transfers(TransferJob),
}

impl Task {
    /// The job's number.
    pub fn number(&self) -> u32
        ensures { result ≡ number_of self.now }
    {
        match self {
            Task::Drops(job) => job.worker().number(),
            Task::Transfers(job) => job.worker.number(),
        }
    }

    /// The job's slot.
    pub fn slot(&self) -> u32
        ensures { result ≡ slot_of self.now }
    {
        match self {
            Task::Drops(job) => job.worker().slot(),
            Task::Transfers(job) => job.worker.slot(),
        }
    }
}

/// Ends a job, after its last step or at a crash: what it has of the table is given up. A hold of its own is kept until its end.
pub fn end(task: Task, table: &mut LockTable)
    requires owns { OwnsOf table.old task }
    ensures fills { (key : List ℕ) → is_filling table.new key ≡ (not (fills_key (work_now task) key) && is_filling table.old key) }
    ensures spent { IsSpent task → table.new.holds ≡ table.old.holds }
    ensures labels { map label_of table.new.holds ≡ map label_of table.old.holds }
    ensures crash { (clock : ℕ) → holds_after table.new.holds (Crash clock) ≡ holds_after table.old.holds (Crash clock) }
    ensures bars { IsSpent task → (key : List ℕ) → bar_at table.new key ≡ bar_at table.old key }
    ensures others { OthersStay (number_of task) table.old table.new }
{
    match task {
        Task::Drops(job) => {
            let DropJob {
                worker,
                paths: _,
                known: _,
                causes: _,
            } = job;
            drop_worker::end(worker, table);
        }
        Task::Transfers(job) => {
            let TransferJob { worker, paths: _ } = job;
            transfer_worker::end(worker, table);
        }
    }
}
