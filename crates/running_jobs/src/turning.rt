//! The step of one of the running jobs.
ghost use Rattle.std.specs.Prelude.{◌≡◌, ◌≤◌, ◌<◌, ◌*◌, ◌++◌, All, true, drop, length, slice_get, take, vec_capacity, vec_len, IfOk, OnErr};
ghost use Rattle.std.specs.Option.{ForSome};
ghost use Rattle.annex_base.specs.Lists.{Each};
ghost use Rattle.trust_groups.specs.View.{settings_of};
ghost use Rattle.content_lock.specs.Stored.{Agrees};
ghost use Rattle.transfer_turns.specs.Steps.{seen};
ghost use Rattle.node_tasks.specs.Tasks.{IsSpent, IsTask, OwnsOf};
ghost use Rattle.node_tasks.specs.Telling.{IsToldTo};
ghost use Rattle.running_jobs.specs.Changes.{Changes, Settles, task_after};
ghost use Rattle.running_jobs.specs.Leaving.{Stays};

use crate::acted::Acted;
use crate::finding::Found;
use crate::listing::{put_back, take_out};
use annex_base::NoMemory;
use content_lock::LockTable;
use node_ends::Ends;
use node_tasks::{Clock, Output, Place, Task, Time, act, end, tells};
use object_store::Keeper;
use std::alloc::Global;
use trust_groups::Settings;

/// The step of the job that was found. It goes back to its place, unless it has ended.
pub(crate) fn turn<K: Keeper>(
    running: &mut Vec<Task>,
    alloc: Global,
    place: &Place,
    clock: Clock,
    settings: &Settings,
    ends: &Ends,
    table: &mut LockTable,
    keeper: &mut K,
    found: Found,
    time: Time,
    number: u64,
) -> Result<Acted, NoMemory>
    requires there { found.index < length running.old.items }
    requires told { ForSome (slice_get running.old.items found.index) (λ t. IsToldTo ends.now t found.told) }
    requires tasks { Each (IsTask place.now) running.old.items }
    requires owns { Each (OwnsOf table.old) running.old.items }
    requires count { length ends.now ≡ length place.now.ids * 8 }
    requires agrees { Agrees (K.records keeper.old) table.old.holds }
    requires fresh { All (λ h. h.number < number) table.old.holds }
    ensures changes { IfOk result (Changes place.now clock ends.now (settings_of settings.now) time number found table.old table.new
        (seen (K.contents keeper.old) (K.parts keeper.old) (K.records keeper.old) (K.files keeper.old) (K.faults keeper.old) (K.failing keeper.old))
        (seen (K.contents keeper.new) (K.parts keeper.new) (K.records keeper.new) (K.files keeper.new) (K.faults keeper.new) (K.failing keeper.new)) running.old.items running.new.items) }
    ensures err { OnErr result (Stays running.old.items running.new.items table.old table.new
        (seen (K.contents keeper.old) (K.parts keeper.old) (K.records keeper.old) (K.files keeper.old) (K.faults keeper.old) (K.failing keeper.old))
        (seen (K.contents keeper.new) (K.parts keeper.new) (K.records keeper.new) (K.files keeper.new) (K.faults keeper.new) (K.failing keeper.new))) }
{
    let Found { index, told } = found;
    let takes = told.takes();
    let owes = tells(&running[index], &told)?;
    let task = take_out(running, index);
    let job = task.number();
    let slot = task.slot();
    let (task, made) = act(
        task, alloc, place, clock, settings, ends, table, keeper, told, time, number,
    );
    match made {
        Ok(out) => {
            let Output { kind, sent, ended } = out;
            settle(running, index, task, table, ended);
            Ok(Acted {
                job,
                slot,
                takes,
                kind,
                sent,
                ended,
                owes,
            })
        }
        Err(e) => {
            put_back(running, index, task);
            Err(e)
        }
    }
}

/// Puts a job back after its step, or ends it where it has ended.
fn settle(running: &mut Vec<Task>, index: usize, task: Task, table: &mut LockTable, ended: bool)
    requires there { index ≤ vec_len running.old }
    requires room { vec_len running.old < vec_capacity running.old }
    requires owns { OwnsOf table.old task }
    requires spent { ended ≡ true → IsSpent task }
    ensures list { running.new.items ≡ take index running.old.items ++ task_after ended task ++ drop index running.old.items }
    ensures settles { Settles ended task table.old table.new }
{
    if !ended {
        return put_back(running, index, task);
    }
    end(task, table);
}
