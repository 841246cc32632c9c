//! The step of a job.
ghost use Rattle.std.specs.Prelude.{◌≡◌, ◌*◌, ◌<◌, ℕ, All, length, IfOk};
ghost use Rattle.annex_base.specs.Settings.{Settings as SettingsView};
ghost use Rattle.trust_groups.specs.View.{settings_of};
ghost use Rattle.node_model.specs.Clocks.{ClockSet};
ghost use Rattle.content_lock.specs.Stored.{Agrees};
ghost use Rattle.transfer_turns.specs.Steps.{is_end, seen};
ghost use Rattle.node_tasks.specs.declared.readiness.Told.TheVariants as tolds;
ghost use Rattle.node_tasks.specs.declared.task.Task.{Task as TaskView};
ghost use Rattle.node_tasks.specs.declared.task.Task.TheVariants as tasks;
ghost use Rattle.node_tasks.specs.Acting.{Acts, Leaves, Makes};
ghost use Rattle.node_tasks.specs.Handing.{HandsOn};
ghost use Rattle.node_tasks.specs.Tasks.{IsTask, OwnsOf};
ghost use Rattle.node_tasks.specs.Telling.{IsToldTo};

use crate::acted::{Output, Sent};
use crate::readiness::Told;
use crate::task::Task;
use annex_base::{Items, NoMemory};
use content_lock::LockTable;
use end_hearing::Arrival;
use node_drops::{Clock, DropJob, Feed, Input, Place, Time, Worker as DropWorker, drop_worker};
use node_ends::Ends;
use node_transfers::{Reach, TransferJob, transfer_worker};
use object_store::Keeper;
use run_data::EntryKind;
use std::alloc::Global;
use trust_groups::Settings;

/// The step of a job that is told this: its entry, what is sent with it, and whether the job has ended; and the job after it, which
/// is the drop of a move from the end of its transfer on. A drop reads the settings at its first step. Want of memory changes nothing
/// but the count of the store's faults.
pub fn act<K: Keeper>(
    task: Task,
    alloc: Global,
    place: &Place,
    clock: Clock,
    settings: &Settings,
    ends: &Ends,
    table: &mut LockTable,
    keeper: &mut K,
    told: Told,
    time: Time,
    number: u64,
) -> (Task, Result<Output, NoMemory>)
    requires task { IsTask place.now task }
    requires owns { OwnsOf table.old task }
    requires told { IsToldTo ends.now task told }
    requires count { length ends.now ≡ length place.now.ids * 8 }
    requires agrees { Agrees (K.records keeper.old) table.old.holds }
    requires fresh { All (λ h. h.number < number) table.old.holds }

    // Of each state that these are, at a look at which the entry's call fails: the step is that of the job's slot, with its calls.
    ensures acts { IfOk result.1 (Acts place.now clock ends.now (settings_of settings.now) time number (K.contents keeper.old) (K.parts keeper.old) table.old task result.0 told) }
    ensures calls { IfOk result.1 (Makes place.now clock ends.now (settings_of settings.now) time number (K.contents keeper.old) (K.parts keeper.old) table.old (K.failing keeper.old) (K.failing keeper.new) task told) }
    ensures leaves { Leaves place.now number table.old table.new
        (seen (K.contents keeper.old) (K.parts keeper.old) (K.records keeper.old) (K.files keeper.old) (K.faults keeper.old) (K.failing keeper.old))
        (seen (K.contents keeper.new) (K.parts keeper.new) (K.records keeper.new) (K.files keeper.new) (K.faults keeper.new) (K.failing keeper.new)) task result.0 told result.1 }
{
    match task {
        Task::Drops(mut job) => {
            match told {
                Told::Feed(feed) => {
                    let made = drop_step(
                        &mut job, alloc, place, clock, settings, ends, table, keeper, feed, time,
                        number,
                    );
                    (Task::Drops(job), made)
                }
                Told::Arrival(_arrival) => unreachable!(),
            }
        }
        Task::Transfers(mut job) => {
            match told {
                Told::Arrival(arrival) => {
                    let made = transfer_step(&mut job, alloc, place, ends, table, keeper, &arrival);
                    (hand_on(alloc, job), made)
                }
                Told::Feed(_feed) => unreachable!(),
            }
        }
    }
}

/// A move whose transfer is done is its drop from here on.
fn hand_on(alloc: Global, job: TransferJob) -> Task
    ensures { HandsOn job result }
{
    if !job.worker.is_done() {
        return Task::Transfers(job);
    }
    let TransferJob { worker, paths } = job;
    let transfer_worker::Finished {
        number,
        slot,
        job,
        version,
        causes,
    } = transfer_worker::finish(alloc, worker);
    Task::Drops(DropJob {
        worker: DropWorker::start(alloc, number, slot, job, version),
        paths,
        known: None,
        causes: Items::from_vec(causes),
    })
}

/// The step of a drop.
fn drop_step<K: Keeper>(
    job: &mut DropJob,
    alloc: Global,
    place: &Place,
    clock: Clock,
    settings: &Settings,
    ends: &Ends,
    table: &mut LockTable,
    keeper: &mut K,
    feed: Feed,
    time: Time,
    number: u64,
) -> Result<Output, NoMemory>
    requires task { IsTask place.now (tasks.Drops job.old) }
    requires owns { OwnsOf table.old (tasks.Drops job.old) }
    requires told { IsToldTo ends.now (tasks.Drops job.old) (tolds.Feed feed) }
    requires count { length ends.now ≡ length place.now.ids * 8 }
    requires agrees { Agrees (K.records keeper.old) table.old.holds }
    requires fresh { All (λ h. h.number < number) table.old.holds }
    ensures acts { IfOk result (Acts place.now clock ends.now (settings_of settings.now) time number (K.contents keeper.old) (K.parts keeper.old) table.old (tasks.Drops job.old) (tasks.Drops job.new) (tolds.Feed feed)) }
    ensures calls { IfOk result (Makes place.now clock ends.now (settings_of settings.now) time number (K.contents keeper.old) (K.parts keeper.old) table.old (K.failing keeper.old) (K.failing keeper.new) (tasks.Drops job.old) (tolds.Feed feed)) }
    ensures leaves { Leaves place.now number table.old table.new
        (seen (K.contents keeper.old) (K.parts keeper.old) (K.records keeper.old) (K.files keeper.old) (K.faults keeper.old) (K.failing keeper.old))
        (seen (K.contents keeper.new) (K.parts keeper.new) (K.records keeper.new) (K.files keeper.new) (K.faults keeper.new) (K.failing keeper.new)) (tasks.Drops job.old) (tasks.Drops job.new) (tolds.Feed feed) result }
{
    let Feed {
        taken,
        word,
        takes: _,
    } = feed;
    let input = Input {
        taken,
        time,
        number,
        word,
    };
    let made = node_drops::act(
        job, alloc, place, clock, settings, ends, table, keeper, &input,
    )?;
    let drop_worker::Output { kind, sends, ended } = made;
    Ok(Output {
        kind,
        sent: Sent::ByDrop(sends),
        ended,
    })
}

/// The step of a transfer, whichever job it hands on to.
fn transfer_step<K: Keeper>(
    job: &mut TransferJob,
    alloc: Global,
    place: &Place,
    ends: &Ends,
    table: &mut LockTable,
    keeper: &mut K,
    arrival: &Arrival,
) -> Result<Output, NoMemory>
    requires task { IsTask place.now (tasks.Transfers job.old) }
    requires owns { OwnsOf table.old (tasks.Transfers job.old) }
    requires told { IsToldTo ends.now (tasks.Transfers job.old) (tolds.Arrival arrival.now) }
    requires count { length ends.now ≡ length place.now.ids * 8 }
    ensures acts { IfOk result (λ out. (next : TaskView) → HandsOn job.new next → (clock : ClockSet) (settings : SettingsView) (time number : ℕ)
        → Acts place.now clock ends.now settings time number (K.contents keeper.old) (K.parts keeper.old) table.old (tasks.Transfers job.old) next (tolds.Arrival arrival.now) out) }
    ensures calls { IfOk result (λ out. (clock : ClockSet) (settings : SettingsView) (time number : ℕ)
        → Makes place.now clock ends.now settings time number (K.contents keeper.old) (K.parts keeper.old) table.old (K.failing keeper.old) (K.failing keeper.new) (tasks.Transfers job.old) (tolds.Arrival arrival.now) out) }
    ensures leaves { (next : TaskView) (number : ℕ) → HandsOn job.new next → Leaves place.now number table.old table.new
        (seen (K.contents keeper.old) (K.parts keeper.old) (K.records keeper.old) (K.files keeper.old) (K.faults keeper.old) (K.failing keeper.old))
        (seen (K.contents keeper.new) (K.parts keeper.new) (K.records keeper.new) (K.files keeper.new) (K.faults keeper.new) (K.failing keeper.new)) (tasks.Transfers job.old) next (tolds.Arrival arrival.now) result }
{
    let reach = Reach {
        repo: place.number(),
        count: place.count(),
        ends,
    };
    let made = transfer_worker::step(
        &mut job.worker,
        alloc,
        &reach,
        table,
        keeper,
        arrival.incoming.as_ref(),
    )?;
    let transfer_worker::Output {
        kind,
        sends,
        ended: _,
    } = made;
    let ended = is_end(&kind);
    Ok(Output {
        kind,
        sent: Sent::ByTransfer(sends),
        ended,
    })
}

/// Whether an entry of this kind ends its job.
fn is_end(kind: &EntryKind) -> bool
    ensures { result ≡ is_end kind.now }
{
    matches!(kind, EntryKind::End { .. })
}
