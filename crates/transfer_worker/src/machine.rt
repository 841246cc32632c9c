//! The step of a transfer, which its contract ties to the step of the job's slot.
ghost use Rattle.std.specs.Prelude.{◌≡◌, ℕ, false, None, Some, IfOk};
ghost use Rattle.std.specs.declared.option.Option.{Option};
ghost use Rattle.std.specs.Option.{ForSome, option_copied};
ghost use Rattle.run_data.specs.declared.entry.FrameView.{FrameView};
ghost use Rattle.node_model.specs.Look.{Effect, Look, failed_in};
ghost use Rattle.node_model.specs.SetUp.{SetUp};
ghost use Rattle.node_model.specs.State.{State};
ghost use Rattle.node_model.specs.Turns.{slot_step};
ghost use Rattle.content_lock.specs.CallsMade.{MakesCalls};
ghost use Rattle.drop_phases.specs.Doing.{HasToken};
ghost use Rattle.drop_phases.specs.declared.phase.Token.TheVariants as tokens;
ghost use Rattle.transfer_turns.specs.Steps.{seen};
ghost use Rattle.transfer_turns.specs.Turns.{awaited};
ghost use Rattle.node_model.specs.Jobs.{Puts, first_part};
ghost use Rattle.get_phases.specs.Gets as gets;
ghost use Rattle.get_phases.specs.Gets.{is_done};
ghost use Rattle.get_phases.specs.Getting.{Does};
ghost use Rattle.put_steps.specs.Puts as puts;
ghost use Rattle.put_steps.specs.Puts.{HasPeer};
ghost use Rattle.put_steps.specs.Putting as putting_steps;
ghost use Rattle.transfer_worker.specs.States.{Sees, StepsSo};
ghost use Rattle.transfer_worker.specs.Workers.{CanStep, HasFill, Keeps, SeesPart, Steps, work_of};

use crate::worker::Worker;
use annex_base::NoMemory;
use content_lock::LockTable;
use get_phases::Getting;
use object_store::Keeper;
use put_steps::Putting;
use session_state::Incoming;
use std::alloc::Global;
use transfer_turns::{Here, Output};

/// One step of a transfer: an entry, what is sent with it, and whether the job has ended with it, or its transfer is done and its
/// drop is to begin. It is told what came at the end on which the job awaits a frame; nothing where the connection was closed here,
/// or where the job awaits none. Want of memory changes nothing.
pub fn step<K: Keeper, H: Here>(
    worker: &mut Worker,
    alloc: Global,
    here: &H,
    table: &mut LockTable,
    keeper: &mut K,
    incoming: Option<&Incoming>,
) -> Result<Output, NoMemory>
    requires can { CanStep (H.sight here.now) worker.old }
    requires told { awaited (work_of worker.old) ≡ None → option_copied incoming ≡ None }
    requires bare { HasToken (work_of worker.old).number (work_of worker.old).what.key tokens.Nothing table.old }
    requires has { HasFill table.old worker.old }

    // Of each state that these are, at a look at which the entry's call fails: the slot's step is this one.
    ensures step { IfOk result (λ out. ForSome (K.contents keeper.old) (λ c. (s : SetUp) (st : State) (k : Look) (f : Option FrameView)
        → Sees (H.sight here.now) table.old c (work_of worker.old) (option_copied incoming.entry) (failed_in out.kind) (SeesPart (K.parts keeper.old) worker.old (option_copied incoming.entry)) s st k f
        → StepsSo (H.sight here.now) (work_of worker.old) (work_of worker.new) out s st k f)) }

    // Of each such state: of the calls that the slot's step makes, the first that was to fail has failed.
    ensures calls { IfOk result (λ out. ForSome (K.contents keeper.old) (λ c. (s : SetUp) (st : State) (k : Look) (f : Option FrameView)
        → Sees (H.sight here.now) table.old c (work_of worker.old) (option_copied incoming.entry) (failed_in out.kind) (SeesPart (K.parts keeper.old) worker.old (option_copied incoming.entry)) s st k f
        → ForSome (slot_step s st k (Some (work_of worker.old))) (λ (m : Effect). MakesCalls m.calls (failed_in out.kind) (K.failing keeper.old) (K.failing keeper.new)))) }

    ensures keeps { Keeps (H.sight here.now) (option_copied incoming.entry) table.old table.new
        (seen (K.contents keeper.old) (K.parts keeper.old) (K.records keeper.old) (K.files keeper.old) (K.faults keeper.old) (K.failing keeper.old))
        (seen (K.contents keeper.new) (K.parts keeper.new) (K.records keeper.new) (K.files keeper.new) (K.faults keeper.new) (K.failing keeper.new)) worker.old worker.new result }
{
    advance(worker, alloc, here, table, keeper, incoming)
}

/// The step, in the words of a turn.
fn advance<K: Keeper, H: Here>(
    worker: &mut Worker,
    alloc: Global,
    here: &H,
    table: &mut LockTable,
    keeper: &mut K,
    incoming: Option<&Incoming>,
) -> Result<Output, NoMemory>
    requires can { CanStep (H.sight here.now) worker.old }
    requires told { awaited (work_of worker.old) ≡ None → option_copied incoming ≡ None }
    requires bare { HasToken (work_of worker.old).number (work_of worker.old).what.key tokens.Nothing table.old }
    requires has { HasFill table.old worker.old }
    ensures does { Steps (H.sight here.now) (option_copied incoming.entry) table.old
        (seen (K.contents keeper.old) (K.parts keeper.old) (K.records keeper.old) (K.files keeper.old) (K.faults keeper.old) (K.failing keeper.old))
        (seen (K.contents keeper.new) (K.parts keeper.new) (K.records keeper.new) (K.files keeper.new) (K.faults keeper.new) (K.failing keeper.new)) worker.old worker.new result }
    ensures keeps { Keeps (H.sight here.now) (option_copied incoming.entry) table.old table.new
        (seen (K.contents keeper.old) (K.parts keeper.old) (K.records keeper.old) (K.files keeper.old) (K.faults keeper.old) (K.failing keeper.old))
        (seen (K.contents keeper.new) (K.parts keeper.new) (K.records keeper.new) (K.files keeper.new) (K.faults keeper.new) (K.failing keeper.new)) worker.old worker.new result }
{
    match worker {
        Worker::Gets(getting) => get(getting, alloc, here, table, keeper, incoming),
        Worker::Puts(putting) => put(putting, alloc, here, table, keeper, incoming),
    }
}

/// The step of a get.
fn get<K: Keeper, H: Here>(
    getting: &mut Getting,
    alloc: Global,
    here: &H,
    table: &mut LockTable,
    keeper: &mut K,
    incoming: Option<&Incoming>,
) -> Result<Output, NoMemory>
    requires going { is_done getting.old.phase ≡ false }
    requires told { awaited (gets.work_of getting.old) ≡ None → option_copied incoming ≡ None }
    requires bare { HasToken getting.old.number getting.old.job.key tokens.Nothing table.old }
    requires has { gets.HasFill table.old getting.old }
    ensures { Does (H.sight here.now) (option_copied incoming.entry) table.old table.new
        (seen (K.contents keeper.old) (K.parts keeper.old) (K.records keeper.old) (K.files keeper.old) (K.faults keeper.old) (K.failing keeper.old))
        (seen (K.contents keeper.new) (K.parts keeper.new) (K.records keeper.new) (K.files keeper.new) (K.faults keeper.new) (K.failing keeper.new)) getting.old getting.new result }
{
    match getting.awaits() {
        Some(peer) => get_answers::hear(getting, alloc, table, keeper, incoming, peer),
        None => get_requests::act(getting, alloc, here, table, keeper),
    }
}

/// The step of a copy.
fn put<K: Keeper, H: Here>(
    putting: &mut Putting,
    alloc: Global,
    here: &H,
    table: &LockTable,
    keeper: &mut K,
    incoming: Option<&Incoming>,
) -> Result<Output, NoMemory>
    requires puts { first_part putting.old.job.kind ≡ Puts }
    requires peer { HasPeer (H.sight here.now) putting.old.job.peer }
    requires going { puts.is_done putting.old.phase ≡ false }
    requires told { awaited (puts.work_of putting.old) ≡ None → option_copied incoming ≡ None }
    requires bare { HasToken putting.old.number putting.old.job.key tokens.Nothing table.now }
    ensures { putting_steps.Does (H.sight here.now) (option_copied incoming.entry) table.now
        (seen (K.contents keeper.old) (K.parts keeper.old) (K.records keeper.old) (K.files keeper.old) (K.faults keeper.old) (K.failing keeper.old))
        (seen (K.contents keeper.new) (K.parts keeper.new) (K.records keeper.new) (K.files keeper.new) (K.faults keeper.new) (K.failing keeper.new)) putting.old putting.new result }
{
    match putting.awaits() {
        Some(peer) => put_steps::hear(putting, alloc, keeper, incoming, peer),
        None => put_steps::act(putting, alloc, here, table, keeper),
    }
}
