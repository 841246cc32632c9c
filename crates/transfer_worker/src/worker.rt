//! The transfer of a job.
ghost use Rattle.std.specs.Prelude.{◌≡◌, ◌&&◌, not, ℕ, List, None, Some, true, bytes_eq, is_some};
ghost use Rattle.std.specs.Option.{option_to_list};
ghost use Rattle.run_data.specs.declared.job.JobKind.TheVariants as kinds;
ghost use Rattle.node_model.specs.Jobs.{partner};
ghost use Rattle.node_model.specs.JobStep.{turn_of};
ghost use Rattle.node_model.specs.Look.{Look};
ghost use Rattle.node_model.specs.SetUp.{SetUp};
ghost use Rattle.node_model.specs.State.{State};
ghost use Rattle.node_model.specs.Turns.{needs};
ghost use Rattle.content_lock.specs.Rows.{is_filling};
ghost use Rattle.transfer_turns.specs.Steps.{fills_key};
ghost use Rattle.transfer_turns.specs.Turns.{awaited};
ghost use Rattle.transfer_worker.specs.States.{IsSight};
ghost use Rattle.get_phases.specs.Gets as gets;
ghost use Rattle.put_steps.specs.Puts as puts;
ghost use Rattle.transfer_worker.specs.Workers.{CanStep, HasFill, asked_next, drop_after, is_done, new_work_of, sent_next, work_of};

use content_lock::LockTable;
use get_phases::{Getting, next_source};
use put_steps::{Phase, Putting};
use run_data::{Job, JobKind, SourceFailure};
use std::alloc::Global;
use transfer_turns::Here;

/// The transfer of a job: it brings the content here, or to a peer.
pub enum Worker {
    Gets(Getting),
    Puts(Putting),
}

impl Worker {
    /// The transfer of a job that begins, which is no drop.
    pub fn start(alloc: Global, number: u32, slot: u32, job: Job) -> Worker
        requires { job.kind ≡ kinds.Drop → ⊥ }
        ensures { work_of result ≡ new_work_of number slot job }
    {
        match job.kind {
            JobKind::Get | JobKind::MoveFrom => {
                Worker::Gets(Getting::start(alloc, number, slot, job))
            }
            JobKind::Copy | JobKind::MoveTo => Worker::Puts(Putting::start(number, slot, job)),
            JobKind::Drop => unreachable!(),
        }
    }

    /// The peer whose frame it awaits, if it awaits one.
    pub fn awaits(&self) -> Option<u32>
        ensures { result ≡ awaited (work_of self.now) }
    {
        match self {
            Worker::Gets(getting) => getting.awaits(),
            Worker::Puts(putting) => putting.awaits(),
        }
    }

    /// The peer on whose connection it talks, if it talks on one: it awaits a frame there, or sends a content's bytes.
    pub fn partner(&self) -> Option<u32>
        ensures { result ≡ partner (work_of self.now).what.peer (work_of self.now).phase }
    {
        match self {
            Worker::Gets(getting) => getting.awaits(),
            Worker::Puts(putting) => putting.partner(),
        }
    }

    /// Whether its transfer is done, and its drop is to begin.
    pub fn is_done(&self) -> bool
        ensures { result ≡ is_done self.now }
    {
        match self {
            Worker::Gets(getting) => matches!(getting.phase, get_phases::Phase::Done),
            Worker::Puts(putting) => matches!(putting.phase, Phase::Done),
        }
    }

    /// The number of its job.
    pub fn number(&self) -> u32
        ensures { result ≡ (work_of self.now).number }
    {
        match self {
            Worker::Gets(getting) => getting.number,
            Worker::Puts(putting) => putting.number,
        }
    }

    /// The slot in which its job runs.
    pub fn slot(&self) -> u32
        ensures { result ≡ (work_of self.now).slot }
    {
        match self {
            Worker::Gets(getting) => getting.slot,
            Worker::Puts(putting) => putting.slot,
        }
    }

    /// Its job, which has its key.
    pub fn job(&self) -> &Job
        ensures { result.now ≡ (work_of self.now).what }
    {
        match self {
            Worker::Gets(getting) => &getting.job,
            Worker::Puts(putting) => &putting.job,
        }
    }
}

/// The peer to which the next step of a transfer may send more than a Close, for some answers of its store and its table, where it
/// awaits no frame.
pub fn sends_to<H: Here>(worker: &Worker, here: &H) -> Option<u32>
    requires can { CanStep (H.sight here.now) worker.now }
    requires awaits { awaited (work_of worker.now) ≡ None }
    ensures { (s : SetUp) (st : State) (k : Look) → IsSight (H.sight here.now) s st → option_to_list result ≡ needs (turn_of s st k (work_of worker.now)) (work_of worker.now).phase }
{
    match worker {
        Worker::Gets(getting) => asked_by(getting, here),
        Worker::Puts(putting) => offered_by(putting),
    }
}

/// The peer that a get asks next, where it is to ask one.
fn asked_by<H: Here>(getting: &Getting, here: &H) -> Option<u32>
    requires awaits { awaited (gets.work_of getting.now) ≡ None }
    ensures { result ≡ asked_next (H.sight here.now) getting.now }
{
    match &getting.phase {
        get_phases::Phase::Fresh | get_phases::Phase::Next { fill: _ } => next_source(
            getting, here,
        ),
        _ => None,
    }
}

/// The peer to which a copy offers the content, or sends it.
fn offered_by(putting: &Putting) -> Option<u32>
    requires awaits { awaited (puts.work_of putting.now) ≡ None }
    ensures { result ≡ sent_next putting.now }
{
    match putting.phase {
        Phase::Fresh => putting.job.peer,
        Phase::Bytes(sending) => Some(sending.peer),
        Phase::Word { peer, start: _ } => Some(peer),
        _ => None,
    }
}

/// What the transfer of a move leaves to its drop: the job's number and slot, the job, what its peer answered to VERSION (3 where
/// it wasn't asked), and why each peer that was asked gave nothing, in order.
pub struct Finished {
    pub number: u32,
    pub slot: u32,
    pub job: Job,
    pub version: u64,
    pub causes: Vec<SourceFailure>,
}

/// Takes a transfer that is done apart: its drop is to begin, as the job's work says.
pub fn finish(alloc: Global, worker: Worker) -> Finished
    requires { is_done worker ≡ true }
    ensures { work_of worker ≡ drop_after result }
{
    match worker {
        Worker::Gets(getting) => {
            let Getting {
                number,
                slot,
                job,
                version,
                causes,
                phase,
            } = getting;
            match phase {
                get_phases::Phase::Done => Finished {
                    number,
                    slot,
                    job,
                    version,
                    causes,
                },
                _ => unreachable!(),
            }
        }
        Worker::Puts(putting) => {
            let Putting {
                number,
                slot,
                job,
                version,
                phase: _,
            } = putting;
            Finished {
                number,
                slot,
                job,
                version,
                causes: Vec::new(alloc),
            }
        }
    }
}

/// Ends a worker where its job has ended, or at a crash: it gives back the right to fill its key. (A move that is done with its
/// transfer has none.)
pub fn end(worker: Worker, table: &mut LockTable)
    requires has { HasFill table.old worker }
    ensures fills { (key : List ℕ) → is_filling table.new key ≡ (not (fills_key (work_of worker) key) && is_filling table.old key) }
    ensures holds { table.new.holds ≡ table.old.holds }
    ensures bars { table.new.bars ≡ table.old.bars }
{
    match worker {
        Worker::Gets(getting) => get_phases::end(getting, table),
        Worker::Puts(_putting) => {}
    }
}
