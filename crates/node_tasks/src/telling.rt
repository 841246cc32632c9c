//! What a job's repository owes its branch by what the job is told.
ghost use Rattle.std.specs.Prelude.{◌≡◌, true, false, List, map, option_copied, option_map, option_to_list, IfOk};
ghost use Rattle.link_ring.specs.Ends.{EndView};
ghost use Rattle.run_data.specs.declared.entry.By.TheVariants.{Job as by_job};
ghost use Rattle.node_model.specs.OwedLines.{owed_line, told_line, told_to};
ghost use Rattle.owed_lines.specs.Lines.{line_of};
ghost use Rattle.drop_phases.specs.declared.phase.Phase.TheVariants as drops;
ghost use Rattle.node_drops.specs.Drops.{plain};
ghost use Rattle.drop_phases.specs.Working.{phase_as, work_of as drop_work};
ghost use Rattle.put_steps.specs.Puts as puts;
ghost use Rattle.node_transfers.specs.Workers.{work_of};
ghost use Rattle.node_tasks.specs.Owing.{Owes};
ghost use Rattle.node_tasks.specs.Tasks.{work_now};
ghost use Rattle.node_tasks.specs.Telling.{IsToldTo};

use crate::readiness::Told;
use crate::task::Task;
use annex_base::NoMemory;
use annex_key::Key;
use node_drops::drop_worker;
use node_transfers::{TransferJob, Worker};
use owed_lines::ToldLine;
use p2p_wire::Message;
use put_steps::{Phase, Putting};

/// What a job's repository owes its branch since the job was told this: the line of its peer's copy, if the peer answered that it
/// has the content, or has removed it.
pub fn tells(task: &Task, told: &Told) -> Result<Option<ToldLine>, NoMemory>
    ensures { IfOk result (λ o. (links : List EndView) → IsToldTo links task.now told.now → Owes links task.now told.now o) }
{
    told_line(task, told.message())
}

fn told_line(task: &Task, message: Option<&Message>) -> Result<Option<ToldLine>, NoMemory>
    ensures { IfOk result (λ o. option_to_list (option_map line_of o) ≡ told_line (work_now task.now) (option_copied message.entry)) }
{
    match message {
        Some(message) => told_to(task, message),
        None => Ok(None),
    }
}

fn told_to(task: &Task, message: &Message) -> Result<Option<ToldLine>, NoMemory>
    ensures { IfOk result (λ o. option_to_list (option_map line_of o) ≡ told_to (work_now task.now) (work_now task.now).phase message.now) }
{
    match task {
        Task::Drops(job) => by_drop(job.worker(), message),
        Task::Transfers(job) => by_transfer(job, message),
    }
}

/// A transfer: a get's peers tell of no copy that has come or gone.
fn by_transfer(job: &TransferJob, message: &Message) -> Result<Option<ToldLine>, NoMemory>
    ensures { IfOk result (λ o. option_to_list (option_map line_of o) ≡ told_to (work_of job.now) (work_of job.now).phase message.now) }
{
    match &job.worker {
        Worker::Puts(putting) => by_copy(putting, message),
        Worker::Gets(_getting) => Ok(None),
    }
}

/// The line of a copy that a repository has, or has no more.
fn line(job: u32, repo: u32, there: bool, key: &Key) -> Result<ToldLine, NoMemory>
    ensures { IfOk result (λ line. line_of line ≡ owed_line (by_job job) repo there key.now) }
{
    let key = key.copy()?;
    Ok(ToldLine {
        job,
        repo,
        there,
        key,
    })
}

/// A copy: its peer has the content.
fn by_copy(putting: &Putting, message: &Message) -> Result<Option<ToldLine>, NoMemory>
    ensures { IfOk result (λ o. option_to_list (option_map line_of o) ≡ told_to (puts.work_of putting.now) (puts.phase_of putting.now.phase) message.now) }
{
    match (putting.phase, message) {
        (Phase::Offer { peer }, Message::AlreadyHave) => Ok(Some(has_copy(putting, peer)?)),
        (Phase::Answer { peer, start: _ }, Message::Success) => Ok(Some(has_copy(putting, peer)?)),
        _ => Ok(None),
    }
}

fn has_copy(putting: &Putting, peer: u32) -> Result<ToldLine, NoMemory>
    ensures { IfOk result (λ line. line_of line ≡ owed_line (by_job putting.now.number) peer true putting.now.job.key) }
{
    line(putting.number, peer, true, putting.key())
}

/// A drop: its target has removed the content.
fn by_drop(worker: &drop_worker::Worker, message: &Message) -> Result<Option<ToldLine>, NoMemory>
    ensures { IfOk result (λ o. option_to_list (option_map line_of o) ≡ told_to (drop_work plain worker.now) (phase_as worker.now.phase) message.now) }
{
    match (worker.phase(), message) {
        (drop_worker::Phase::Orders, Message::Success) => removed(worker),
        _ => Ok(None),
    }
}

/// The target is the peer whose answer to the order the drop awaits.
fn removed(worker: &drop_worker::Worker) -> Result<Option<ToldLine>, NoMemory>
    requires orders { worker.now.phase ≡ drops.Orders }
    ensures { IfOk result (λ o. option_to_list (option_map line_of o) ≡ map (λ peer. owed_line (by_job worker.now.number) peer false worker.now.job.key) (option_to_list worker.now.job.peer)) }
{
    match worker.awaits() {
        Some(peer) => Ok(Some(line(worker.number(), peer, false, worker.key())?)),
        None => Ok(None),
    }
}
