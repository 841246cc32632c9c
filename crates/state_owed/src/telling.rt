//! The line that a job owes by what its peer tells it.
ghost use Rattle.std.specs.Prelude.{◌≡◌, false, map, option_copied, option_map, option_to_list, IfOk};
ghost use Rattle.run_data.specs.declared.entry.By.TheVariants.{Job as by_job};
ghost use Rattle.node_model.specs.OwedLines.{owed_line, told_line, told_to};
ghost use Rattle.state_jobs.specs.Phases.{phase_of};
ghost use Rattle.state_jobs.specs.Works.{work_of};
ghost use Rattle.state_owed.specs.Changes.{told_by};

use crate::debts::{Debt, owed_line};
use annex_base::NoMemory;
use p2p_wire::Message;
use run_data::By;
use state_jobs::{Phase, Work};

/// The line of the copy of the job's key that a repository has, or has no more.
fn line_of(work: &Work, repo: u32, there: bool) -> Result<Debt, NoMemory>
    ensures { IfOk result (λ line. line ≡ owed_line (by_job work.now.number) repo there work.now.what.key) }
{
    owed_line(By::Job(work.number), repo, there, &work.what.key)
}

/// The line of the copy that the target of the job's order removed.
fn removed(work: &Work) -> Result<Option<Debt>, NoMemory>
    ensures { IfOk result (λ line. option_to_list line ≡ map (λ peer. owed_line (by_job work.now.number) peer false work.now.what.key) (option_to_list work.now.what.peer)) }
{
    match work.what.peer {
        Some(peer) => Ok(Some(line_of(work, peer, false)?)),
        None => Ok(None),
    }
}

fn told_to(work: &Work, message: &Message) -> Result<Option<Debt>, NoMemory>
    ensures { IfOk result (λ line. option_to_list line ≡ told_to (work_of work.now) (phase_of work.now.phase) message.now) }
{
    match (work.phase, message) {
        (Phase::PutsOffer { peer }, Message::AlreadyHave) => {
            Ok(Some(line_of(work, peer, true)?))
        }
        (Phase::PutsAnswer { peer, .. }, Message::Success) => {
            Ok(Some(line_of(work, peer, true)?))
        }
        (Phase::Orders, Message::Success) => removed(work),
        _ => Ok(None),
    }
}

fn told_line(work: &Work, heard: &Option<Message>) -> Result<Option<Debt>, NoMemory>
    ensures { IfOk result (λ line. option_to_list line ≡ told_line (work_of work.now) heard.now) }
{
    match heard {
        Some(message) => told_to(work, message),
        None => Ok(None),
    }
}

/// The line that the job that talks owes by the message that it took.
pub(crate) fn told_by(job: Option<&Work>, heard: &Option<Message>) -> Result<Option<Debt>, NoMemory>
    ensures { IfOk result (λ line. option_to_list line ≡ told_by (option_map work_of (option_copied job.entry)) heard.now) }
{
    match job {
        Some(work) => told_line(work, heard),
        None => Ok(None),
    }
}
