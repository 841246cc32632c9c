//! How a running job ends by a crash of its repository.

ghost use Rattle.std.specs.Prelude.{◌≡◌, ◌||◌, IfOk, reverse};
ghost use Rattle.node_model.specs.Jobs.{is_move};
ghost use Rattle.run_model.specs.Logs.{is_drop};
ghost use Rattle.crashed_jobs.specs.Crashed.{crashed_outcome, is_at_drop};

use crate::drops::{in_drop, is_drop};
use crate::running::Running;
use annex_base::NoMemory;
use run_data::{DropRefusal, Entry, JobKind, Outcome, TransferRefusal};
use std::alloc::Global;

/// How the job ends if its repository crashes now (own); the entries before stand in order.
pub fn crashed_outcome(
    alloc: Global,
    before: &[Entry],
    repo: u32,
    job: &Running<'_>,
) -> Result<Outcome, NoMemory>
    ensures { IfOk result (λ outcome. outcome ≡ crashed_outcome (reverse before.now) repo job.now) }
{
    if is_at_drop(alloc, before, repo, job)? {
        Ok(Outcome::Refused(DropRefusal::Crashed))
    } else {
        Ok(Outcome::TransferRefused(TransferRefusal::Crashed))
    }
}

fn is_at_drop(
    alloc: Global,
    before: &[Entry],
    repo: u32,
    job: &Running<'_>,
) -> Result<bool, NoMemory>
    ensures { IfOk result (λ b. b ≡ is_at_drop (reverse before.now) repo job.now) }
{
    if has_drop(job.what().kind) {
        in_drop(alloc, before, repo, job.number())
    } else {
        Ok(false)
    }
}

/// Whether it is a drop, or a move, which drops once its transfer is done.
fn has_drop(kind: JobKind) -> bool
    ensures { result ≡ (is_drop kind || is_move kind) }
{
    is_drop(kind) || is_move(kind)
}

fn is_move(kind: JobKind) -> bool
    ensures { result ≡ is_move kind }
{
    match kind {
        JobKind::MoveTo | JobKind::MoveFrom => true,
        JobKind::Drop | JobKind::Get | JobKind::Copy => false,
    }
}
