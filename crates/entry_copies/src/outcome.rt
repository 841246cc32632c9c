//! Copies of outcomes, and of what stands in them.
ghost use Rattle.std.specs.Prelude.{◌≡◌, IfOk};

use annex_base::NoMemory;
use run_data::{DropRefusal, Outcome, Proof, TransferRefusal};

fn proof_copy(proof: &Proof) -> Result<Proof, NoMemory>
    ensures { IfOk result (λ copy. copy ≡ proof.now) }
{
    let locked = proof.locked.clone()?;
    let trusted = proof.trusted.clone()?;
    let recent = proof.recent.clone()?;
    Ok(Proof {
        need: proof.need,
        locked,
        trusted,
        recent,
    })
}

fn drop_refusal_copy(refusal: &DropRefusal) -> Result<DropRefusal, NoMemory>
    ensures { IfOk result (λ copy. copy ≡ refusal.now) }
{
    match refusal {
        DropRefusal::NotPresent => Ok(DropRefusal::NotPresent),
        DropRefusal::Required { expression } => Ok(DropRefusal::Required {
            expression: expression.clone()?,
        }),
        DropRefusal::Held { until } => Ok(DropRefusal::Held { until: *until }),
        DropRefusal::Barred { job } => Ok(DropRefusal::Barred { job: *job }),
        DropRefusal::Lacking { proof, causes } => {
            let causes = causes.clone()?;
            Ok(DropRefusal::Lacking {
                proof: proof_copy(proof)?,
                causes,
            })
        }
        DropRefusal::Expired { end, clock } => Ok(DropRefusal::Expired {
            end: *end,
            clock: *clock,
        }),
        DropRefusal::Denied { answer } => Ok(DropRefusal::Denied { answer: *answer }),
        DropRefusal::Lost { ordered } => Ok(DropRefusal::Lost { ordered: *ordered }),
        DropRefusal::OldProtocol { version } => {
            Ok(DropRefusal::OldProtocol { version: *version })
        }
        DropRefusal::StoreFault => Ok(DropRefusal::StoreFault),
        DropRefusal::Crashed => Ok(DropRefusal::Crashed),
    }
}

fn transfer_refusal_copy(refusal: &TransferRefusal) -> Result<TransferRefusal, NoMemory>
    ensures { IfOk result (λ copy. copy ≡ refusal.now) }
{
    match refusal {
        TransferRefusal::NotHere => Ok(TransferRefusal::NotHere),
        TransferRefusal::NoSource { causes } => Ok(TransferRefusal::NoSource {
            causes: causes.clone()?,
        }),
        TransferRefusal::Busy => Ok(TransferRefusal::Busy),
        TransferRefusal::Closed => Ok(TransferRefusal::Closed),
        TransferRefusal::Rejected => Ok(TransferRefusal::Rejected),
        TransferRefusal::StoreFault => Ok(TransferRefusal::StoreFault),
        TransferRefusal::Crashed => Ok(TransferRefusal::Crashed),
    }
}

/// An equal outcome.
pub(crate) fn outcome_copy(outcome: &Outcome) -> Result<Outcome, NoMemory>
    ensures { IfOk result (λ copy. copy ≡ outcome.now) }
{
    match outcome {
        Outcome::Dropped(proof) => Ok(Outcome::Dropped(proof_copy(proof)?)),
        Outcome::DroppedAbsent(proof) => Ok(Outcome::DroppedAbsent(proof_copy(proof)?)),
        Outcome::Got { source, start } => Ok(Outcome::Got {
            source: *source,
            start: *start,
        }),
        Outcome::Copied { start } => Ok(Outcome::Copied { start: *start }),
        Outcome::Refused(refusal) => Ok(Outcome::Refused(drop_refusal_copy(refusal)?)),
        Outcome::TransferRefused(refusal) => {
            Ok(Outcome::TransferRefused(transfer_refusal_copy(refusal)?))
        }
    }
}
