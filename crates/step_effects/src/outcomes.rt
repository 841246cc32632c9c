//! Sameness of the outcomes of jobs.
ghost use Rattle.std.specs.Prelude.{◌≡◌};
ghost use Rattle.std.specs.Cmp.Lexicographic.{pointwise};
ghost use Rattle.std.specs.Option.{option_copied};
ghost use Rattle.run_data.specs.declared.entry.EntryKind.TheVariants.{End};
ghost use Rattle.run_data.specs.declared.job.DropRefusal.TheVariants as refusals;
ghost use Rattle.run_data.specs.declared.job.Outcome.{Outcome};
ghost use Rattle.run_data.specs.declared.job.Outcome.TheVariants as outcomes;
ghost use Rattle.run_data.specs.declared.job.TransferRefusal.TheVariants as transfers;
ghost use Rattle.step_judging.specs.Same.{same_candidate, same_denial, same_failure, same_kind, same_number, same_outcome, same_proof, same_refusal, same_transfer};
ghost use Rattle.step_effects.specs.Outcomes.{outcome_told};

use crate::names::{same_bool, same_need, same_number, same_numbers};
use annex_base::Text;
use run_data::{
    CandidateCause, Denial, DropRefusal, EntryKind, Outcome, Proof, SourceFailure, TransferRefusal,
};

/// The outcome with which the job of this number ends, if this is its end.
pub fn ended(kind: &EntryKind, job: u32) -> Option<&Outcome>
    ensures { (outcome : Outcome) → same_kind (End job outcome) kind.now ≡ outcome_told outcome (option_copied result) }
{
    match kind {
        EntryKind::End {
            job: number,
            outcome,
        } => { if job == *number { Some(outcome) } else { None } }
        _ => None,
    }
}

fn same_u64(one: Option<u64>, other: Option<u64>) -> bool
    ensures { result ≡ same_number one other }
{
    match (one, other) {
        (Some(one), Some(other)) => one == other,
        (None, None) => true,
        _ => false,
    }
}

pub fn same_proof(one: &Proof, other: &Proof) -> bool
    ensures { result ≡ same_proof one.now other.now }
{
    same_need(one.need, other.need)
        && same_numbers(one.locked.as_slice(), other.locked.as_slice())
        && same_numbers(one.trusted.as_slice(), other.trusted.as_slice())
        && same_numbers(one.recent.as_slice(), other.recent.as_slice())
}

fn same_denial(one: Denial, other: Denial) -> bool
    ensures { result ≡ same_denial one other }
{
    match one {
        Denial::Late => matches!(other, Denial::Late),
        Denial::Barred => matches!(other, Denial::Barred),
        Denial::Held => matches!(other, Denial::Held),
        Denial::Fault => matches!(other, Denial::Fault),
    }
}

/// Candidates and why they gave no evidence, in the same order.
pub fn same_candidates(one: &[CandidateCause], other: &[CandidateCause]) -> bool
    ensures { result ≡ pointwise same_candidate one.now other.now }
{
    one == other
}

/// Peers and why they gave a get nothing, in the same order.
pub fn same_failures(one: &[SourceFailure], other: &[SourceFailure]) -> bool
    ensures { result ≡ pointwise same_failure one.now other.now }
{
    one == other
}

fn is_required(refusal: &DropRefusal, expression: &Text) -> bool
    ensures { result ≡ same_refusal (refusals.Required expression.now) refusal.now }
{
    match refusal {
        DropRefusal::Required { expression: other } => *expression == *other,
        _ => false,
    }
}

fn is_held(refusal: &DropRefusal, until: Option<u64>) -> bool
    ensures { result ≡ same_refusal (refusals.Held until) refusal.now }
{
    match refusal {
        DropRefusal::Held { until: other } => same_u64(until, *other),
        _ => false,
    }
}

fn is_barred(refusal: &DropRefusal, job: u32) -> bool
    ensures { result ≡ same_refusal (refusals.Barred job) refusal.now }
{
    match refusal {
        DropRefusal::Barred { job: other } => job == *other,
        _ => false,
    }
}

fn is_lacking(refusal: &DropRefusal, proof: &Proof, causes: &[CandidateCause]) -> bool
    ensures { result ≡ same_refusal (refusals.Lacking proof.now causes.now) refusal.now }
{
    match refusal {
        DropRefusal::Lacking {
            proof: other,
            causes: listed,
        } => same_proof(proof, other) && same_candidates(causes, listed.as_slice()),
        _ => false,
    }
}

fn is_expired(refusal: &DropRefusal, end: u64, clock: u64) -> bool
    ensures { result ≡ same_refusal (refusals.Expired end clock) refusal.now }
{
    match refusal {
        DropRefusal::Expired {
            end: other,
            clock: time,
        } => end == *other && clock == *time,
        _ => false,
    }
}

fn is_denied(refusal: &DropRefusal, answer: Denial) -> bool
    ensures { result ≡ same_refusal (refusals.Denied answer) refusal.now }
{
    match refusal {
        DropRefusal::Denied { answer: other } => same_denial(answer, *other),
        _ => false,
    }
}

fn is_lost(refusal: &DropRefusal, ordered: bool) -> bool
    ensures { result ≡ same_refusal (refusals.Lost ordered) refusal.now }
{
    match refusal {
        DropRefusal::Lost { ordered: other } => same_bool(ordered, *other),
        _ => false,
    }
}

fn is_old(refusal: &DropRefusal, version: u8) -> bool
    ensures { result ≡ same_refusal (refusals.OldProtocol version) refusal.now }
{
    match refusal {
        DropRefusal::OldProtocol { version: other } => version == *other,
        _ => false,
    }
}

pub fn same_refusal(one: &DropRefusal, other: &DropRefusal) -> bool
    ensures { result ≡ same_refusal one.now other.now }
{
    match one {
        DropRefusal::NotPresent => matches!(other, DropRefusal::NotPresent),
        DropRefusal::Required { expression } => is_required(other, expression),
        DropRefusal::Held { until } => is_held(other, *until),
        DropRefusal::Barred { job } => is_barred(other, *job),
        DropRefusal::Lacking { proof, causes } => is_lacking(other, proof, causes.as_slice()),
        DropRefusal::Expired { end, clock } => is_expired(other, *end, *clock),
        DropRefusal::Denied { answer } => is_denied(other, *answer),
        DropRefusal::Lost { ordered } => is_lost(other, *ordered),
        DropRefusal::OldProtocol { version } => is_old(other, *version),
        DropRefusal::StoreFault => matches!(other, DropRefusal::StoreFault),
        DropRefusal::Crashed => matches!(other, DropRefusal::Crashed),
    }
}

fn has_no_source(refusal: &TransferRefusal, causes: &[SourceFailure]) -> bool
    ensures { result ≡ same_transfer (transfers.NoSource causes.now) refusal.now }
{
    match refusal {
        TransferRefusal::NoSource { causes: other } => same_failures(causes, other.as_slice()),
        _ => false,
    }
}

pub fn same_transfer(one: &TransferRefusal, other: &TransferRefusal) -> bool
    ensures { result ≡ same_transfer one.now other.now }
{
    match one {
        TransferRefusal::NotHere => matches!(other, TransferRefusal::NotHere),
        TransferRefusal::NoSource { causes } => has_no_source(other, causes.as_slice()),
        TransferRefusal::Busy => matches!(other, TransferRefusal::Busy),
        TransferRefusal::Closed => matches!(other, TransferRefusal::Closed),
        TransferRefusal::Rejected => matches!(other, TransferRefusal::Rejected),
        TransferRefusal::StoreFault => matches!(other, TransferRefusal::StoreFault),
        TransferRefusal::Crashed => matches!(other, TransferRefusal::Crashed),
    }
}

fn is_dropped(outcome: &Outcome, proof: &Proof) -> bool
    ensures { result ≡ same_outcome (outcomes.Dropped proof.now) outcome.now }
{
    match outcome {
        Outcome::Dropped(other) => same_proof(proof, other),
        _ => false,
    }
}

fn is_dropped_absent(outcome: &Outcome, proof: &Proof) -> bool
    ensures { result ≡ same_outcome (outcomes.DroppedAbsent proof.now) outcome.now }
{
    match outcome {
        Outcome::DroppedAbsent(other) => same_proof(proof, other),
        _ => false,
    }
}

fn is_got(outcome: &Outcome, source: Option<u32>, start: Option<u64>) -> bool
    ensures { result ≡ same_outcome (outcomes.Got source start) outcome.now }
{
    match outcome {
        Outcome::Got {
            source: peer,
            start: place,
        } => same_number(source, *peer) && same_u64(start, *place),
        _ => false,
    }
}

fn is_copied(outcome: &Outcome, start: Option<u64>) -> bool
    ensures { result ≡ same_outcome (outcomes.Copied start) outcome.now }
{
    match outcome {
        Outcome::Copied { start: other } => same_u64(start, *other),
        _ => false,
    }
}

fn is_refused(outcome: &Outcome, refusal: &DropRefusal) -> bool
    ensures { result ≡ same_outcome (outcomes.Refused refusal.now) outcome.now }
{
    match outcome {
        Outcome::Refused(other) => same_refusal(refusal, other),
        _ => false,
    }
}

fn is_transfer_refused(outcome: &Outcome, refusal: &TransferRefusal) -> bool
    ensures { result ≡ same_outcome (outcomes.TransferRefused refusal.now) outcome.now }
{
    match outcome {
        Outcome::TransferRefused(other) => same_transfer(refusal, other),
        _ => false,
    }
}

pub fn same_outcome(one: &Outcome, other: &Outcome) -> bool
    ensures { result ≡ same_outcome one.now other.now }
{
    match one {
        Outcome::Dropped(proof) => is_dropped(other, proof),
        Outcome::DroppedAbsent(proof) => is_dropped_absent(other, proof),
        Outcome::Got { source, start } => is_got(other, *source, *start),
        Outcome::Copied { start } => is_copied(other, *start),
        Outcome::Refused(refusal) => is_refused(other, refusal),
        Outcome::TransferRefused(refusal) => is_transfer_refused(other, refusal),
    }
}
