//! Why a drop was refused.

ghost use Rattle.std.specs.Prelude.{◌≡◌, ◌++◌, OnOk, codes};
ghost use Rattle.std.specs.Fmt.{decimal};
ghost use Rattle.run_text.specs.Words.{joined_text};
ghost use Rattle.run_text.specs.Outcomes.{proof_text, cause_text, candidate_text, until_text, denial_text, ordered_text, refusal_text};

use crate::names::put_name;
use crate::proof::put_proof;
use crate::words::{ItemWords, put_joined};
use annex_base::put_number;
use run_data::{CandidateCause, Cause, Denial, DropRefusal, Proof, RepoView};
use std::alloc::AllocError;

/// Adds the number of a drop's refusal, and its reason.
pub(crate) fn put_refusal(
    out: &mut Vec<u8>,
    repos: &[RepoView],
    refusal: &DropRefusal,
) -> Result<(), AllocError>
    ensures { OnOk result (out.new.items ≡ out.old.items ++ refusal_text repos.now refusal.now) }
{
    match refusal {
        DropRefusal::NotPresent => out.extend_from_slice(b"1 notpresent")?,
        DropRefusal::Required { expression } => {
            out.extend_from_slice(b"2 required ")?;
            out.extend_from_slice(expression.bytes())?;
        }
        DropRefusal::Held { until } => {
            out.extend_from_slice(b"3 held until=")?;
            put_until(out, *until)?;
        }
        DropRefusal::Barred { job } => {
            out.extend_from_slice(b"4 barred ")?;
            put_number(out, *job as u64)?;
        }
        DropRefusal::Lacking { proof, causes } => {
            put_lacking(out, repos, proof, causes.as_slice())?
        }
        DropRefusal::Expired { end, clock } => put_expired(out, *end, *clock)?,
        DropRefusal::Denied { answer } => {
            out.extend_from_slice(b"7 denied ")?;
            out.extend_from_slice(denial_word(*answer))?;
        }
        DropRefusal::Lost { ordered } => {
            out.extend_from_slice(b"8 lost ")?;
            out.extend_from_slice(ordered_word(*ordered))?;
        }
        DropRefusal::OldProtocol { version } => {
            out.extend_from_slice(b"9 oldprotocol ")?;
            put_number(out, *version as u64)?;
        }
        DropRefusal::StoreFault => out.extend_from_slice(b"10 storefault")?,
        DropRefusal::Crashed => out.extend_from_slice(b"11 crashed")?,
    }
    Ok(())
}

fn put_lacking(
    out: &mut Vec<u8>,
    repos: &[RepoView],
    proof: &Proof,
    causes: &[CandidateCause],
) -> Result<(), AllocError>
    ensures { OnOk result (out.new.items ≡ out.old.items
        ++ (codes "5 lacking " ++ proof_text repos.now proof.now ++ codes " causes=" ++ joined_text 44 (candidate_text repos.now) causes.now)) }
{
    out.extend_from_slice(b"5 lacking ")?;
    put_proof(out, repos, proof)?;
    out.extend_from_slice(b" causes=")?;
    put_joined(out, b',', &Candidates { repos }, causes)?;
    Ok(())
}

fn put_expired(out: &mut Vec<u8>, end: u64, clock: u64) -> Result<(), AllocError>
    ensures { OnOk result (out.new.items ≡ out.old.items ++ (codes "6 expired " ++ decimal end ++ codes " " ++ decimal clock)) }
{
    out.extend_from_slice(b"6 expired ")?;
    put_number(out, end)?;
    out.push(b' ')?;
    put_number(out, clock)?;
    Ok(())
}

/// Candidates with the causes for which they don't count.
#[derive(Clone, Copy)]
struct Candidates<'r> {
    repos: &'r [RepoView],
}

impl ItemWords<CandidateCause> for Candidates<'_> {
    ghost use Rattle.run_text.specs.Outcomes.{candidate_text};

    ghost word_of = { λ words candidate. candidate_text words.repos.now candidate };

    fn put(&self, out: &mut Vec<u8>, item: &CandidateCause) -> Result<(), AllocError> {
        put_candidate(out, self.repos, *item)
    }
}

fn put_candidate(
    out: &mut Vec<u8>,
    repos: &[RepoView],
    candidate: CandidateCause,
) -> Result<(), AllocError>
    ensures { OnOk result (out.new.items ≡ out.old.items ++ candidate_text repos.now candidate) }
{
    put_name(out, repos, candidate.repo)?;
    out.push(b':')?;
    out.extend_from_slice(cause_word(candidate.cause))?;
    Ok(())
}

fn cause_word(cause: Cause) -> &'static [u8]
    ensures { result.now ≡ cause_text cause }
{
    match cause {
        Cause::Absent => b"absent",
        Cause::Barred => b"barred",
        Cause::Fault => b"fault",
        Cause::Closed => b"closed",
        Cause::Untrusted => b"untrusted",
        Cause::Dead => b"dead",
    }
}

fn put_until(out: &mut Vec<u8>, until: Option<u64>) -> Result<(), AllocError>
    ensures { OnOk result (out.new.items ≡ out.old.items ++ until_text until) }
{
    match until {
        None => out.extend_from_slice(b"open")?,
        Some(end) => put_number(out, end)?,
    }
    Ok(())
}

fn denial_word(answer: Denial) -> &'static [u8]
    ensures { result.now ≡ denial_text answer }
{
    match answer {
        Denial::Late => b"late",
        Denial::Barred => b"barred",
        Denial::Held => b"held",
        Denial::Fault => b"fault",
    }
}

fn ordered_word(ordered: bool) -> &'static [u8]
    ensures { result.now ≡ ordered_text ordered }
{
    if ordered { b"ordered" } else { b"unordered" }
}
