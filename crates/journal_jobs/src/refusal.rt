//! Drops that were refused, behind `refused `.
ghost use Rattle.std.specs.Prelude.{◌≡◌, ◌<◌, ◌^◌, length, IfOk, codes};
ghost use Rattle.run_data.specs.declared.job.DropRefusal.TheVariants as refusals;
ghost use Rattle.annex_base.specs.Lines.{is_one_line};
ghost use Rattle.journal_reading.specs.Forms.{by_rows, nothing, passing, row, row_in};
ghost use Rattle.journal_reading.specs.Fields.{small, a_byte};
ghost use Rattle.journal_reading.specs.Kinds.{a_proof, until_form, lacking_form, expired_form, denial_form, ordered_form};
ghost use Rattle.journal_jobs.specs.Tables.{refused, causes_form, last_refusals, later_refusals, refusal_rows};

use crate::causes::read_candidates;
use crate::proof::{ProofParts, ReadsRecent, read_proof};
use crate::words::{read_denial, read_ordered, read_until};
use annex_base::{Items, NoMemory};
use drop_proof::Need;
use journal_fields::{
    behind, cut, read_byte, read_large, read_line, read_nothing, read_repo_list, read_small,
};
use run_data::{CandidateCause, DropRefusal, Outcome, Proof, RepoView};
use std::alloc::Global;

/// An outcome whose text is its mark.
pub(crate) fn read_alone(bytes: &[u8], mark: &[u8], outcome: Outcome) -> Option<Outcome>
    ensures { result ≡ row_in bytes.now (row mark.now nothing (λ x. outcome)) }
{
    let rest = behind(bytes, mark)?;
    read_nothing(rest)?;
    Some(outcome)
}

/// `2 required EXPRESSION`
fn read_required(alloc: Global, bytes: &[u8]) -> Result<Option<Outcome>, NoMemory>
    ensures { IfOk result (λ o. o ≡ row_in bytes.now (refused (codes "2 required ") (passing is_one_line) refusals.Required)) }
{
    let Some(text) = behind(bytes, b"2 required ") else {
        return Ok(None);
    };
    let Some(expression) = read_line(alloc, text)? else {
        return Ok(None);
    };
    Ok(Some(Outcome::Refused(DropRefusal::Required { expression })))
}

/// `3 held until=TIME`
fn read_held(bytes: &[u8]) -> Option<Outcome>
    ensures { result ≡ row_in bytes.now (refused (codes "3 held until=") until_form refusals.Held) }
{
    let word = behind(bytes, b"3 held until=")?;
    let until = read_until(word)?;
    Some(Outcome::Refused(DropRefusal::Held { until }))
}

/// `4 barred JOB`
fn read_barred(bytes: &[u8]) -> Option<Outcome>
    ensures { result ≡ row_in bytes.now (refused (codes "4 barred ") small refusals.Barred) }
{
    let word = behind(bytes, b"4 barred ")?;
    let job = read_small(word)?;
    Some(Outcome::Refused(DropRefusal::Barred { job }))
}

/// The recent repositories and the causes, which end the text.
#[derive(Drop)]
struct RecentAndCauses<'r> {
    repos: &'r [RepoView],
    own: u32,
    ghost few: { length repos.now < 2 ^ 32 },
}

impl ReadsRecent<(Items<u32>, Items<CandidateCause>)> for RecentAndCauses<'_> {
    ghost use Rattle.journal_jobs.specs.Tables.{causes_form};

    ghost end_of = { λ recent bytes. (causes_form recent.repos.now recent.own).read bytes };

    fn read(
        &self,
        alloc: Global,
        bytes: &[u8],
    ) -> Result<Option<(Items<u32>, Items<CandidateCause>)>, NoMemory> {
        read_recent_and_causes(alloc, self.repos, self.own, bytes)
    }
}

fn read_recent_and_causes(
    alloc: Global,
    repos: &[RepoView],
    own: u32,
    bytes: &[u8],
) -> Result<Option<(Items<u32>, Items<CandidateCause>)>, NoMemory>
    requires few { length repos.now < 2 ^ 32 }
    ensures { IfOk result (λ o. o ≡ (causes_form repos.now own).read bytes.now) }
{
    let Some((names, after)) = cut(bytes, b' ') else {
        return Ok(None);
    };
    let Some(recent) = read_repo_list(alloc, repos, names)? else {
        return Ok(None);
    };
    let Some(list) = behind(after, b"causes=") else {
        return Ok(None);
    };
    let Some(causes) = read_candidates(alloc, repos, own, list)? else {
        return Ok(None);
    };
    Ok(Some((recent, causes)))
}

fn lacking_of(parts: ProofParts<(Items<u32>, Items<CandidateCause>)>) -> DropRefusal
    ensures { result ≡ refusals.Lacking (a_proof (λ y. y.0) parts) parts.1.1.1.1.1 }
{
    let (n, (m, (locked, (trusted, (recent, causes))))) = parts;
    let proof = Proof {
        need: Need { n, m },
        locked,
        trusted,
        recent,
    };
    DropRefusal::Lacking { proof, causes }
}

/// `5 lacking PROOF causes=CAUSES`
fn read_lacking(
    alloc: Global,
    repos: &[RepoView],
    own: u32,
    bytes: &[u8],
) -> Result<Option<Outcome>, NoMemory>
    requires few { length repos.now < 2 ^ 32 }
    ensures { IfOk result (λ o. o ≡ row_in bytes.now (refused (codes "5 lacking ") (lacking_form repos.now own) (λ x. refusals.Lacking (a_proof (λ y. y.0) x) x.1.1.1.1.1))) }
{
    let Some(text) = behind(bytes, b"5 lacking ") else {
        return Ok(None);
    };
    let Some(parts) = read_proof(alloc, repos, &RecentAndCauses { repos, own }, text)? else {
        return Ok(None);
    };
    Ok(Some(Outcome::Refused(lacking_of(parts))))
}

/// `6 expired END CLOCK`
fn read_expired(bytes: &[u8]) -> Option<Outcome>
    ensures { result ≡ row_in bytes.now (refused (codes "6 expired ") expired_form (λ x. refusals.Expired x.0 x.1)) }
{
    let words = behind(bytes, b"6 expired ")?;
    let (end, clock) = cut(words, b' ')?;
    let end = read_large(end)?;
    let clock = read_large(clock)?;
    Some(Outcome::Refused(DropRefusal::Expired { end, clock }))
}

/// `7 denied ANSWER`
fn read_denied(bytes: &[u8]) -> Option<Outcome>
    ensures { result ≡ row_in bytes.now (refused (codes "7 denied ") denial_form refusals.Denied) }
{
    let word = behind(bytes, b"7 denied ")?;
    let answer = read_denial(word)?;
    Some(Outcome::Refused(DropRefusal::Denied { answer }))
}

/// `8 lost ORDERED`
fn read_lost(bytes: &[u8]) -> Option<Outcome>
    ensures { result ≡ row_in bytes.now (refused (codes "8 lost ") ordered_form refusals.Lost) }
{
    let word = behind(bytes, b"8 lost ")?;
    let ordered = read_ordered(word)?;
    Some(Outcome::Refused(DropRefusal::Lost { ordered }))
}

/// `9 oldprotocol VERSION`
fn read_old_protocol(bytes: &[u8]) -> Option<Outcome>
    ensures { result ≡ row_in bytes.now (refused (codes "9 oldprotocol ") a_byte refusals.OldProtocol) }
{
    let word = behind(bytes, b"9 oldprotocol ")?;
    let version = read_byte(word)?;
    Some(Outcome::Refused(DropRefusal::OldProtocol { version }))
}

fn read_last_refusal(bytes: &[u8]) -> Option<Outcome>
    ensures { result ≡ by_rows last_refusals bytes.now }
{
    if let Some(outcome) = read_lost(bytes) {
        return Some(outcome);
    }
    if let Some(outcome) = read_old_protocol(bytes) {
        return Some(outcome);
    }
    let fault = Outcome::Refused(DropRefusal::StoreFault);
    if let Some(outcome) = read_alone(bytes, b"10 storefault", fault) {
        return Some(outcome);
    }
    let crash = Outcome::Refused(DropRefusal::Crashed);
    if let Some(outcome) = read_alone(bytes, b"11 crashed", crash) {
        return Some(outcome);
    }
    None
}

fn read_later_refusal(
    alloc: Global,
    repos: &[RepoView],
    own: u32,
    bytes: &[u8],
) -> Result<Option<Outcome>, NoMemory>
    requires few { length repos.now < 2 ^ 32 }
    ensures { IfOk result (λ o. o ≡ by_rows (later_refusals repos.now own) bytes.now) }
{
    if let Some(outcome) = read_lacking(alloc, repos, own, bytes)? {
        return Ok(Some(outcome));
    }
    if let Some(outcome) = read_expired(bytes) {
        return Ok(Some(outcome));
    }
    if let Some(outcome) = read_denied(bytes) {
        return Ok(Some(outcome));
    }
    Ok(read_last_refusal(bytes))
}

/// Why a drop of repository `own` was refused.
pub(crate) fn read_refusal(
    alloc: Global,
    repos: &[RepoView],
    own: u32,
    bytes: &[u8],
) -> Result<Option<Outcome>, NoMemory>
    requires few { length repos.now < 2 ^ 32 }
    ensures { IfOk result (λ o. o ≡ by_rows (refusal_rows repos.now own) bytes.now) }
{
    let absent = Outcome::Refused(DropRefusal::NotPresent);
    if let Some(outcome) = read_alone(bytes, b"1 notpresent", absent) {
        return Ok(Some(outcome));
    }
    if let Some(outcome) = read_required(alloc, bytes)? {
        return Ok(Some(outcome));
    }
    if let Some(outcome) = read_held(bytes) {
        return Ok(Some(outcome));
    }
    if let Some(outcome) = read_barred(bytes) {
        return Ok(Some(outcome));
    }
    read_later_refusal(alloc, repos, own, bytes)
}
