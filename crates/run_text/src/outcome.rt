//! How a job ended.

ghost use Rattle.std.specs.Prelude.{◌≡◌, ◌++◌, IfOk, OnOk, OnErr, codes, option_copied};
ghost use Rattle.run_text.specs.Outcomes.{transfer_word, transfer_word_of, outcome_text};
ghost use Rattle.run_text.specs.Names.{name_or_dash};
ghost use Rattle.run_text.specs.Words.{number_or_dash};

use crate::names::put_name_or_dash;
use crate::proof::put_proof;
use crate::refusal::put_refusal;
use crate::transfer::put_transfer;
use crate::words::put_number_or_dash;
use run_data::{Job, JobKind, Outcome, RepoView};
use std::alloc::{AllocError, Global};

/// Adds what follows the job in the line of its end; without memory it adds nothing.
pub fn put_outcome(
    out: &mut Vec<u8>,
    repos: &[RepoView],
    job: Option<&Job>,
    outcome: &Outcome,
) -> Result<(), AllocError>
    ensures ok { OnOk result (out.new.items ≡ out.old.items ++ outcome_text repos.now (option_copied job.entry) outcome.now) }
    ensures err { OnErr result (out.new.items ≡ out.old.items) }
{
    let text = outcome_text(*out.allocator(), repos, job, outcome)?;
    out.extend_from_slice(&text)
}

fn outcome_text(
    alloc: Global,
    repos: &[RepoView],
    job: Option<&Job>,
    outcome: &Outcome,
) -> Result<Vec<u8>, AllocError>
    ensures { IfOk result (λ text. text.items ≡ outcome_text repos.now (option_copied job.entry) outcome.now) }
{
    let mut text = Vec::new(alloc);
    match outcome {
        Outcome::Dropped(proof) => {
            text.extend_from_slice(b" done ")?;
            put_proof(&mut text, repos, proof)?;
        }
        Outcome::DroppedAbsent(proof) => {
            text.extend_from_slice(b" done absent ")?;
            put_proof(&mut text, repos, proof)?;
        }
        Outcome::Got { source, start } => put_got(&mut text, repos, *source, *start)?,
        Outcome::Copied { start } => {
            text.extend_from_slice(b" done start=")?;
            put_number_or_dash(&mut text, *start)?;
        }
        Outcome::Refused(refusal) => {
            text.extend_from_slice(b" refused ")?;
            put_refusal(&mut text, repos, refusal)?;
        }
        Outcome::TransferRefused(refusal) => {
            text.extend_from_slice(b" refused ")?;
            text.extend_from_slice(word_of_transfer(job))?;
            put_transfer(&mut text, repos, refusal)?;
        }
    }
    Ok(text)
}

fn put_got(
    out: &mut Vec<u8>,
    repos: &[RepoView],
    source: Option<u32>,
    start: Option<u64>,
) -> Result<(), AllocError>
    ensures { OnOk result (out.new.items ≡ out.old.items ++ (codes " done source=" ++ name_or_dash repos.now source ++ codes " start=" ++ number_or_dash start)) }
{
    out.extend_from_slice(b" done source=")?;
    put_name_or_dash(out, repos, source)?;
    out.extend_from_slice(b" start=")?;
    put_number_or_dash(out, start)?;
    Ok(())
}

/// Of a move, the word that names the transfer.
fn word_of_transfer(job: Option<&Job>) -> &'static [u8]
    ensures { result.now ≡ transfer_word_of (option_copied job.entry) }
{
    match job {
        None => b"",
        Some(job) => kind_word_of_transfer(job.kind),
    }
}

fn kind_word_of_transfer(kind: JobKind) -> &'static [u8]
    ensures { result.now ≡ transfer_word kind }
{
    match kind {
        JobKind::Drop | JobKind::Get | JobKind::Copy => b"",
        JobKind::MoveTo | JobKind::MoveFrom => b"transfer ",
    }
}
