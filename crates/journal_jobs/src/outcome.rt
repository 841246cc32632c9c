//! How a job ended.
ghost use Rattle.std.specs.Prelude.{◌≡◌, ◌<◌, ◌^◌, length, IfOk};
ghost use Rattle.journal_reading.specs.Kinds.{outcome_form};
ghost use Rattle.journal_jobs.specs.Tables.{refused_at, ended_at};

use crate::done::read_done;
use crate::refusal::read_refusal;
use crate::transfer::read_transfer;
use annex_base::NoMemory;
use journal_fields::behind;
use run_data::{Outcome, RepoView};
use std::alloc::Global;

/// A refusal of a drop, or, behind the word, one of a transfer.
fn read_refused(
    alloc: Global,
    repos: &[RepoView],
    own: u32,
    word: &[u8],
    bytes: &[u8],
) -> Result<Option<Outcome>, NoMemory>
    requires few { length repos.now < 2 ^ 32 }
    ensures { IfOk result (λ o. o ≡ refused_at repos.now own word.now bytes.now) }
{
    if let Some(outcome) = read_refusal(alloc, repos, own, bytes)? {
        return Ok(Some(outcome));
    }
    match behind(bytes, word) {
        None => Ok(None),
        Some(rest) => read_transfer(alloc, repos, own, rest),
    }
}

fn read_ended(
    alloc: Global,
    repos: &[RepoView],
    own: u32,
    word: &[u8],
    bytes: &[u8],
) -> Result<Option<Outcome>, NoMemory>
    requires few { length repos.now < 2 ^ 32 }
    ensures { IfOk result (λ o. o ≡ ended_at repos.now own word.now bytes.now) }
{
    if let Some(outcome) = read_done(alloc, repos, bytes)? {
        return Ok(Some(outcome));
    }
    match behind(bytes, b"refused ") {
        None => Ok(None),
        Some(rest) => read_refused(alloc, repos, own, word, rest),
    }
}

/// How a job of repository `own` ended, as a journal says it behind the job's number and a space (own). The word is the
/// one that names the transfer of a move; of another job it is empty.
pub fn read_outcome(
    alloc: Global,
    repos: &[RepoView],
    own: u32,
    word: &[u8],
    bytes: &[u8],
) -> Result<Option<Outcome>, NoMemory>
    requires few { length repos.now < 2 ^ 32 }
    ensures { IfOk result (λ o. o ≡ (outcome_form repos.now own word.now).read bytes.now) }
{
    read_ended(alloc, repos, own, word, bytes)
}
