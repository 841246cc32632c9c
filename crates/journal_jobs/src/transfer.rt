//! Transfers that were refused, behind `refused ` and the word of a move's transfer.
ghost use Rattle.std.specs.Prelude.{◌≡◌, ◌<◌, ◌^◌, length, IfOk, codes};
ghost use Rattle.run_data.specs.declared.job.TransferRefusal.TheVariants as transfers;
ghost use Rattle.journal_reading.specs.Forms.{by_rows, row_in};
ghost use Rattle.journal_reading.specs.Kinds.{failures_form};
ghost use Rattle.journal_jobs.specs.Tables.{transfer_refused, later_transfers, refused_transfers};

use crate::causes::read_failures;
use crate::refusal::read_alone;
use annex_base::NoMemory;
use journal_fields::behind;
use run_data::{Outcome, RepoView, TransferRefusal};
use std::alloc::Global;

/// `2 nosource causes=CAUSES`
fn read_no_source(
    alloc: Global,
    repos: &[RepoView],
    own: u32,
    bytes: &[u8],
) -> Result<Option<Outcome>, NoMemory>
    requires few { length repos.now < 2 ^ 32 }
    ensures { IfOk result (λ o. o ≡ row_in bytes.now (transfer_refused (codes "2 nosource causes=") (failures_form repos.now own) transfers.NoSource)) }
{
    let Some(list) = behind(bytes, b"2 nosource causes=") else {
        return Ok(None);
    };
    let Some(causes) = read_failures(alloc, repos, own, list)? else {
        return Ok(None);
    };
    Ok(Some(Outcome::TransferRefused(TransferRefusal::NoSource { causes })))
}

fn read_later_transfer(bytes: &[u8]) -> Option<Outcome>
    ensures { result ≡ by_rows later_transfers bytes.now }
{
    let busy = Outcome::TransferRefused(TransferRefusal::Busy);
    if let Some(outcome) = read_alone(bytes, b"3 busy", busy) {
        return Some(outcome);
    }
    let closed = Outcome::TransferRefused(TransferRefusal::Closed);
    if let Some(outcome) = read_alone(bytes, b"4 closed", closed) {
        return Some(outcome);
    }
    let rejected = Outcome::TransferRefused(TransferRefusal::Rejected);
    if let Some(outcome) = read_alone(bytes, b"5 rejected", rejected) {
        return Some(outcome);
    }
    let fault = Outcome::TransferRefused(TransferRefusal::StoreFault);
    if let Some(outcome) = read_alone(bytes, b"6 storefault", fault) {
        return Some(outcome);
    }
    let crash = Outcome::TransferRefused(TransferRefusal::Crashed);
    if let Some(outcome) = read_alone(bytes, b"7 crashed", crash) {
        return Some(outcome);
    }
    None
}

/// Why a transfer of repository `own` was refused.
pub(crate) fn read_transfer(
    alloc: Global,
    repos: &[RepoView],
    own: u32,
    bytes: &[u8],
) -> Result<Option<Outcome>, NoMemory>
    requires few { length repos.now < 2 ^ 32 }
    ensures { IfOk result (λ o. o ≡ by_rows (refused_transfers repos.now own) bytes.now) }
{
    let absent = Outcome::TransferRefused(TransferRefusal::NotHere);
    if let Some(outcome) = read_alone(bytes, b"1 nothere", absent) {
        return Ok(Some(outcome));
    }
    if let Some(outcome) = read_no_source(alloc, repos, own, bytes)? {
        return Ok(Some(outcome));
    }
    Ok(read_later_transfer(bytes))
}
