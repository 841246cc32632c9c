//! Why a transfer was refused.

ghost use Rattle.std.specs.Prelude.{◌≡◌, ◌++◌, OnOk, codes};
ghost use Rattle.run_text.specs.Words.{joined_text};
ghost use Rattle.run_text.specs.Outcomes.{source_text, failure_text, transfer_text};

use crate::names::put_name;
use crate::words::{ItemWords, put_joined};
use run_data::{RepoView, SourceCause, SourceFailure, TransferRefusal};
use std::alloc::AllocError;

/// Adds the number of a transfer's refusal, and its reason.
pub(crate) fn put_transfer(
    out: &mut Vec<u8>,
    repos: &[RepoView],
    refusal: &TransferRefusal,
) -> Result<(), AllocError>
    ensures { OnOk result (out.new.items ≡ out.old.items ++ transfer_text repos.now refusal.now) }
{
    match refusal {
        TransferRefusal::NotHere => out.extend_from_slice(b"1 nothere")?,
        TransferRefusal::NoSource { causes } => put_no_source(out, repos, causes.as_slice())?,
        TransferRefusal::Busy => out.extend_from_slice(b"3 busy")?,
        TransferRefusal::Closed => out.extend_from_slice(b"4 closed")?,
        TransferRefusal::Rejected => out.extend_from_slice(b"5 rejected")?,
        TransferRefusal::StoreFault => out.extend_from_slice(b"6 storefault")?,
        TransferRefusal::Crashed => out.extend_from_slice(b"7 crashed")?,
    }
    Ok(())
}

fn put_no_source(
    out: &mut Vec<u8>,
    repos: &[RepoView],
    causes: &[SourceFailure],
) -> Result<(), AllocError>
    ensures { OnOk result (out.new.items ≡ out.old.items ++ (codes "2 nosource causes=" ++ joined_text 44 (failure_text repos.now) causes.now)) }
{
    out.extend_from_slice(b"2 nosource causes=")?;
    put_joined(out, b',', &Failures { repos }, causes)?;
    Ok(())
}

/// Sources with the causes for which they failed.
#[derive(Clone, Copy)]
struct Failures<'r> {
    repos: &'r [RepoView],
}

impl ItemWords<SourceFailure> for Failures<'_> {
    ghost use Rattle.run_text.specs.Outcomes.{failure_text};

    ghost word_of = { λ words failure. failure_text words.repos.now failure };

    fn put(&self, out: &mut Vec<u8>, item: &SourceFailure) -> Result<(), AllocError> {
        put_failure(out, self.repos, *item)
    }
}

fn put_failure(
    out: &mut Vec<u8>,
    repos: &[RepoView],
    failure: SourceFailure,
) -> Result<(), AllocError>
    ensures { OnOk result (out.new.items ≡ out.old.items ++ failure_text repos.now failure) }
{
    put_name(out, repos, failure.repo)?;
    out.push(b':')?;
    out.extend_from_slice(source_word(failure.cause))?;
    Ok(())
}

fn source_word(cause: SourceCause) -> &'static [u8]
    ensures { result.now ≡ source_text cause }
{
    match cause {
        SourceCause::Absent => b"absent",
        SourceCause::Closed => b"closed",
        SourceCause::Wrong => b"wrong",
        SourceCause::Invalid => b"invalid",
    }
}
