//! The need and the evidence of a drop.

ghost use Rattle.std.specs.Prelude.{◌≡◌, ◌++◌, OnOk};
ghost use Rattle.run_text.specs.Outcomes.{proof_text};

use crate::names::put_names;
use annex_base::put_number;
use run_data::{Proof, RepoView};
use std::alloc::AllocError;

/// Adds the need and the evidence of a drop.
pub(crate) fn put_proof(
    out: &mut Vec<u8>,
    repos: &[RepoView],
    proof: &Proof,
) -> Result<(), AllocError>
    ensures { OnOk result (out.new.items ≡ out.old.items ++ proof_text repos.now proof.now) }
{
    out.extend_from_slice(b"need=")?;
    put_number(out, proof.need.n as u64)?;
    out.push(b',')?;
    put_number(out, proof.need.m as u64)?;
    out.extend_from_slice(b" locked=")?;
    put_names(out, repos, b',', proof.locked.as_slice())?;
    out.extend_from_slice(b" trusted=")?;
    put_names(out, repos, b',', proof.trusted.as_slice())?;
    out.extend_from_slice(b" recent=")?;
    put_names(out, repos, b',', proof.recent.as_slice())?;
    Ok(())
}
