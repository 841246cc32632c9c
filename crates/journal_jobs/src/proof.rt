//! What a drop needs and its evidence, with what stands behind them.
ghost use Rattle.std.specs.Prelude.{◌≡◌, ◌<◌, ◌^◌, length, IfOk};
ghost use Rattle.journal_reading.specs.Kinds.{proof_form};
ghost use Rattle.journal_jobs.specs.Tables.{reading, trusted_form, locked_form};

use annex_base::{Items, NoMemory};
use journal_fields::{behind, cut, read_repo_list, read_small};
use run_data::RepoView;
use std::alloc::Global;

/// The need's two numbers, the locked and the trusted repositories, and what stands behind `recent=`.
pub(crate) type ProofParts<X> = (u32, (u32, (Items<u32>, (Items<u32>, X))));

/// What reads the end of a proof's text, behind `recent=`.
pub(crate) trait ReadsRecent<X> {
    ghost use Rattle.std.specs.Prelude.{◌≡◌, List, ℕ, IfOk};
    ghost use Rattle.std.specs.declared.option.Option.{Option};

    /// What a text is read as.
    ghost end_of: { Self → List ℕ → Option X };

    fn read(&self, alloc: Global, bytes: &[u8]) -> Result<Option<X>, NoMemory>
        ensures { IfOk result (λ o. o ≡ end_of self.now bytes.now) };
}

fn read_trusted<X: Drop, R: ReadsRecent<X>>(
    alloc: Global,
    repos: &[RepoView],
    recent: &R,
    bytes: &[u8],
) -> Result<Option<(Items<u32>, X)>, NoMemory>
    requires few { length repos.now < 2 ^ 32 }
    ensures { IfOk result (λ o. o ≡ (trusted_form repos.now (R.end_of recent.now)).read bytes.now) }
{
    let Some(fields) = behind(bytes, b"trusted=") else {
        return Ok(None);
    };
    let Some((names, after)) = cut(fields, b' ') else {
        return Ok(None);
    };
    let Some(trusted) = read_repo_list(alloc, repos, names)? else {
        return Ok(None);
    };
    let Some(end) = behind(after, b"recent=") else {
        return Ok(None);
    };
    let Some(last) = recent.read(alloc, end)? else {
        return Ok(None);
    };
    Ok(Some((trusted, last)))
}

fn read_locked<X: Drop, R: ReadsRecent<X>>(
    alloc: Global,
    repos: &[RepoView],
    recent: &R,
    bytes: &[u8],
) -> Result<Option<(Items<u32>, (Items<u32>, X))>, NoMemory>
    requires few { length repos.now < 2 ^ 32 }
    ensures { IfOk result (λ o. o ≡ (locked_form repos.now (R.end_of recent.now)).read bytes.now) }
{
    let Some(fields) = behind(bytes, b"locked=") else {
        return Ok(None);
    };
    let Some((names, after)) = cut(fields, b' ') else {
        return Ok(None);
    };
    let Some(locked) = read_repo_list(alloc, repos, names)? else {
        return Ok(None);
    };
    let Some(others) = read_trusted(alloc, repos, recent, after)? else {
        return Ok(None);
    };
    Ok(Some((locked, others)))
}

/// The parts of a proof.
pub(crate) fn read_proof<X: Drop, R: ReadsRecent<X>>(
    alloc: Global,
    repos: &[RepoView],
    recent: &R,
    bytes: &[u8],
) -> Result<Option<ProofParts<X>>, NoMemory>
    requires few { length repos.now < 2 ^ 32 }
    ensures { IfOk result (λ o. o ≡ (proof_form repos.now (reading (R.end_of recent.now))).read bytes.now) }
{
    let Some(need) = behind(bytes, b"need=") else {
        return Ok(None);
    };
    let Some((n, after)) = cut(need, b',') else {
        return Ok(None);
    };
    let Some(n) = read_small(n) else {
        return Ok(None);
    };
    let Some((m, evidence)) = cut(after, b' ') else {
        return Ok(None);
    };
    let Some(m) = read_small(m) else {
        return Ok(None);
    };
    let Some(evidence) = read_locked(alloc, repos, recent, evidence)? else {
        return Ok(None);
    };
    Ok(Some((n, (m, evidence))))
}
