//! Jobs that did what they were to do.
ghost use Rattle.std.specs.Prelude.{◌≡◌, ◌<◌, ◌^◌, length, IfOk, codes};
ghost use Rattle.run_data.specs.declared.job.Outcome.TheVariants as outcomes;
ghost use Rattle.journal_reading.specs.Forms.{by_rows, or_dash, row, row_in};
ghost use Rattle.journal_reading.specs.Fields.{large, repo_list};
ghost use Rattle.journal_reading.specs.Kinds.{a_proof, done_rows, got_form, proof_form};

use crate::proof::{ProofParts, ReadsRecent, read_proof};
use annex_base::{Items, NoMemory};
use drop_proof::Need;
use journal_fields::{behind, cut, read_large_or_dash, read_repo_list, read_repo_or_dash};
use run_data::{Outcome, Proof, RepoView};
use std::alloc::Global;

/// The recent repositories, which end the text.
#[derive(Drop)]
struct RecentNames<'r> {
    repos: &'r [RepoView],
    ghost few: { length repos.now < 2 ^ 32 },
}

impl ReadsRecent<Items<u32>> for RecentNames<'_> {
    ghost use Rattle.journal_reading.specs.Fields.{repo_list};

    ghost end_of = { λ names bytes. (repo_list names.repos.now).read bytes };

    fn read(&self, alloc: Global, bytes: &[u8]) -> Result<Option<Items<u32>>, NoMemory> {
        read_repo_list(alloc, self.repos, bytes)
    }
}

fn proof_of(parts: ProofParts<Items<u32>>) -> Proof
    ensures { result ≡ a_proof (λ l. l) parts }
{
    let (n, (m, (locked, (trusted, recent)))) = parts;
    Proof {
        need: Need { n, m },
        locked,
        trusted,
        recent,
    }
}

/// `done PROOF`
fn read_dropped(
    alloc: Global,
    repos: &[RepoView],
    bytes: &[u8],
) -> Result<Option<Outcome>, NoMemory>
    requires few { length repos.now < 2 ^ 32 }
    ensures { IfOk result (λ o. o ≡ row_in bytes.now (row (codes "done ") (proof_form repos.now (repo_list repos.now)) (λ x. outcomes.Dropped (a_proof (λ l. l) x)))) }
{
    let Some(text) = behind(bytes, b"done ") else {
        return Ok(None);
    };
    let Some(parts) = read_proof(alloc, repos, &RecentNames { repos }, text)? else {
        return Ok(None);
    };
    Ok(Some(Outcome::Dropped(proof_of(parts))))
}

/// `done absent PROOF`
fn read_dropped_absent(
    alloc: Global,
    repos: &[RepoView],
    bytes: &[u8],
) -> Result<Option<Outcome>, NoMemory>
    requires few { length repos.now < 2 ^ 32 }
    ensures { IfOk result (λ o. o ≡ row_in bytes.now (row (codes "done absent ") (proof_form repos.now (repo_list repos.now)) (λ x. outcomes.DroppedAbsent (a_proof (λ l. l) x)))) }
{
    let Some(text) = behind(bytes, b"done absent ") else {
        return Ok(None);
    };
    let Some(parts) = read_proof(alloc, repos, &RecentNames { repos }, text)? else {
        return Ok(None);
    };
    Ok(Some(Outcome::DroppedAbsent(proof_of(parts))))
}

/// `done source=NAME start=OFFSET`
fn read_got(repos: &[RepoView], bytes: &[u8]) -> Option<Outcome>
    requires few { length repos.now < 2 ^ 32 }
    ensures { result ≡ row_in bytes.now (row (codes "done source=") (got_form repos.now) (λ x. outcomes.Got x.0 x.1)) }
{
    let fields = behind(bytes, b"done source=")?;
    let (name, after) = cut(fields, b' ')?;
    let source = read_repo_or_dash(repos, name)?;
    let offset = behind(after, b"start=")?;
    let start = read_large_or_dash(offset)?;
    Some(Outcome::Got { source, start })
}

/// `done start=OFFSET`
fn read_copied(bytes: &[u8]) -> Option<Outcome>
    ensures { result ≡ row_in bytes.now (row (codes "done start=") (or_dash large) outcomes.Copied) }
{
    let offset = behind(bytes, b"done start=")?;
    let start = read_large_or_dash(offset)?;
    Some(Outcome::Copied { start })
}

/// A job that did what it was to do.
pub(crate) fn read_done(
    alloc: Global,
    repos: &[RepoView],
    bytes: &[u8],
) -> Result<Option<Outcome>, NoMemory>
    requires few { length repos.now < 2 ^ 32 }
    ensures { IfOk result (λ o. o ≡ by_rows (done_rows repos.now) bytes.now) }
{
    if let Some(outcome) = read_dropped(alloc, repos, bytes)? {
        return Ok(Some(outcome));
    }
    if let Some(outcome) = read_dropped_absent(alloc, repos, bytes)? {
        return Ok(Some(outcome));
    }
    if let Some(outcome) = read_got(repos, bytes) {
        return Ok(Some(outcome));
    }
    if let Some(outcome) = read_copied(bytes) {
        return Ok(Some(outcome));
    }
    Ok(None)
}
