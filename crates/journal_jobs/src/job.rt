//! Jobs as they begin.
ghost use Rattle.std.specs.Prelude.{◌≡◌, ◌<◌, ◌^◌, length, IfOk, codes};
ghost use Rattle.std.specs.Option.{option_map};
ghost use Rattle.script_words.specs.Marks.{behind_mark};
ghost use Rattle.run_data.specs.declared.job.JobKind.TheVariants as jobs;
ghost use Rattle.journal_reading.specs.Forms.{by_rows, row_in};
ghost use Rattle.journal_reading.specs.Kinds.{job_mark, job_alone, job_with, job_form};
ghost use Rattle.journal_jobs.specs.Tables.{later_jobs};

use annex_base::NoMemory;
use annex_key::Tree;
use journal_fields::{behind, cut_word, read_named_key, read_nothing, read_other, repo_name};
use run_data::{Job, JobKind, RepoView};
use std::alloc::Global;

/// What stands behind the job's word, its repository and a space.
#[tactic(auto, using(crate::proofs::MarkLemmas::behind_more))]
fn behind_job<'a>(repos: &[RepoView], repo: u32, word: &[u8], bytes: &'a [u8]) -> Option<&'a [u8]>
    ensures { option_map (λ x. x.now) result ≡ behind_mark (job_mark repos.now repo word.now) bytes.now }
{
    let name = behind(bytes, word)?;
    let space = behind(name, repo_name(repos, repo))?;
    behind(space, b" ")
}

/// `WORD REPO KEY`. The key is read last, since it takes memory.
fn read_alone(
    alloc: Global,
    repos: &[RepoView],
    tree: &Tree,
    repo: u32,
    word: &[u8],
    kind: JobKind,
    bytes: &[u8],
) -> Result<Option<Job>, NoMemory>
    ensures { IfOk result (λ o. o ≡ row_in bytes.now (job_alone repos.now tree.now repo word.now kind)) }
{
    let Some(fields) = behind_job(repos, repo, word, bytes) else {
        return Ok(None);
    };
    let Some((name, rest)) = cut_word(fields) else {
        return Ok(None);
    };
    let Some(()) = read_nothing(rest) else {
        return Ok(None);
    };
    let Some((key, path)) = read_named_key(alloc, tree, name)? else {
        return Ok(None);
    };
    Ok(Some(Job {
        kind,
        key,
        path,
        peer: None,
    }))
}

/// `WORD REPO KEY WAY PEER`. The key is read last, since it takes memory.
fn read_with(
    alloc: Global,
    repos: &[RepoView],
    tree: &Tree,
    repo: u32,
    word: &[u8],
    way: &[u8],
    kind: JobKind,
    bytes: &[u8],
) -> Result<Option<Job>, NoMemory>
    requires few { length repos.now < 2 ^ 32 }
    ensures { IfOk result (λ o. o ≡ row_in bytes.now (job_with repos.now tree.now repo word.now way.now kind)) }
{
    let Some(fields) = behind_job(repos, repo, word, bytes) else {
        return Ok(None);
    };
    let Some((name, rest)) = cut_word(fields) else {
        return Ok(None);
    };
    let Some(peer) = behind(rest, way) else {
        return Ok(None);
    };
    let Some(peer) = read_other(repos, repo, peer) else {
        return Ok(None);
    };
    let Some((key, path)) = read_named_key(alloc, tree, name)? else {
        return Ok(None);
    };
    Ok(Some(Job {
        kind,
        key,
        path,
        peer: Some(peer),
    }))
}

/// `copy` and `move`, which always name a peer.
fn read_later_job(
    alloc: Global,
    repos: &[RepoView],
    tree: &Tree,
    repo: u32,
    bytes: &[u8],
) -> Result<Option<Job>, NoMemory>
    requires few { length repos.now < 2 ^ 32 }
    ensures { IfOk result (λ o. o ≡ by_rows (later_jobs repos.now tree.now repo) bytes.now) }
{
    let copies = JobKind::Copy;
    if let Some(job) = read_with(alloc, repos, tree, repo, b"copy ", b" to ", copies, bytes)? {
        return Ok(Some(job));
    }
    let puts = JobKind::MoveTo;
    if let Some(job) = read_with(alloc, repos, tree, repo, b"move ", b" to ", puts, bytes)? {
        return Ok(Some(job));
    }
    let takes = JobKind::MoveFrom;
    if let Some(job) = read_with(alloc, repos, tree, repo, b"move ", b" from ", takes, bytes)? {
        return Ok(Some(job));
    }
    Ok(None)
}

/// A job of a repository, as a journal says it behind the job's number and a space (own). A key is named by its text, or
/// by `@` and a path of the tree.
pub fn read_job(
    alloc: Global,
    repos: &[RepoView],
    tree: &Tree,
    repo: u32,
    bytes: &[u8],
) -> Result<Option<Job>, NoMemory>
    requires few { length repos.now < 2 ^ 32 }
    ensures { IfOk result (λ o. o ≡ (job_form repos.now tree.now repo).read bytes.now) }
{
    let drops = JobKind::Drop;
    if let Some(job) = read_alone(alloc, repos, tree, repo, b"drop ", drops, bytes)? {
        return Ok(Some(job));
    }
    if let Some(job) = read_with(alloc, repos, tree, repo, b"drop ", b" from ", drops, bytes)? {
        return Ok(Some(job));
    }
    let gets = JobKind::Get;
    if let Some(job) = read_alone(alloc, repos, tree, repo, b"get ", gets, bytes)? {
        return Ok(Some(job));
    }
    if let Some(job) = read_with(alloc, repos, tree, repo, b"get ", b" from ", gets, bytes)? {
        return Ok(Some(job));
    }
    read_later_job(alloc, repos, tree, repo, bytes)
}
