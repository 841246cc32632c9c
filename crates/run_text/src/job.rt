//! What a line says of its job.

ghost use Rattle.std.specs.Prelude.{◌≡◌, ◌++◌, ◌∷◌, IfOk, OnOk, OnErr, option_copied};
ghost use Rattle.run_text.specs.Jobs.{kind_text, way_text, peer_text, key_text, job_text, begun_text};
ghost use Rattle.script_words.specs.Words.{printed_word};

use crate::names::put_name;
use annex_base::Text;
use annex_key::Key;
use run_data::{Job, JobKind, RepoView};
use script_words::put_word;
use std::alloc::{AllocError, Global};

/// Adds the line of a job as a script says it, with one space between its words; without memory it adds nothing.
pub fn put_job(
    out: &mut Vec<u8>,
    repos: &[RepoView],
    repo: u32,
    job: &Job,
) -> Result<(), AllocError>
    ensures ok { OnOk result (out.new.items ≡ out.old.items ++ job_text repos.now repo job.now) }
    ensures err { OnErr result (out.new.items ≡ out.old.items) }
{
    let text = job_text(*out.allocator(), repos, repo, job)?;
    out.extend_from_slice(&text)
}

fn job_text(alloc: Global, repos: &[RepoView], repo: u32, job: &Job) -> Result<Vec<u8>, AllocError>
    ensures { IfOk result (λ text. text.items ≡ job_text repos.now repo job.now) }
{
    let mut text = Vec::new(alloc);
    text.extend_from_slice(kind_word(job.kind))?;
    put_name(&mut text, repos, repo)?;
    text.push(b' ')?;
    put_key(&mut text, &job.key, &job.path)?;
    put_peer(&mut text, repos, way_word(job.kind), job.peer)?;
    Ok(text)
}

/// Adds the line of a job that was begun, if one was; without memory it adds nothing.
pub fn put_begun(
    out: &mut Vec<u8>,
    repos: &[RepoView],
    repo: u32,
    job: Option<&Job>,
) -> Result<(), AllocError>
    ensures ok { OnOk result (out.new.items ≡ out.old.items ++ begun_text repos.now repo (option_copied job.entry)) }
    ensures err { OnErr result (out.new.items ≡ out.old.items) }
{
    match job {
        None => Ok(()),
        Some(job) => put_job(out, repos, repo, job),
    }
}

fn kind_word(kind: JobKind) -> &'static [u8]
    ensures { result.now ≡ kind_text kind }
{
    match kind {
        JobKind::Drop => b"drop ",
        JobKind::Get => b"get ",
        JobKind::Copy => b"copy ",
        JobKind::MoveTo | JobKind::MoveFrom => b"move ",
    }
}

fn way_word(kind: JobKind) -> &'static [u8]
    ensures { result.now ≡ way_text kind }
{
    match kind {
        JobKind::Drop | JobKind::Get | JobKind::MoveFrom => b" from ",
        JobKind::Copy | JobKind::MoveTo => b" to ",
    }
}

/// Adds a key as a line named it: by the path that named it, or by its text; without memory it adds nothing.
pub fn put_key(out: &mut Vec<u8>, key: &Key, path: &Option<Text>) -> Result<(), AllocError>
    ensures ok { OnOk result (out.new.items ≡ out.old.items ++ key_text key.now path.now) }
    ensures err { OnErr result (out.new.items ≡ out.old.items) }
{
    match path {
        None => put_word(out, key.text()),
        Some(path) => put_path(out, path.bytes()),
    }
}

fn put_path(out: &mut Vec<u8>, path: &[u8]) -> Result<(), AllocError>
    ensures ok { OnOk result (out.new.items ≡ out.old.items ++ printed_word (64 ∷ path.now)) }
    ensures err { OnErr result (out.new.items ≡ out.old.items) }
{
    let mut word = Vec::new(*out.allocator());
    word.push(b'@')?;
    word.extend_from_slice(path)?;
    put_word(out, &word)
}

fn put_peer(
    out: &mut Vec<u8>,
    repos: &[RepoView],
    word: &[u8],
    peer: Option<u32>,
) -> Result<(), AllocError>
    ensures { OnOk result (out.new.items ≡ out.old.items ++ peer_text repos.now word.now peer) }
{
    if let Some(number) = peer {
        out.extend_from_slice(word)?;
        put_name(out, repos, number)?;
    }
    Ok(())
}
