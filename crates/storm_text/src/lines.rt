//! The lines of a storm's script.

ghost use Rattle.std.specs.Prelude.{◌≡◌, ◌++◌, ◌<◌, OnOk, codes};
ghost use Rattle.storm_script.specs.Storm.{have_line, job_line, key_word, merge_line, repo_line, repo_word, settle_line, time_lines, turn_line};

use annex_base::put_number;
use std::alloc::AllocError;

fn put_repo(out: &mut Vec<u8>, repo: u64) -> Result<(), AllocError>
    ensures { OnOk result (out.new.items ≡ out.old.items ++ repo_word repo) }
{
    out.extend_from_slice(b"s")?;
    put_number(out, repo)
}

fn put_key(out: &mut Vec<u8>, key: u64) -> Result<(), AllocError>
    ensures { OnOk result (out.new.items ≡ out.old.items ++ key_word key) }
{
    out.extend_from_slice(b"WORM-s3--k")?;
    put_number(out, key)
}

/// Adds the line that declares a repository; the last two of eight give no holds.
pub(crate) fn put_repo_line(out: &mut Vec<u8>, repo: u64) -> Result<(), AllocError>
    ensures { OnOk result (out.new.items ≡ out.old.items ++ repo_line repo) }
{
    out.extend_from_slice(b"repo ")?;
    put_repo(out, repo)?;
    out.extend_from_slice(b" 00000000-0000-4000-8000-00000000000")?;
    put_number(out, repo)?;
    let rest: &[u8] = if repo < 6 { b"\n" } else { b" nolock\n" };
    out.extend_from_slice(rest)
}

pub(crate) fn put_have_line(out: &mut Vec<u8>, repo: u64, key: u64) -> Result<(), AllocError>
    ensures { OnOk result (out.new.items ≡ out.old.items ++ have_line repo key) }
{
    out.extend_from_slice(b"have ")?;
    put_repo(out, repo)?;
    out.extend_from_slice(b" ")?;
    put_key(out, key)?;
    out.extend_from_slice(b" text:abc\n")
}

pub(crate) fn put_merge_line(out: &mut Vec<u8>, repo: u64) -> Result<(), AllocError>
    ensures { OnOk result (out.new.items ≡ out.old.items ++ merge_line repo) }
{
    out.extend_from_slice(b"merge ")?;
    put_repo(out, repo)?;
    out.extend_from_slice(b" s0\n")
}

/// Adds a word and what a job of it names: its repository and its key.
fn put_begun(out: &mut Vec<u8>, word: &[u8], repo: u64, key: u64) -> Result<(), AllocError>
    ensures { OnOk result (out.new.items ≡ out.old.items ++ word.now ++ repo_word repo ++ codes " " ++ key_word key) }
{
    out.extend_from_slice(word)?;
    put_repo(out, repo)?;
    out.extend_from_slice(b" ")?;
    put_key(out, key)
}

/// Adds the line of a job without another repository.
fn put_alone(out: &mut Vec<u8>, word: &[u8], repo: u64, key: u64) -> Result<(), AllocError>
    ensures { OnOk result (out.new.items ≡ out.old.items ++ word.now ++ repo_word repo ++ codes " " ++ key_word key ++ codes "\n") }
{
    put_begun(out, word, repo, key)?;
    out.extend_from_slice(b"\n")
}

/// Adds the line of a job with another repository, which stands behind a word.
fn put_paired(
    out: &mut Vec<u8>,
    word: &[u8],
    repo: u64,
    key: u64,
    behind: &[u8],
    other: u64,
) -> Result<(), AllocError>
    ensures { OnOk result (out.new.items ≡ out.old.items ++ word.now ++ repo_word repo ++ codes " " ++ key_word key ++ behind.now ++ repo_word other ++ codes "\n") }
{
    put_begun(out, word, repo, key)?;
    out.extend_from_slice(behind)?;
    put_repo(out, other)?;
    out.extend_from_slice(b"\n")
}

fn put_crash(out: &mut Vec<u8>, repo: u64) -> Result<(), AllocError>
    ensures { OnOk result (out.new.items ≡ out.old.items ++ codes "crash " ++ repo_word repo ++ codes "\n") }
{
    out.extend_from_slice(b"crash ")?;
    put_repo(out, repo)?;
    out.extend_from_slice(b"\n")
}

/// Adds the job or the crash of a draw, at a repository: of a key, with another repository.
fn put_job_line(
    out: &mut Vec<u8>,
    draw: u64,
    repo: u64,
    key: u64,
    other: u64,
) -> Result<(), AllocError>
    requires { draw < 8 }
    ensures { OnOk result (out.new.items ≡ out.old.items ++ job_line draw repo key other) }
{
    if draw <= 2 {
        return put_alone(out, b"begin drop ", repo, key);
    }
    if draw <= 4 {
        return put_paired(out, b"begin drop ", repo, key, b" from ", other);
    }
    if draw == 5 {
        return put_alone(out, b"begin get ", repo, key);
    }
    if draw == 6 {
        return put_paired(out, b"begin copy ", repo, key, b" to ", other);
    }
    put_crash(out, repo)
}

fn put_turn_line(out: &mut Vec<u8>, repo: u64, turns: u64) -> Result<(), AllocError>
    ensures { OnOk result (out.new.items ≡ out.old.items ++ turn_line repo turns) }
{
    out.extend_from_slice(b"turn ")?;
    put_repo(out, repo)?;
    out.extend_from_slice(b" ")?;
    put_number(out, turns)?;
    out.extend_from_slice(b"\n")
}

pub(crate) fn put_settle_line(out: &mut Vec<u8>) -> Result<(), AllocError>
    ensures { OnOk result (out.new.items ≡ out.old.items ++ settle_line) }
{
    out.extend_from_slice(b"settle\n")
}

/// What is drawn for one time.
#[derive(Clone, Copy, Debug)]
pub(crate) struct Time {
    /// The repository of the job or the crash.
    pub(crate) repo: u64,
    pub(crate) key: u64,
    /// The other repository.
    pub(crate) other: u64,
    /// Which job it is, or that it is a crash.
    pub(crate) draw: u64,
    pub(crate) turns: u64,
}

/// Adds the lines of the time at this place, counted from 1: the job or the crash, and then turns of the two repositories; after
/// every eighth time all settles.
pub(crate) fn put_time(out: &mut Vec<u8>, place: u64, time: Time) -> Result<(), AllocError>
    requires { time.draw < 8 }
    ensures { OnOk result (out.new.items ≡ out.old.items ++ time_lines place time.repo time.key time.other time.draw time.turns) }
{
    put_job_line(out, time.draw, time.repo, time.key, time.other)?;
    put_turn_line(out, time.repo, time.turns)?;
    put_turn_line(out, time.other, time.turns)?;
    if place % 8 == 0 {
        put_settle_line(out)?;
    }
    Ok(())
}
