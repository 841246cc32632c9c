//! What a branch sets: numbers of copies, levels and groups.

ghost use Rattle.std.specs.Prelude.{◌≡◌, ◌++◌, ◌<◌, length, OnOk};
ghost use Rattle.union_merge.specs.Branch.{lines_at};
ghost use Rattle.trust_groups.specs.Settings.{settings};
ghost use Rattle.run_data.specs.Repos.{id_of};
ghost use Rattle.shown_text.specs.Shown.{numbers_at_text, numbers_for, numbers_text, path_numbers_text, trust_text};

use annex_base::{NoMemory, RepoId, Text, put_number};
use run_data::{RepoView, Run};
use run_text::{OwnWords, put_joined, put_name};
use script_words::{level_text, put_word};
use trust_groups::{Settings, groups_of, level_of, mincopies_of, numcopies_of};
use union_merge::Branch;

/// Adds the numbers of copies that the branch sets, of a path or of all contents.
pub fn put_numbers_for(
    out: &mut Vec<u8>,
    run: &Run,
    repo: u32,
    path: &Option<Text>,
    branch: &Branch,
) -> Result<(), NoMemory>
    ensures { OnOk result (out.new.items ≡ out.old.items ++ numbers_for run.now repo path.now (settings (lines_at branch.now))) }
{
    match path {
        None => put_numbers(out, run, repo, branch)?,
        Some(path) => put_path_numbers(out, run, repo, path, branch)?,
    }
    Ok(())
}

/// Adds the numbers of copies that the branch sets.
fn put_numbers(out: &mut Vec<u8>, run: &Run, repo: u32, branch: &Branch) -> Result<(), NoMemory>
    ensures { OnOk result (out.new.items ≡ out.old.items ++ numbers_text run.now repo (settings (lines_at branch.now))) }
{
    let alloc = *out.allocator();
    let numcopies = numcopies_of(alloc, branch)?;
    let mincopies = mincopies_of(alloc, branch)?;
    out.extend_from_slice(b"numbers ")?;
    put_name(out, run.repos.as_slice(), repo)?;
    out.push(b' ')?;
    put_number(out, u64::from(numcopies))?;
    out.push(b' ')?;
    put_number(out, u64::from(mincopies))?;
    out.push(b'\n')?;
    Ok(())
}

/// Adds the numbers of copies of a path.
fn put_numbers_at(
    out: &mut Vec<u8>,
    run: &Run,
    repo: u32,
    path: &Text,
    numcopies: u32,
    mincopies: u32,
) -> Result<(), NoMemory>
    ensures { OnOk result (out.new.items ≡ out.old.items ++ numbers_at_text run.now repo path.now numcopies mincopies) }
{
    out.extend_from_slice(b"numbers ")?;
    put_name(out, run.repos.as_slice(), repo)?;
    out.push(b' ')?;
    put_word(out, path.bytes())?;
    out.push(b' ')?;
    put_number(out, u64::from(numcopies))?;
    out.push(b' ')?;
    put_number(out, u64::from(mincopies))?;
    out.push(b'\n')?;
    Ok(())
}

/// Adds the numbers of copies that the branch sets for a content with this one path.
fn put_path_numbers(
    out: &mut Vec<u8>,
    run: &Run,
    repo: u32,
    path: &Text,
    branch: &Branch,
) -> Result<(), NoMemory>
    ensures { OnOk result (out.new.items ≡ out.old.items ++ path_numbers_text run.now repo path.now (settings (lines_at branch.now))) }
{
    let settings = Settings::read(*out.allocator(), branch)?;
    let numcopies = settings.numcopies_at(path.bytes());
    let mincopies = settings.mincopies_at(path.bytes());
    put_numbers_at(out, run, repo, path, numcopies, mincopies)?;
    Ok(())
}

pub(crate) fn id_of(repos: &[RepoView], repo: u32) -> RepoId
    requires { repo < length repos.now }
    ensures { result ≡ id_of repos.now repo }
{
    repos[repo as usize].id
}

/// Adds how far the branch trusts a repository, and its groups.
pub fn put_level(
    out: &mut Vec<u8>,
    run: &Run,
    repo: u32,
    target: u32,
    branch: &Branch,
) -> Result<(), NoMemory>
    requires { target < length run.now.repos }
    ensures { OnOk result (out.new.items ≡ out.old.items ++ trust_text run.now repo target (settings (lines_at branch.now))) }
{
    let alloc = *out.allocator();
    let repos = run.repos.as_slice();
    let id = id_of(repos, target);
    let level = level_of(alloc, branch, id)?;
    let groups = groups_of(alloc, branch, id)?;
    out.extend_from_slice(b"level ")?;
    put_name(out, repos, repo)?;
    out.push(b' ')?;
    put_name(out, repos, target)?;
    out.push(b' ')?;
    out.extend_from_slice(level_text(level))?;
    out.extend_from_slice(b" groups=")?;
    put_joined(out, b',', &OwnWords, groups.as_slice())?;
    out.push(b'\n')?;
    Ok(())
}
