//! Names of repositories.

ghost use Rattle.std.specs.Prelude.{◌≡◌, ◌++◌, OnOk, OnErr};
ghost use Rattle.run_text.specs.Words.{joined_text};
ghost use Rattle.run_text.specs.Names.{name_of, name_or_dash};

use crate::words::{ItemWords, put_joined};
use run_data::RepoView;
use std::alloc::AllocError;

/// Numbers of repositories, whose words are their names.
#[derive(Clone, Copy)]
struct RepoNames<'r> {
    repos: &'r [RepoView],
}

impl ItemWords<u32> for RepoNames<'_> {
    ghost use Rattle.run_text.specs.Names.{name_of};

    ghost word_of = { λ names repo. name_of names.repos.now repo };

    fn put(&self, out: &mut Vec<u8>, item: &u32) -> Result<(), AllocError> {
        put_name(out, self.repos, *item)
    }
}

fn name_bytes(repos: &[RepoView], repo: u32) -> &[u8]
    ensures { result.now ≡ name_of repos.now repo }
{
    match repos.get(repo as usize) {
        None => &[],
        Some(view) => view.name.bytes(),
    }
}

/// Adds the name of a repository; nothing where there is none of this number, nor without memory.
pub fn put_name(out: &mut Vec<u8>, repos: &[RepoView], repo: u32) -> Result<(), AllocError>
    ensures ok { OnOk result (out.new.items ≡ out.old.items ++ name_of repos.now repo) }
    ensures err { OnErr result (out.new.items ≡ out.old.items) }
{
    out.extend_from_slice(name_bytes(repos, repo))
}

/// Adds the name of a repository, or a dash where there is none; without memory it adds nothing.
pub fn put_name_or_dash(
    out: &mut Vec<u8>,
    repos: &[RepoView],
    repo: Option<u32>,
) -> Result<(), AllocError>
    ensures ok { OnOk result (out.new.items ≡ out.old.items ++ name_or_dash repos.now repo) }
    ensures err { OnErr result (out.new.items ≡ out.old.items) }
{
    match repo {
        None => out.extend_from_slice(b"-"),
        Some(repo) => put_name(out, repos, repo),
    }
}

/// Adds the names of repositories with a byte between them, or a dash; without memory it adds nothing.
pub fn put_names(
    out: &mut Vec<u8>,
    repos: &[RepoView],
    between: u8,
    numbers: &[u32],
) -> Result<(), AllocError>
    ensures ok { OnOk result (out.new.items ≡ out.old.items ++ joined_text between (name_of repos.now) numbers.now) }
    ensures err { OnErr result (out.new.items ≡ out.old.items) }
{
    put_joined(out, between, &RepoNames { repos }, numbers)
}
