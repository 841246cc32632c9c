//! What the lines so far have declared.
ghost use Rattle.std.specs.Prelude.{◌≡◌, ◌≤◌, ◌<◌, length, is_some, IfSome};
ghost use Rattle.std.specs.Str.{bytes_eq};
ghost use Rattle.std.specs.List.{list_any};
ghost use Rattle.script_forms.specs.Context.{number_of_repo, number_of_other, id_of_repo, has_name, has_id};

use annex_base::{RepoId, Text};
use annex_key::{Key, Tree};
use std::collections::BTreeSet;
use std::marker::Model;

/// A repository as its line declares it.
#[derive(Debug, Drop)]
pub struct Repository {
    pub name: Text,
    pub id: RepoId,
    pub offset: u64,
    pub version: u8,
    pub locks: bool,
}

impl Repository {
    fn is_named(&self, name: &[u8]) -> bool
        ensures { result ≡ bytes_eq self.now.name name.now }
    {
        self.name.bytes() == name
    }

    fn has_id(&self, id: &RepoId) -> bool
        ensures { result ≡ bytes_eq self.now.id id.now }
    {
        self.id == *id
    }
}

/// Whether one of the repositories has the name.
pub fn has_name(repos: &[Repository], name: &[u8]) -> bool
    ensures { result ≡ has_name repos.now name.now }
{
    repos.iter().any(|r| r.is_named(name))
}

/// Whether one of the repositories has the identifier.
pub fn has_id(repos: &[Repository], id: &RepoId) -> bool
    ensures { result ≡ has_id repos.now id.now }
{
    repos.iter().any(|r| r.has_id(id))
}

fn position_of(repos: &[Repository], name: &[u8]) -> Option<usize>
    ensures { result ≡ number_of_repo repos.now name.now }
{
    repos.iter().position(|r| r.is_named(name))
}

/// The number of the repository of this name.
pub fn find_repository(repos: &[Repository], name: &[u8]) -> Option<u32>
    requires { length repos.now ≤ 16 }
    ensures { result ≡ number_of_repo repos.now name.now }
{
    match position_of(repos, name) {
        Some(at) => Some(at as u32),
        None => None,
    }
}

/// The number of another repository of this name.
pub fn find_other(repos: &[Repository], repo: u32, name: &[u8]) -> Option<u32>
    requires { length repos.now ≤ 16 }
    ensures { result ≡ number_of_other repos.now repo name.now }
{
    match find_repository(repos, name) {
        Some(other) if repo != other => Some(other),
        _ => None,
    }
}

/// The identifier of the repository of this name.
pub fn find_id(repos: &[Repository], name: &[u8]) -> Option<RepoId>
    ensures { result ≡ id_of_repo repos.now name.now }
{
    match repos.iter().find(|r| r.is_named(name)) {
        Some(repository) => Some(repository.id),
        None => None,
    }
}

/// What a line is read by.
#[derive(Debug, Drop)]
pub struct Context {
    /// The repositories in order of number.
    pub repos: Vec<Repository>,
    /// Whether a line other than theirs came.
    pub closed: bool,
    pub tree: Tree,
    /// How many paths the tree has.
    pub files: u64,
    /// The contents that lines put, each with its repository's number.
    pub placed: BTreeSet<(u32, Key)>,
    /// The bytes of all contents.
    pub contents: u64,
    /// The milliseconds of all waits.
    pub waited: u64,
}

impl Model for Context {
    ghost use Rattle.std.specs.Prelude.{◌≤◌, length};
    ghost use Rattle.script_forms.specs.Context.{Context};

    ghost Value = { Context };

    ghost view = { λ c. record { repos = c.repos.items; closed = c.closed; tree = c.tree; files = c.files; placed = c.placed.keys; contents = c.contents; waited = c.waited } };

    ghost invariant = { λ c. (length c.repos.items ≤ 16) × (c.files ≤ 4096) × (c.contents ≤ 268435456) × (c.waited ≤ 1000000000000) };
}
