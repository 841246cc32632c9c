//! A line's change made, for the lines behind it.
ghost use Rattle.std.specs.Prelude.{◌≡◌, ◌≤◌, ◌++◌, ◌||◌, not, None, OnOk, OnErr};
ghost use Rattle.std.specs.BTreeSet.{insert_key};
ghost use Rattle.script_forms.specs.Changes as spec;
ghost use Rattle.script_forms.specs.Changes.{as_change, declares, repos_by, tree_by, files_by, placed_by};
ghost use Rattle.script_forms.specs.Context.{new_paths, placed_cmp};
ghost use Rattle.script_forms.specs.Limits as limits;
ghost use Rattle.script_lang.specs.Script.{context_with};

use annex_base::{NoMemory, Text};
use annex_key::{Key, Tree};
use script_commands::Command;
use script_forms::{Change, Context, Repository, change_of};
use std::alloc::Global;
use std::collections::BTreeSet;

/// Whether no repository may be declared after the change, if it is `closed` before it.
fn closes(closed: bool, change: &Change<'_>) -> bool
    ensures { result ≡ (closed || not (declares (as_change change.now))) }
{
    match change {
        Change::Declares { .. } => closed,
        Change::Puts { .. } => true,
        Change::Brings { .. } => true,
        Change::Adds { .. } => true,
        Change::Names { .. } => true,
        Change::Waits { .. } => true,
        Change::Nothing => true,
    }
}

/// Adds the repository that the change declares, if it does.
fn declare(repos: &mut Vec<Repository>, change: &Change<'_>) -> Result<(), NoMemory>
    ensures ok { OnOk result (repos.new.items ≡ repos.old.items ++ repos_by (as_change change.now)) }
    ensures err { OnErr result (repos.new.items ≡ repos.old.items) }
{
    match *change {
        Change::Declares {
            name,
            id,
            offset,
            version,
            locks,
        } => {
            let name = name.clone()?;
            repos.push(Repository {
                name,
                id: *id,
                offset,
                version,
                locks,
            })?;
            Ok(())
        }
        Change::Puts { .. } => Ok(()),
        Change::Brings { .. } => Ok(()),
        Change::Adds { .. } => Ok(()),
        Change::Names { .. } => Ok(()),
        Change::Waits { .. } => Ok(()),
        Change::Nothing => Ok(()),
    }
}

/// Enters the path that the change gives a key, if it does.
fn enter(tree: &mut Tree, alloc: Global, change: &Change<'_>) -> Result<(), NoMemory>
    ensures { OnOk result (tree.new ≡ tree_by tree.old (as_change change.now)) }
{
    match *change {
        Change::Declares { .. } => Ok(()),
        Change::Puts { .. } => Ok(()),
        Change::Brings { .. } => Ok(()),
        Change::Adds { path, key, .. } => tree.set(alloc, path.bytes(), key),
        Change::Names { path, key } => tree.set(alloc, path.bytes(), key),
        Change::Waits { .. } => Ok(()),
        Change::Nothing => Ok(()),
    }
}

/// How many paths the tree has more with this one.
pub fn new_path(tree: &Tree, path: &Text) -> u64
    ensures value { result ≡ new_paths tree.now path.now }
    ensures bound { result ≤ 1 }
{
    if tree.key(path.bytes()).is_some() {
        0
    } else {
        1
    }
}

/// How many paths the tree has more after the change.
fn files_of(tree: &Tree, change: &Change<'_>) -> u64
    ensures value { result ≡ files_by tree.now (as_change change.now) }
    ensures bound { result ≤ 1 }
{
    match *change {
        Change::Declares { .. } => 0,
        Change::Puts { .. } => 0,
        Change::Brings { .. } => 0,
        Change::Adds { path, .. } => new_path(tree, path),
        Change::Names { path, .. } => new_path(tree, path),
        Change::Waits { .. } => 0,
        Change::Nothing => 0,
    }
}

fn put(placed: &mut BTreeSet<(u32, Key)>, repo: u32, key: &Key) -> Result<(), NoMemory>
    ensures { OnOk result (placed.new.keys ≡ insert_key placed_cmp placed.old.keys (repo, key.now)) }
{
    let key = key.copy()?;
    placed.insert((repo, key))?;
    Ok(())
}

/// Notes the content that the change puts, if it does.
fn place(placed: &mut BTreeSet<(u32, Key)>, change: &Change<'_>) -> Result<(), NoMemory>
    ensures { OnOk result (placed.new.keys ≡ placed_by placed.old.keys (as_change change.now)) }
{
    match *change {
        Change::Declares { .. } => Ok(()),
        Change::Puts { repo, key, .. } => put(placed, repo, key),
        Change::Brings { .. } => Ok(()),
        Change::Adds { repo, key, .. } => put(placed, repo, key),
        Change::Names { .. } => Ok(()),
        Change::Waits { .. } => Ok(()),
        Change::Nothing => Ok(()),
    }
}

/// The bytes of the change's content.
fn size_of(change: &Change<'_>) -> u64
    ensures { result ≡ spec.content_size (as_change change.now) }
{
    match *change {
        Change::Declares { .. } => 0,
        Change::Puts { content, .. } => content.size(),
        Change::Brings { content } => content.size(),
        Change::Adds { content, .. } => content.size(),
        Change::Names { .. } => 0,
        Change::Waits { .. } => 0,
        Change::Nothing => 0,
    }
}

/// The milliseconds that go by.
fn wait_of(change: &Change<'_>) -> u64
    ensures { result ≡ spec.wait_by (as_change change.now) }
{
    match *change {
        Change::Declares { .. } => 0,
        Change::Puts { .. } => 0,
        Change::Brings { .. } => 0,
        Change::Adds { .. } => 0,
        Change::Names { .. } => 0,
        Change::Waits { milliseconds } => milliseconds,
        Change::Nothing => 0,
    }
}

/// Makes the change.
fn make(context: &mut Context, alloc: Global, change: &Change<'_>) -> Result<(), NoMemory>
    requires { limits.limit_passed context.old (as_change change.now) ≡ None }
    ensures { OnOk result (context.new ≡ spec.context_by context.old (as_change change.now)) }
{
    place(&mut context.placed, change)?;
    declare(&mut context.repos, change)?;
    let files = files_of(&context.tree, change);
    enter(&mut context.tree, alloc, change)?;
    context.files += files;
    context.closed = closes(context.closed, change);
    context.contents += size_of(change);
    context.waited += wait_of(change);
    Ok(())
}

/// What the lines behind the command are read by.
pub fn apply(context: &mut Context, alloc: Global, command: &Command) -> Result<(), NoMemory>
    requires { limits.first_limit context.old command.now ≡ None }
    ensures { OnOk result (context.new ≡ context_with context.old command.now) }
{
    let change = change_of(command);
    make(context, alloc, &change)
}
