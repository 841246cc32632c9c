//! The journal: its head, its repositories, the changes of its tree and its entries.

ghost use Rattle.std.specs.Prelude.{◌≡◌, ◌++◌, [], IfOk, OnOk, OnErr, codes};
ghost use Rattle.std.specs.List.{flat_map};
ghost use Rattle.std.specs.Fmt.{decimal};
ghost use Rattle.journal_text.specs.Journal.{journal, journal_of, repo_line, path_line, entries_text, locks_text};

use crate::entry::put_parts;
use annex_base::{NoMemory, put_number};
use run_data::{Entry, RepoView, Run, TreeMark};
use std::alloc::{AllocError, Global};

/// The journal of a run (own): how many entries it has, its repositories, the changes of its tree, and each entry with
/// the frames that it took and sent and the lines that it added.
pub fn journal(alloc: Global, run: &Run) -> Result<Vec<u8>, NoMemory>
    ensures { IfOk result (λ text. text.items ≡ journal run.now) }
{
    let tree = run.tree.as_slice();
    let text = journal_of(alloc, run.repos.as_slice(), tree, run.entries.as_slice())?;
    Ok(text)
}

/// Adds the journal of some first entries of a run, and of the changes of its tree up to them; without memory it adds
/// nothing.
pub fn put_journal(
    out: &mut Vec<u8>,
    repos: &[RepoView],
    tree: &[TreeMark],
    entries: &[Entry],
) -> Result<(), AllocError>
    ensures ok { OnOk result (out.new.items ≡ out.old.items ++ journal_of repos.now tree.now entries.now) }
    ensures err { OnErr result (out.new.items ≡ out.old.items) }
{
    let text = journal_of(*out.allocator(), repos, tree, entries)?;
    out.extend_from_slice(&text)
}

fn journal_of(
    alloc: Global,
    repos: &[RepoView],
    tree: &[TreeMark],
    entries: &[Entry],
) -> Result<Vec<u8>, AllocError>
    ensures { IfOk result (λ text. text.items ≡ journal_of repos.now tree.now entries.now) }
{
    let mut text = Vec::new(alloc);
    put_size(&mut text, entries.len())?;
    put_repos(&mut text, repos)?;
    put_tree(&mut text, tree)?;
    put_entries(&mut text, repos, entries)?;
    Ok(text)
}

fn put_size(out: &mut Vec<u8>, entries: usize) -> Result<(), AllocError>
    ensures { OnOk result (out.new.items ≡ out.old.items ++ (codes "journal " ++ decimal entries ++ codes "\n")) }
{
    out.extend_from_slice(b"journal ")?;
    put_number(out, entries as u64)?;
    out.push(b'\n')?;
    Ok(())
}

fn put_repos(out: &mut Vec<u8>, repos: &[RepoView]) -> Result<(), AllocError>
    ensures { OnOk result (out.new.items ≡ out.old.items ++ flat_map repo_line repos.now) }
{
    for repo in repos {
        put_repo(out, repo)?;
    }
    Ok(())
}

fn put_repo(out: &mut Vec<u8>, repo: &RepoView) -> Result<(), AllocError>
    ensures { OnOk result (out.new.items ≡ out.old.items ++ repo_line repo.now) }
{
    out.extend_from_slice(b"repo ")?;
    out.extend_from_slice(repo.name.bytes())?;
    out.push(b' ')?;
    out.extend_from_slice(&repo.id.print())?;
    out.extend_from_slice(b" offset=")?;
    put_number(out, repo.offset)?;
    out.extend_from_slice(b" version=")?;
    put_number(out, repo.version as u64)?;
    out.extend_from_slice(locks_word(repo.locks))?;
    out.push(b'\n')?;
    Ok(())
}

fn locks_word(locks: bool) -> &'static [u8]
    ensures { result.now ≡ locks_text locks }
{
    if locks { b" locks" } else { b" nolock" }
}

fn put_tree(out: &mut Vec<u8>, tree: &[TreeMark]) -> Result<(), AllocError>
    ensures { OnOk result (out.new.items ≡ out.old.items ++ flat_map path_line tree.now) }
{
    for mark in tree {
        put_mark(out, mark)?;
    }
    Ok(())
}

fn put_mark(out: &mut Vec<u8>, mark: &TreeMark) -> Result<(), AllocError>
    ensures { OnOk result (out.new.items ≡ out.old.items ++ path_line mark.now) }
{
    let path = mark.path.bytes();
    out.extend_from_slice(b"path ")?;
    put_number(out, mark.place as u64)?;
    out.push(b' ')?;
    put_number(out, path.len() as u64)?;
    out.push(b' ')?;
    out.extend_from_slice(path)?;
    out.push(b' ')?;
    out.extend_from_slice(mark.key.text())?;
    out.push(b'\n')?;
    Ok(())
}

fn put_entries(out: &mut Vec<u8>, repos: &[RepoView], entries: &[Entry]) -> Result<(), AllocError>
    ensures { OnOk result (out.new.items ≡ out.old.items ++ entries_text repos.now [] entries.now) }
{
    for place in 0..entries.len() {
        let (before, _) = entries.split_at(place);
        put_parts(out, repos, before, &entries[place])?;
    }
    Ok(())
}
