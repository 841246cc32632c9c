//! The line of a repository.
ghost use Rattle.std.specs.Prelude.{◌≡◌, ◌∷◌, [], true, false, nat_le, IfOk, codes, option_map};
ghost use Rattle.std.specs.List.{list_any};
ghost use Rattle.std.specs.Str.{bytes_eq};
ghost use Rattle.script_words.specs.Fields.{greatest_offset};
ghost use Rattle.journal_reading.specs.Forms.{number, one_of, passing, behind, tested, up_to};
ghost use Rattle.journal_reading.specs.Lines.{id_form, locks_word, repo_parts, a_repo, repo_form, is_new};

use annex_base::{NoMemory, RepoId, Text};
use journal_fields::{behind, cut};
use run_data::RepoView;
use script_words::{is_name, is_word, read_id, read_number};
use std::alloc::Global;

/// The greatest offset, in milliseconds.
const GREATEST_OFFSET: u64 = 100_000_000_000;

/// A version of the protocol, from 1 to 3.
fn read_version(word: &[u8]) -> Option<u8>
    ensures { result ≡ (tested (λ v. nat_le 1 v) (number 3)).read word.now }
{
    match read_number(word, 3) {
        Some(number) if number >= 1 => Some(number as u8),
        _ => None,
    }
}

/// Whether a repository gives holds to its peers.
fn read_locks(word: &[u8]) -> Option<bool>
    ensures { result ≡ (one_of locks_word (true ∷ false ∷ [])).read word.now }
{
    if is_word(word, b"locks") {
        return Some(true);
    }
    if is_word(word, b"nolock") {
        return Some(false);
    }
    None
}

/// `version=V`, and whether it gives holds.
fn read_protocol(bytes: &[u8]) -> Option<(u8, bool)>
    ensures { result ≡ (behind (codes "version=") (up_to 32 (tested (λ v. nat_le 1 v) (number 3)) (λ v. one_of locks_word (true ∷ false ∷ [])))).read bytes.now }
{
    let rest = behind(bytes, b"version=")?;
    let (word, rest) = cut(rest, b' ')?;
    let version = read_version(word)?;
    let locks = read_locks(rest)?;
    Some((version, locks))
}

/// `offset=MS`, and what follows it.
fn read_clock(bytes: &[u8]) -> Option<(u64, (u8, bool))>
    ensures { result ≡ (behind (codes "offset=") (up_to 32 (number greatest_offset) (λ o. behind (codes "version=") (up_to 32 (tested (λ v. nat_le 1 v) (number 3)) (λ v. one_of locks_word (true ∷ false ∷ [])))))).read bytes.now }
{
    let rest = behind(bytes, b"offset=")?;
    let (word, rest) = cut(rest, b' ')?;
    let offset = read_number(word, GREATEST_OFFSET)?;
    let protocol = read_protocol(rest)?;
    Some((offset, protocol))
}

/// An identifier, and what follows it.
fn read_set_up(bytes: &[u8]) -> Option<(RepoId, (u64, (u8, bool)))>
    ensures { result ≡ (up_to 32 id_form (λ i. behind (codes "offset=") (up_to 32 (number greatest_offset) (λ o. behind (codes "version=") (up_to 32 (tested (λ v. nat_le 1 v) (number 3)) (λ v. one_of locks_word (true ∷ false ∷ []))))))).read bytes.now }
{
    let (word, rest) = cut(bytes, b' ')?;
    let id = read_id(word)?;
    let clock = read_clock(rest)?;
    Some((id, clock))
}

/// The parts of a repository's line, behind `repo`.
fn read_parts(alloc: Global, bytes: &[u8]) -> Result<Option<RepoView>, NoMemory>
    ensures { IfOk result (λ o. o ≡ option_map a_repo (repo_parts.read bytes.now)) }
{
    let Some((name, rest)) = cut(bytes, b' ') else {
        return Ok(None);
    };
    if !is_name(name) {
        return Ok(None);
    }
    let Some((id, (offset, (version, locks)))) = read_set_up(rest) else {
        return Ok(None);
    };
    let name = Text::new(alloc, name)?;
    Ok(Some(RepoView {
        name,
        id,
        offset,
        version,
        locks,
    }))
}

/// A repository, by its line: its name, its identifier, how far its clock is ahead, the version of the protocol, and
/// whether it gives holds.
pub fn read_repo_line(alloc: Global, line: &[u8]) -> Result<Option<RepoView>, NoMemory>
    ensures { IfOk result (λ o. o ≡ repo_form.read line.now) }
{
    let Some(bytes) = behind(line, b"repo ") else {
        return Ok(None);
    };
    if let Some(repo) = read_parts(alloc, bytes)? {
        return Ok(Some(repo));
    }
    Ok(None)
}

fn is_named(repo: &RepoView, name: &[u8]) -> bool
    ensures { result ≡ bytes_eq repo.now.name name.now }
{
    repo.name.bytes() == name
}

fn has_name(repos: &[RepoView], name: &[u8]) -> bool
    ensures { result ≡ list_any (λ repo. bytes_eq repo.name name.now) repos.now }
{
    repos.iter().any(|repo| is_named(repo, name))
}

/// Whether none of the repositories has the name of this one.
pub fn is_new(repos: &[RepoView], repo: &RepoView) -> bool
    ensures { result ≡ is_new repos.now repo.now }
{
    !has_name(repos, repo.name.bytes())
}
