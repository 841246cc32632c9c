//! Repositories by their names, which are looked up one after the other.
ghost use Rattle.std.specs.Prelude.{◌≡◌, ◌<◌, ◌^◌, length};
ghost use Rattle.std.specs.Str.{bytes_eq};
ghost use Rattle.run_text.specs.Names.{name_of};
ghost use Rattle.journal_reading.specs.Forms.{or_dash};
ghost use Rattle.journal_reading.specs.Fields.{repo_number, other_number};

use run_data::RepoView;
use script_words::is_word;

fn is_named(repo: &RepoView, name: &[u8]) -> bool
    ensures { result ≡ bytes_eq repo.now.name name.now }
{
    repo.name.bytes() == name
}

fn position_of(repos: &[RepoView], name: &[u8]) -> Option<usize>
    ensures { result ≡ (repo_number repos.now).read name.now }
{
    repos.iter().position(|repo| is_named(repo, name))
}

/// The number of the repository of this name.
pub fn read_repo(repos: &[RepoView], word: &[u8]) -> Option<u32>
    requires few { length repos.now < 2 ^ 32 }
    ensures { result ≡ (repo_number repos.now).read word.now }
{
    match position_of(repos, word) {
        Some(at) => Some(at as u32),
        None => None,
    }
}

/// The number of another repository of this name.
pub fn read_other(repos: &[RepoView], repo: u32, word: &[u8]) -> Option<u32>
    requires few { length repos.now < 2 ^ 32 }
    ensures { result ≡ (other_number repos.now repo).read word.now }
{
    match read_repo(repos, word) {
        Some(other) if repo != other => Some(other),
        _ => None,
    }
}

/// The number of the repository of this name, or a dash where there is none.
pub fn read_repo_or_dash(repos: &[RepoView], word: &[u8]) -> Option<Option<u32>>
    requires few { length repos.now < 2 ^ 32 }
    ensures { result ≡ (or_dash (repo_number repos.now)).read word.now }
{
    if is_word(word, b"-") {
        return Some(None);
    }
    read_repo(repos, word).map(Some)
}

/// The name of a repository; nothing where there is none of this number.
pub fn repo_name(repos: &[RepoView], repo: u32) -> &[u8]
    ensures { result.now ≡ name_of repos.now repo }
{
    match repos.get(repo as usize) {
        None => &[],
        Some(view) => view.name.bytes(),
    }
}
