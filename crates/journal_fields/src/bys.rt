//! For whom something was done.
ghost use Rattle.std.specs.Prelude.{◌≡◌, ◌<◌, ◌^◌, length};
ghost use Rattle.journal_reading.specs.Forms.{row_in};
ghost use Rattle.journal_reading.specs.Fields.{of_script, of_job, of_peer, by_form, other_by};

use crate::marks::{behind, cut, read_nothing};
use crate::names::read_repo;
use crate::numbers::read_small;
use run_data::{By, RepoView};

/// `script`
fn read_script(word: &[u8]) -> Option<By>
    ensures { result ≡ row_in word.now of_script }
{
    let rest = behind(word, b"script")?;
    read_nothing(rest)?;
    Some(By::Script)
}

/// `job:NUMBER`
fn read_job(word: &[u8]) -> Option<By>
    ensures { result ≡ row_in word.now of_job }
{
    let number = behind(word, b"job:")?;
    let job = read_small(number)?;
    Some(By::Job(job))
}

/// `peer:NAME.SLOT`
fn read_peer(repos: &[RepoView], word: &[u8]) -> Option<By>
    requires few { length repos.now < 2 ^ 32 }
    ensures { result ≡ row_in word.now (of_peer repos.now) }
{
    let end = behind(word, b"peer:")?;
    let (name, number) = cut(end, b'.')?;
    let peer = read_repo(repos, name)?;
    let slot = read_small(number)?;
    Some(By::Peer { peer, slot })
}

/// For whom something was done: the script, a job, or a peer.
pub fn read_by(repos: &[RepoView], word: &[u8]) -> Option<By>
    requires few { length repos.now < 2 ^ 32 }
    ensures { result ≡ (by_form repos.now).read word.now }
{
    if let Some(by) = read_script(word) {
        return Some(by);
    }
    read_other_by(repos, word)
}

/// A job or a peer for which something was done.
pub fn read_other_by(repos: &[RepoView], word: &[u8]) -> Option<By>
    requires few { length repos.now < 2 ^ 32 }
    ensures { result ≡ (other_by repos.now).read word.now }
{
    if let Some(by) = read_job(word) {
        return Some(by);
    }
    if let Some(by) = read_peer(repos, word) {
        return Some(by);
    }
    None
}
