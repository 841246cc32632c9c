//! How many copies of a content stand at a place of a run.

ghost use Rattle.std.specs.Prelude.{◌≡◌, reverse, if◌then◌else◌};
ghost use Rattle.run_model.specs.Past.{is_of, present};
ghost use Rattle.node_model.specs.Rows.{present_after};
ghost use Rattle.run_model.specs.Safety.{copies_at, past_at};

use annex_key::Key;
use run_data::{Entry, EntryKind, Run};

/// How many repositories have the content of the key before the place, which is a number of entries; past the end all
/// entries count (own).
#[tactic(auto, using(annex_base::proofs::Pasts::count_range_more))]
pub fn copies(run: &Run, key: &Key, upto: usize) -> usize
    ensures { result ≡ copies_at run.now key.now upto }
{
    let entries = before(run, upto);
    let mut count = 0;
    for repo in 0..run.repos.as_slice().len() {
        if is_present(entries, repo, key) {
            count += 1;
        }
    }
    count
}

/// The entries before a place, in the order of the run; all of them where the place is past the end.
fn before(run: &Run, place: usize) -> &[Entry]
    ensures { reverse result.now ≡ past_at run.now place }
{
    let entries = run.entries.as_slice();
    let (before, _) = entries.split_at(entries.len().min(place));
    before
}

/// Whether the entry is one of the repository.
fn is_of(entry: &Entry, repo: usize) -> bool
    ensures { result ≡ is_of repo entry.now }
{
    match entry.repo {
        Some(number) => number as usize == repo,
        None => false,
    }
}

/// Whether the repository has the content of the key after the entries.
fn is_present(entries: &[Entry], repo: usize, key: &Key) -> bool
    ensures { result ≡ present (reverse entries.now) repo key.now }
{
    let mut has = false;
    for entry in entries {
        has = is_present_after(has, entry, repo, key);
    }
    has
}

/// Whether it has the content after one more entry.
fn is_present_after(has: bool, entry: &Entry, repo: usize, key: &Key) -> bool
    ensures { result ≡ (if is_of repo entry.now then present_after key.now has entry.now.kind else has) }
{
    if !is_of(entry, repo) {
        return has;
    }
    match &entry.kind {
        EntryKind::Gain { key: gained, .. } => has || gained.text() == key.text(),
        EntryKind::Gone { key: gone, .. } => has && gone.text() != key.text(),
        _ => has,
    }
}
