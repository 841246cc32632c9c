//! Repositories that gave nothing, each with its cause: the own one first, and then peers in order of number.
ghost use Rattle.std.specs.Prelude.{◌≡◌, ◌<◌, ◌^◌, length, map, IfOk};
ghost use Rattle.journal_reading.specs.Fields.{rises, rises_from};
ghost use Rattle.journal_reading.specs.Kinds.{rank, candidate_form, failure_form, candidates_form, failures_form};

use crate::words::{read_cause, read_source_cause};
use annex_base::{Items, NoMemory};
use journal_fields::{ReadsItem, cut, read_joined, read_repo};
use run_data::{CandidateCause, RepoView, SourceFailure};
use std::alloc::Global;

/// `NAME:CAUSE`
#[tactic(auto, using(crate::proofs::MarkLemmas::unmarked))]
fn read_candidate(repos: &[RepoView], word: &[u8]) -> Option<CandidateCause>
    requires few { length repos.now < 2 ^ 32 }
    ensures { result ≡ (candidate_form repos.now).read word.now }
{
    let (name, cause) = cut(word, b':')?;
    let repo = read_repo(repos, name)?;
    let cause = read_cause(cause)?;
    Some(CandidateCause { repo, cause })
}

/// `NAME:CAUSE`
#[tactic(auto, using(crate::proofs::MarkLemmas::unmarked))]
fn read_failure(repos: &[RepoView], word: &[u8]) -> Option<SourceFailure>
    requires few { length repos.now < 2 ^ 32 }
    ensures { result ≡ (failure_form repos.now).read word.now }
{
    let (name, cause) = cut(word, b':')?;
    let repo = read_repo(repos, name)?;
    let cause = read_source_cause(cause)?;
    Some(SourceFailure { repo, cause })
}

/// Candidates with their causes.
#[derive(Drop)]
struct Candidates<'r> {
    repos: &'r [RepoView],
    ghost few: { length repos.now < 2 ^ 32 },
}

impl ReadsItem<CandidateCause> for Candidates<'_> {
    ghost use Rattle.journal_reading.specs.Kinds.{candidate_form};

    ghost item_of = { λ items word. (candidate_form items.repos.now).read word };

    fn read(&self, word: &[u8]) -> Option<CandidateCause> {
        read_candidate(self.repos, word)
    }
}

/// Sources with the causes for which they failed.
#[derive(Drop)]
struct Failures<'r> {
    repos: &'r [RepoView],
    ghost few: { length repos.now < 2 ^ 32 },
}

impl ReadsItem<SourceFailure> for Failures<'_> {
    ghost use Rattle.journal_reading.specs.Kinds.{failure_form};

    ghost item_of = { λ items word. (failure_form items.repos.now).read word };

    fn read(&self, word: &[u8]) -> Option<SourceFailure> {
        read_failure(self.repos, word)
    }
}

/// What stands in a list in the order of its repositories.
pub(crate) trait OfRepo {
    ghost use Rattle.std.specs.Prelude.{◌≡◌, ℕ};

    /// Its repository's number.
    ghost repo_of: { Self → ℕ };

    fn repo(&self) -> u32
        ensures { result ≡ repo_of self.now };
}

impl OfRepo for CandidateCause {
    ghost repo_of = { λ x. x.repo };

    fn repo(&self) -> u32 {
        self.repo
    }
}

impl OfRepo for SourceFailure {
    ghost repo_of = { λ x. x.repo };

    fn repo(&self) -> u32 {
        self.repo
    }
}

/// The place of a repository in such a list of repository `own`.
fn rank(own: u32, repo: u32) -> u64
    ensures { result ≡ rank own repo }
{
    if own == repo { 0 } else { repo as u64 + 1 }
}

fn rise_from<X: OfRepo>(own: u32, first: u64, items: &[X]) -> bool
    ensures { result ≡ rises_from first (map (λ x. rank own (X.repo_of x)) items.now) }
{
    let mut last = first;
    let mut left = items;
    while let Some((item, after)) = left.split_first() {
        let next = rank(own, item.repo());
        if next <= last {
            return false;
        }
        last = next;
        left = after;
    }
    true
}

/// Whether the own repository stands first, and then each behind those of lower numbers.
fn are_ordered<X: OfRepo>(own: u32, items: &[X]) -> bool
    ensures { result ≡ rises (map (λ x. rank own (X.repo_of x)) items.now) }
{
    match items.split_first() {
        None => true,
        Some((item, rest)) => rise_from(own, rank(own, item.repo()), rest),
    }
}

/// Candidates that gave repository `own` no evidence.
pub(crate) fn read_candidates(
    alloc: Global,
    repos: &[RepoView],
    own: u32,
    word: &[u8],
) -> Result<Option<Items<CandidateCause>>, NoMemory>
    requires few { length repos.now < 2 ^ 32 }
    ensures { IfOk result (λ o. o ≡ (candidates_form repos.now own).read word.now) }
{
    let Some(causes) = read_joined(alloc, b',', &Candidates { repos }, word)? else {
        return Ok(None);
    };
    if are_ordered(own, causes.as_slice()) {
        Ok(Some(causes))
    } else {
        Ok(None)
    }
}

/// Peers that gave repository `own` no content.
pub(crate) fn read_failures(
    alloc: Global,
    repos: &[RepoView],
    own: u32,
    word: &[u8],
) -> Result<Option<Items<SourceFailure>>, NoMemory>
    requires few { length repos.now < 2 ^ 32 }
    ensures { IfOk result (λ o. o ≡ (failures_form repos.now own).read word.now) }
{
    let Some(causes) = read_joined(alloc, b',', &Failures { repos }, word)? else {
        return Ok(None);
    };
    if are_ordered(own, causes.as_slice()) {
        Ok(Some(causes))
    } else {
        Ok(None)
    }
}
