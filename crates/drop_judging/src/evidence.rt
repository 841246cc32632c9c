//! What the end of a drop states: its evidence, and why candidates gave none.
ghost use Rattle.std.specs.Prelude.{◌≡◌, ◌==◌, ◌&&◌, true, false, Some, None, IfOk};
ghost use Rattle.std.specs.List.{list_any};
ghost use Rattle.node_model.specs.Evidence.{proof_of, repos_of, failures};
ghost use Rattle.node_model.specs.Knows.{cause_by};
ghost use Rattle.drop_phases.specs.Working.{heard_in, words_of};
ghost use Rattle.drop_judging.specs.Judging.{cause_at, cause_told, offer_of, test_of};

use crate::judging::offer;
use annex_base::{Items, NoMemory, Word};
use drop_phases::{Heard, Here, Standing, Worker, newest};
use drop_proof::{Evidence, Kind};
use run_data::{CandidateCause, Cause, Proof};
use std::alloc::Global;

/// The three kinds of evidence.
#[derive(Clone, Copy, Debug, PartialEq, Eq)]
pub enum Sort {
    Locked,
    Trusted,
    Recent,
}

fn is_of(kind: Kind, sort: Sort) -> bool
    ensures { result ≡ test_of sort kind }
{
    match (sort, kind) {
        (Sort::Locked, Kind::Locked { .. }) => true,
        (Sort::Trusted, Kind::Trusted) => true,
        (Sort::Recent, Kind::Recent) => true,
        _ => false,
    }
}

/// Whether some item is the repository's, of this kind.
fn has_item(items: &[Evidence], repo: u32, sort: Sort) -> bool
    ensures { result ≡ list_any (λ i. (i.repo == repo) && test_of sort i.kind) items.now }
{
    items
        .iter()
        .any(|item| item.repo == repo && is_of(item.kind, sort))
}

/// The repositories, in order of number, whose evidence is of this kind.
fn repos_of(alloc: Global, count: u32, items: &[Evidence], sort: Sort) -> Result<Vec<u32>, NoMemory>
    ensures { IfOk result (λ repos. repos.items ≡ repos_of (test_of sort) count items.now) }
{
    let mut repos = Vec::new(alloc);
    for repo in 0..count {
        if has_item(items, repo, sort) {
            repos.push(repo)?;
        }
    }
    Ok(repos)
}

/// The evidence as an outcome states it.
pub fn proof<H: Here>(alloc: Global, here: &H, items: &[Evidence]) -> Result<Proof, NoMemory>
    ensures { IfOk result (λ p. p ≡ proof_of (H.reading here.now).count (H.reading here.now).need items.now) }
{
    let count = here.count();
    let locked = repos_of(alloc, count, items, Sort::Locked)?;
    let trusted = repos_of(alloc, count, items, Sort::Trusted)?;
    let recent = repos_of(alloc, count, items, Sort::Recent)?;
    Ok(Proof {
        need: here.need(),
        locked: Items::from_vec(locked),
        trusted: Items::from_vec(trusted),
        recent: Items::from_vec(recent),
    })
}

/// Why a candidate of which this was heard gave nothing.
fn cause_told(heard: Option<Heard>) -> Cause
    ensures { result ≡ cause_told heard }
{
    match heard {
        Some(Heard::Lacks(cause)) => cause,
        Some(
            Heard::Unseen {
                word: Some(Word::Absent),
            },
        ) => Cause::Absent,
        Some(
            Heard::Unseen {
                word: Some(Word::Barred),
            },
        ) => Cause::Barred,
        _ => Cause::Fault,
    }
}

/// Why a candidate gave nothing.
fn cause<H: Here>(worker: &Worker, here: &H, candidate: u32) -> Cause
    ensures { result ≡ cause_at (H.reading here.now) worker.now candidate }
{
    match here.standing(candidate) {
        Standing::Ignored(cause) => cause,
        Standing::Claimed | Standing::Asked => cause_told(newest(worker.heard(), candidate)),
    }
}

/// The candidates that gave nothing, in order, each with its cause.
pub fn failures<H: Here>(
    worker: &Worker,
    alloc: Global,
    here: &H,
    candidates: &[u32],
) -> Result<Vec<CandidateCause>, NoMemory>
    ensures { IfOk result (λ causes. causes.items ≡ failures (offer_of (H.reading here.now) worker.now) (cause_at (H.reading here.now) worker.now) candidates.now) }
{
    let mut causes = Vec::new(alloc);
    for c in candidates.iter() {
        if offer(worker, here, *c).is_none() {
            let cause = cause(worker, here, *c);
            causes.push(CandidateCause { repo: *c, cause })?;
        }
    }
    Ok(causes)
}
