//! The evidence of a drop as its outcome states it.
ghost use Rattle.std.specs.Prelude.{◌≡◌, ◌==◌, ◌&&◌, IfOk};
ghost use Rattle.std.specs.List.{list_any};
ghost use Rattle.node_model.specs.Evidence.{proof_of, repos_of};
ghost use Rattle.node_model.specs.Knows.{denial_of, obeyed_outcome};
ghost use Rattle.drop_makes.specs.Items.{kind_of, test_of};

use crate::item::{Given, Item};
use annex_base::{Items, NoMemory, Word};
use drop_proof::Need;
use run_data::{Denial, Outcome, Proof};
use std::alloc::Global;

/// The three kinds of evidence.
#[derive(Clone, Copy, Debug)]
pub(crate) enum Sort {
    Locked,
    Trusted,
    Recent,
}

fn is_of(kind: Given, sort: Sort) -> bool
    ensures { result ≡ test_of sort (kind_of kind) }
{
    match (sort, kind) {
        (Sort::Locked, Given::Locked { .. }) => true,
        (Sort::Trusted, Given::Trusted) => true,
        (Sort::Recent, Given::Recent) => true,
        _ => false,
    }
}

/// Whether some item is the repository's, of this kind.
fn has_item(items: &[Item], repo: u32, sort: Sort) -> bool
    ensures { result ≡ list_any (λ i. (i.repo == repo) && test_of sort i.kind) items.now }
{
    items
        .iter()
        .any(|item| item.repo() == repo && is_of(item.kind(), sort))
}

/// The repositories, in order of number, whose evidence is of this kind.
fn repos_of(alloc: Global, count: u32, items: &[Item], sort: Sort) -> Result<Vec<u32>, NoMemory>
    ensures { IfOk result (λ repos. repos.items ≡ repos_of (test_of sort) count items.now) }
{
    Ok(
        (0..count)
            .filter(|repo| has_item(items, *repo, sort))
            .collect(alloc)?,
    )
}

/// The evidence as an outcome states it.
pub(crate) fn proof(
    alloc: Global,
    count: u32,
    need: Need,
    items: &[Item],
) -> Result<Proof, NoMemory>
    ensures { IfOk result (λ p. p ≡ proof_of count need items.now) }
{
    let locked = repos_of(alloc, count, items, Sort::Locked)?;
    let trusted = repos_of(alloc, count, items, Sort::Trusted)?;
    let recent = repos_of(alloc, count, items, Sort::Recent)?;
    Ok(Proof {
        need,
        locked: Items::from_vec(locked),
        trusted: Items::from_vec(trusted),
        recent: Items::from_vec(recent),
    })
}

/// The outcome of a drop whose order was obeyed, by the word beside the answer.
pub(crate) fn obeyed_outcome(word: Option<Word>, proof: Proof) -> Outcome
    ensures { result ≡ obeyed_outcome word proof }
{
    match word {
        Some(Word::Absent) => Outcome::DroppedAbsent(proof),
        _ => Outcome::Dropped(proof),
    }
}

/// Why the target refused an order, by the word beside the refusal.
pub(crate) fn denial_of(word: Option<Word>) -> Denial
    ensures { result ≡ denial_of word }
{
    match word {
        Some(Word::Late) => Denial::Late,
        Some(Word::Barred) => Denial::Barred,
        Some(Word::Held) => Denial::Held,
        _ => Denial::Fault,
    }
}
