//! The candidates of a drop.
ghost use Rattle.std.specs.Prelude.{◌≡◌, ◌∷◌, IfOk};
ghost use Rattle.std.specs.List.{range_with_len};
ghost use Rattle.node_model.specs.Evidence.{but, candidates};

use annex_base::NoMemory;
use drop_proof::Side;
use std::alloc::Global;

/// The repositories but one, in order of number.
fn others(alloc: Global, count: u32, repo: u32) -> Result<Vec<u32>, NoMemory>
    ensures { IfOk result (λ cs. cs.items ≡ but repo (range_with_len 0 count)) }
{
    Ok((0..count).filter(|c| *c != repo).collect(alloc)?)
}

/// Those of these that aren't this one.
fn without(alloc: Global, repo: u32, among: &[u32]) -> Result<Vec<u32>, NoMemory>
    ensures { IfOk result (λ cs. cs.items ≡ but repo among.now) }
{
    Ok(among.iter().copied().filter(|c| *c != repo).collect(alloc)?)
}

/// The candidates of a drop of a repository, of which there are so many, from this target.
pub(crate) fn candidates(
    alloc: Global,
    side: Side,
    count: u32,
    repo: u32,
    target: u32,
) -> Result<Vec<u32>, NoMemory>
    ensures { IfOk result (λ cs. cs.items ≡ candidates side count repo target) }
{
    let others = others(alloc, count, repo)?;
    match side {
        Side::Local => Ok(others),
        Side::Remote => own_first(alloc, repo, target, &others),
    }
}

/// The own repository, and then those of these that aren't the target.
fn own_first(alloc: Global, repo: u32, target: u32, others: &[u32]) -> Result<Vec<u32>, NoMemory>
    ensures { IfOk result (λ cs. cs.items ≡ repo ∷ but target others.now) }
{
    let rest = without(alloc, target, others)?;
    let mut found = Vec::new(alloc);
    found.push(repo)?;
    found.extend_from_slice(&rest)?;
    Ok(found)
}
