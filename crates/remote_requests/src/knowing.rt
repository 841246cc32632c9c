//! What a remote drop knows of the copies.
ghost use Rattle.std.specs.Prelude.{◌≡◌, ◌<◌, ◌^◌, length, IfOk};
ghost use Rattle.drop_proof.specs.Judging.{least_end};
ghost use Rattle.remote_requests.specs.Remote.{known_remotely, remote_candidates};

use annex_base::NoMemory;
use drop_judging::gather;
use drop_phases::{Here, Worker};
use drop_proof::{Evidence, Side};
use std::alloc::Global;

/// The candidates of a remote drop: its own repository, and then the others but the target.
pub fn candidates<H: Here>(alloc: Global, here: &H, target: u32) -> Result<Vec<u32>, NoMemory>
    ensures all { IfOk result (λ cs. cs.items ≡ remote_candidates (H.reading here.now) target) }
    ensures few { IfOk result (λ cs. length cs.items < 2 ^ 32) }
{
    let mut found = Vec::new(alloc);
    let count = here.count();
    let repo = here.repo();
    found.push(repo)?;
    for c in 0..count {
        if c != repo && c != target {
            found.push(c)?;
        }
    }
    Ok(found)
}

/// The least end of the locks among the evidence, in milliseconds of the clock.
pub fn first_end(items: &[Evidence]) -> Option<u64>
    ensures { result ≡ least_end items.now }
{
    items.iter().filter_map(|item| item.kind.end()).min()
}

/// The least end of the locks that a remote drop has.
pub fn locks_end<H: Here>(
    worker: &Worker,
    alloc: Global,
    here: &H,
    target: u32,
) -> Result<Option<u64>, NoMemory>
    ensures { IfOk result (λ end. end ≡ least_end (known_remotely (H.reading here.now) target worker.now)) }
{
    let candidates = candidates(alloc, here, target)?;
    let items = gather(worker, alloc, here, Side::Remote, &candidates)?;
    Ok(first_end(&items))
}
