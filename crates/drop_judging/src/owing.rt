//! The peers that are told of their locks at the end.
ghost use Rattle.std.specs.Prelude.{◌≡◌, ◌&&◌, ◌∷◌, [], filter, IfOk};
ghost use Rattle.annex_base.specs.Lists.{Each};
ghost use Rattle.drop_phases.specs.Begun.{IsOther};
ghost use Rattle.drop_judging.specs.Judging.{is_owing, others_in};

use crate::judging::others;
use annex_base::NoMemory;
use drop_phases::{Here, Worker};
use std::alloc::Global;

/// One peer.
pub fn single(alloc: Global, peer: u32) -> Result<Vec<u32>, NoMemory>
    ensures { IfOk result (λ peers. peers.items ≡ peer ∷ []) }
{
    let mut peers = Vec::new(alloc);
    peers.push(peer)?;
    Ok(peers)
}

/// Whether a peer is told of its lock at the end.
fn is_owing<H: Here>(worker: &Worker, here: &H, peer: u32) -> bool
    ensures { result ≡ is_owing (H.ends here.now) worker.now peer }
{
    worker.has_lock(peer) && here.is_open(peer, worker.slot())
}

/// The peers that are told of their locks at the end.
pub fn locked<H: Here>(worker: &Worker, alloc: Global, here: &H) -> Result<Vec<u32>, NoMemory>
    ensures does { IfOk result (λ peers. peers.items ≡ filter (is_owing (H.ends here.now) worker.now) (others_in (H.reading here.now))) }
    ensures others { IfOk result (λ peers. Each (IsOther (H.reading here.now)) peers.items) }
{
    let candidates = others(alloc, here)?;
    owing(worker, alloc, here, &candidates)
}

fn owing<H: Here>(
    worker: &Worker,
    alloc: Global,
    here: &H,
    candidates: &[u32],
) -> Result<Vec<u32>, NoMemory>
    ensures { IfOk result (λ peers. peers.items ≡ filter (is_owing (H.ends here.now) worker.now) candidates.now) }
{
    let mut peers = Vec::new(alloc);
    for peer in candidates.iter() {
        if is_owing(worker, here, *peer) {
            peers.push(*peer)?;
        }
    }
    Ok(peers)
}
