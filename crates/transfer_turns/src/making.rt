//! The entries and parcels that steps make.
ghost use Rattle.std.specs.Prelude.{◌≡◌, ◌∷◌, [], true, false, Some, IfOk};
ghost use Rattle.transfer_turns.specs.Turns.{ArePartings, output_of};

use crate::here::Here;
use crate::parcels::{Output, Parcel, ParcelBody, Sends};
use annex_base::{Call, NoMemory};
use run_data::{By, EntryKind, Outcome};
use std::alloc::Global;

/// The kind of an entry that says something at most.
pub fn talk(job: u32) -> EntryKind
    ensures { result ≡ EntryKind.Talk (Some job) }
{
    EntryKind::Talk { job: Some(job) }
}

/// Nothing is sent, and the job goes on.
pub fn quietly(alloc: Global, kind: EntryKind) -> Output
    ensures { result ≡ output_of kind [] false }
{
    Output {
        kind,
        sends: Sends::new(alloc),
        ended: false,
    }
}

/// A call of the store failed, and the job goes on.
pub fn failing(alloc: Global, number: u32, call: Call) -> Output
    ensures { result ≡ output_of (EntryKind.Fault call (By.Job number)) [] false }
{
    quietly(
        alloc,
        EntryKind::Fault {
            call,
            by: By::Job(number),
        },
    )
}

/// A peer is sent something, by an entry of this kind.
pub fn telling(
    alloc: Global,
    kind: EntryKind,
    peer: u32,
    body: ParcelBody,
) -> Result<Output, NoMemory>
    ensures { IfOk result (λ out. out ≡ output_of kind (record { peer = peer; body = body } ∷ []) false) }
{
    let mut sends = Sends::new(alloc);
    sends.push(Parcel { peer, body })?;
    Ok(Output {
        kind,
        sends,
        ended: false,
    })
}

/// The connection with a peer is closed, since what came isn't permitted or is no more.
pub fn closing(alloc: Global, number: u32, peer: u32) -> Result<Output, NoMemory>
    ensures { IfOk result (λ out. out ≡ output_of (EntryKind.Talk (Some number)) (record { peer = peer; body = ParcelBody.Close } ∷ []) false) }
{
    telling(alloc, talk(number), peer, ParcelBody::Close)
}

/// The job ends so.
pub fn ending(number: u32, outcome: Outcome, sends: Sends) -> Output
    ensures { result ≡ record { kind = EntryKind.End number outcome; sends = sends; ended = true } }
{
    Output {
        kind: EntryKind::End {
            job: number,
            outcome,
        },
        sends,
        ended: true,
    }
}

/// The transfer of a move is done with this step, and its drop is to begin.
pub fn done(output: Output) -> Output
    ensures { result ≡ record output { ended = true } }
{
    let Output {
        kind,
        sends,
        ended: _,
    } = output;
    Output {
        kind,
        sends,
        ended: true,
    }
}

/// What is sent at the end: each open connection is closed.
pub fn partings<H: Here>(alloc: Global, here: &H, slot: u32) -> Result<Sends, NoMemory>
    ensures { IfOk result (λ ps. ArePartings (H.sight here.now) slot ps.items) }
{
    let mut parcels = Sends::new(alloc);
    let count = here.count();
    let repo = here.repo();
    for peer in 0..count {
        if peer != repo && here.is_open(peer, slot) {
            parcels.push(Parcel {
                peer,
                body: ParcelBody::Close,
            })?;
        }
    }
    Ok(parcels)
}
