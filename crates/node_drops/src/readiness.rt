//! Whether a job has a step.
ghost use Rattle.std.specs.Prelude.{◌≡◌, ◌*◌, ◌<◌, ℕ, Bool, List, Some, None, true, is_some, length, IfOk, IfSome};
ghost use Rattle.std.specs.List.{list_all};
ghost use Rattle.annex_base.specs.Lists.{Each};
ghost use Rattle.node_model.specs.Jobs.{partner};
ghost use Rattle.node_ends.specs.Ends.{link_at, room_at};
ghost use Rattle.drop_worker.specs.Begun.{HasBegun, IsOther};
ghost use Rattle.drop_worker.specs.Feeding.{ToldAt};
ghost use Rattle.drop_worker.specs.Leaving.{stands_on};
ghost use Rattle.drop_worker.specs.Sides.{FitsSide, HasTarget, side_in};
ghost use Rattle.drop_worker.specs.Working.{end_in, phase_as};
ghost use Rattle.node_drops.specs.Waiting.{WaitsFor};
ghost use Rattle.node_drops.specs.Feeds.{Answers, IsFedAt, PeersOf};
ghost use Rattle.node_drops.specs.Drops.{HasHeardOwn, HasReadByPhase, place_reading};

use crate::desk::Desk;
use crate::feed::{Feed, bare_feed, heard};
use crate::job::DropJob;
use crate::known::KnownLogs;
use crate::place::{Clock, Place};
use annex_base::NoMemory;
use drop_worker::{Taken, Time, Worker, sends_to};
use node_ends::{EndId, Ends, frames_wait_at_ends};
use std::alloc::Global;

/// What the job is told, where it has a step.
pub fn ready(
    job: &DropJob,
    alloc: Global,
    place: &Place,
    clock: Clock,
    ends: &mut Ends,
    time: Time,
) -> Result<Option<Feed>, NoMemory>
    requires target { HasTarget (side_in job.now.worker) job.now.worker.job.peer (place_reading place.now) }
    requires own { HasHeardOwn place.now job.now.worker }
    requires fits { FitsSide (side_in job.now.worker) job.now.worker.phase job.now.worker.token }
    requires slot { job.now.worker.slot < 4 }
    requires stands { HasReadByPhase place.now job.now.worker.phase job.now.known }
    requires count { length ends.old ≡ length place.now.ids * 8 }
    ensures answers { IfOk result (Answers place.now clock ends.old job.now time) }
    ensures told { IfOk result (λ f. IfSome f (λ feed. ToldAt (stands_on job.now.worker) feed.taken)) }
    ensures fed { IfOk result (λ f. IfSome f (IsFedAt ends.old job.now)) }
    ensures waits { IfOk result (λ f. IfSome f (λ feed. WaitsFor ends.old job.now.worker.slot feed.takes)) }
    ensures same { ends.new ≡ ends.old }
{
    // A law, for the proof that a look finds the frame that waits at the end.
    frames_wait_at_ends();
    match job.worker().awaits() {
        Some(peer) => {
            let slot = job.worker().slot();
            heard(
                alloc,
                ends,
                EndId {
                    peer,
                    slot,
                    client: true,
                },
            )
        }
        None => free(job, alloc, place, clock, ends, time),
    }
}

/// The same of a job that awaits no frame: there must be room where it may send more than a Close.
fn free(
    job: &DropJob,
    alloc: Global,
    place: &Place,
    clock: Clock,
    ends: &mut Ends,
    time: Time,
) -> Result<Option<Feed>, NoMemory>
    requires target { HasTarget (side_in job.now.worker) job.now.worker.job.peer (place_reading place.now) }
    requires own { HasHeardOwn place.now job.now.worker }
    requires fits { FitsSide (side_in job.now.worker) job.now.worker.phase job.now.worker.token }
    requires slot { job.now.worker.slot < 4 }
    requires stands { HasReadByPhase place.now job.now.worker.phase job.now.known }
    requires awaits { stands_on job.now.worker ≡ None }
    requires count { length ends.old ≡ length place.now.ids * 8 }
    ensures answers { IfOk result (Answers place.now clock ends.old job.now time) }
    ensures told { IfOk result (λ f. IfSome f (λ feed. feed.taken ≡ Taken.Nothing)) }
    ensures takes { IfOk result (λ f. IfSome f (λ feed. feed.takes ≡ None)) }
    ensures same { ends.new ≡ ends.old }
{
    match job.known() {
        None => Ok(Some(bare_feed(Taken::Nothing))),
        Some(known) => {
            let peers = peers(job.worker(), alloc, place, clock, known, ends, time)?;
            let roomy = has_rooms(ends, job.worker().slot(), &peers);
            if roomy {
                Ok(Some(bare_feed(Taken::Nothing)))
            } else {
                Ok(None)
            }
        }
    }
}

/// The peers to which a job that knows this may send more than a Close.
fn peers(
    worker: &Worker,
    alloc: Global,
    place: &Place,
    clock: Clock,
    known: &KnownLogs,
    ends: &Ends,
    time: Time,
) -> Result<Vec<u32>, NoMemory>
    requires target { HasTarget (side_in worker.now) worker.now.job.peer (place_reading place.now) }
    requires own { HasHeardOwn place.now worker.now }
    requires fits { FitsSide (side_in worker.now) worker.now.phase worker.now.token }
    requires awaits { stands_on worker.now ≡ None }
    requires count { length ends.now ≡ length place.now.ids * 8 }
    ensures needs { IfOk result (λ peers. PeersOf place.now clock ends.now worker.now known.now time peers.items) }
    ensures others { IfOk result (λ peers. Each (IsOther (place_reading place.now)) peers.items) }
{
    let desk = Desk {
        place,
        clock,
        known,
        ends,
    };
    sends_to(worker, alloc, &desk, time)
}

/// Whether there is room for a frame and a Close at each of these peers.
fn has_rooms(ends: &mut Ends, slot: u32, peers: &[u32]) -> bool
    requires there { Each (λ peer. is_some (link_at ends.old (end_in slot peer)) ≡ true) peers.now }
    ensures room { result ≡ list_all (λ peer. room_at ends.old (end_in slot peer)) peers.now }
    ensures same { ends.new ≡ ends.old }
{
    for peer in peers.iter() {
        if !has_room(ends, slot, *peer) {
            return false;
        }
    }
    true
}

fn has_room(ends: &mut Ends, slot: u32, peer: u32) -> bool
    requires { is_some (link_at ends.old (end_in slot peer)) ≡ true }
    ensures room { result ≡ room_at ends.old (end_in slot peer) }
    ensures same { ends.new ≡ ends.old }
{
    ends.room(EndId {
        peer,
        slot,
        client: true,
    })
}
