//! Whether a transfer has a step.
ghost use Rattle.std.specs.Prelude.{◌≡◌, ◌*◌, ◌<◌, None, length, IfOk};
ghost use Rattle.node_ends.specs.Ends.{name_of, room_at};
ghost use Rattle.transfer_turns.specs.Turns.{awaited};
ghost use Rattle.transfer_worker.specs.Workers.{CanStep, work_of};
ghost use Rattle.transfer_turns.specs.Partners.{TalksApart};
ghost use Rattle.node_transfers.specs.Ready.{Answers, NamesPeer, sight_of};

use crate::reach::{Reach, is_open};
use annex_base::NoMemory;
use end_hearing::{Arrival, hear, nothing};
use node_ends::{EndId, Ends, ends_are_there, frames_wait_at_ends};
use std::alloc::Global;
use transfer_worker::{Worker, sends_to};

/// What a transfer of the repository of this number among so many is told, where it has a step: the frame that it awaits, where
/// one waits and its end has room, or that the connection is closed; or nothing, where it awaits none, and there is room for what
/// it may send.
pub fn ready(
    worker: &Worker,
    alloc: Global,
    repo: u32,
    count: u32,
    ends: &mut Ends,
) -> Result<Option<Arrival>, NoMemory>
    requires among { repo < count }
    requires links { length ends.old ≡ count * 8 }
    requires can { CanStep (sight_of repo count ends.old) worker.now }
    requires slot { (work_of worker.now).slot < 4 }
    requires names { NamesPeer repo count (work_of worker.now) }
    requires apart { TalksApart (sight_of repo count ends.old) (work_of worker.now) }
    ensures answers { IfOk result (Answers repo count ends.old worker.now) }
    ensures same { ends.new ≡ ends.old }
{
    // Laws, for the proof that a look finds the frame that waits at the end.
    ends_are_there();
    frames_wait_at_ends();
    match worker.awaits() {
        Some(peer) => hear(alloc, ends, count, worker.slot(), peer),
        None => Ok(free(worker, repo, count, ends)),
    }
}

/// The same of a transfer that awaits no frame.
fn free(worker: &Worker, repo: u32, count: u32, ends: &mut Ends) -> Option<Arrival>
    requires among { repo < count }
    requires links { length ends.old ≡ count * 8 }
    requires can { CanStep (sight_of repo count ends.old) worker.now }
    requires slot { (work_of worker.now).slot < 4 }
    requires names { NamesPeer repo count (work_of worker.now) }
    requires awaits { awaited (work_of worker.now) ≡ None }
    ensures answers { Answers repo count ends.old worker.now result }
    ensures same { ends.new ≡ ends.old }
{
    // A law, for the proof that a look finds the room of an end.
    ends_are_there();
    let reach = Reach { repo, count, ends };
    let Some(peer) = sends_to(worker, &reach) else {
        return Some(nothing());
    };
    let end = EndId {
        peer,
        slot: worker.slot(),
        client: true,
    };
    if worker.partner().is_some() && !is_open(ends, count, end) {
        return Some(nothing());
    }
    if has_room(ends, count, end) {
        Some(nothing())
    } else {
        None
    }
}

/// Whether the end is there and has room.
fn has_room(ends: &mut Ends, count: u32, end: EndId) -> bool
    requires links { length ends.old ≡ count * 8 }
    ensures room { result ≡ room_at ends.old (name_of end) }
    ensures same { ends.new ≡ ends.old }
{
    // A law, for the proof that the ends of the repositories are there.
    ends_are_there();
    end.slot < 4 && end.peer < count && ends.room(end)
}
