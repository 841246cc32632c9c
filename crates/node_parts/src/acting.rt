//! The step of a job: its frames are taken and sent.
ghost use Rattle.std.specs.Prelude.{◌≡◌, ◌<◌, ◌*◌, [], true, List, length};
ghost use Rattle.std.specs.declared.option.Option.{Option};
ghost use Rattle.run_data.specs.declared.entry.FrameView.{FrameView};
ghost use Rattle.link_ring.specs.Ends.{EndView};
ghost use Rattle.node_model.specs.Ends.{EndName, end_took, sent_at, taken_at};
ghost use Rattle.node_ends.specs.Ends.{end_at, room_at};
ghost use Rattle.node_ends.specs.Going.{AreAfter};
ghost use Rattle.node_ends.specs.Joined.{StayPaired};
ghost use Rattle.job_frames.specs.Sending.{SendsWell, TakesNoOpening};
ghost use Rattle.running_jobs.specs.Waiting.{WaitsFor, taken_by};
ghost use Rattle.running_jobs.specs.TaskActing.{frames_in};
ghost use Rattle.node_parts.specs.Sending.{ArePlaced, IsPosted, PostsOnly, PostsWith, pieces_in};

use crate::done::Done;
use crate::drop_frames::post_drop;
use crate::sending::take_from;
use crate::transfer_frames::post_transfer;
use annex_base::{EntryStamp, Items};
use node_ends::Ends;
use run_data::FrameView;
use running_jobs::{Acted, Sent};

/// Sends what a job's step sends, of a repository among so many, and lists it. It takes no memory.
fn post_sent(
    ends: &mut Ends,
    slot: u32,
    stamp: EntryStamp,
    repositories: u32,
    sent: Sent,
) -> Vec<FrameView>
    requires links { length ends.old ≡ repositories * 8 }
    requires slot { slot < 4 }
    ensures posted { (was : List EndView) (taken : Option FrameView) → IsPosted was taken ends.old [] → IsPosted was taken ends.new result.items }
    ensures posts { PostsWith (pieces_in slot sent) stamp ends.old ends.new [] result.items }
    ensures well { (was : List EndView) (taken : Option FrameView) → IsPosted was taken ends.old [] → TakesNoOpening taken → ArePlaced was taken [] (frames_in was slot sent)
        → result.items ≡ frames_in was slot sent }
    ensures paired { StayPaired ends.old ends.new }
    ensures count { length ends.new ≡ length ends.old }
{
    match sent {
        Sent::ByDrop(sends) => post_drop(ends, slot, stamp, repositories, sends),
        Sent::ByTransfer(sends) => post_transfer(ends, slot, stamp, repositories, sends),
    }
}

/// Takes and sends what a job's step takes and sends, of a repository among so many. It takes no memory.
pub(crate) fn act(ends: &mut Ends, stamp: EntryStamp, repositories: u32, acted: Acted) -> Done
    requires links { length ends.old ≡ repositories * 8 }
    requires slot { acted.slot < 4 }
    requires waits { WaitsFor ends.old acted.slot acted.takes }
    ensures kind { result.kind ≡ acted.kind }
    ensures taken { result.taken ≡ taken_by ends.old acted.slot acted.takes }
    ensures owes { result.owes ≡ acted.owes }

    // Where the definitions' frames have their places, they are what is sent.
    ensures sent { TakesNoOpening result.taken → SendsWell (λ a. end_took (end_at ends.old a) (taken_at a result.taken)) (room_at ends.old) (frames_in ends.old acted.slot acted.sent)
        → result.sent ≡ frames_in ends.old acted.slot acted.sent }
    ensures after { AreAfter ends.old ends.new result.taken result.sent }

    // An end that sends nothing has the room that it had.
    ensures room { TakesNoOpening result.taken → (a : EndName) → room_at ends.old a ≡ true → sent_at a result.sent ≡ [] → room_at ends.new a ≡ true }
    ensures posts { PostsOnly (pieces_in acted.slot acted.sent) stamp result.kind ends.old ends.new result.taken result.sent }
    ensures paired { StayPaired ends.old ends.new }
    ensures count { length ends.new ≡ length ends.old }
{
    let Acted {
        job: _,
        slot,
        takes,
        kind,
        sent,
        ended: _,
        owes,
    } = acted;
    let taken = take_from(ends, slot, takes);
    let listed = post_sent(ends, slot, stamp, repositories, sent);
    Done {
        kind,
        taken,
        sent: Items::from_vec(listed),
        owes,
    }
}
