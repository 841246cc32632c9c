//! The frames of a drop's parcels are sent.
ghost use Rattle.std.specs.Prelude.{◌≡◌, ◌≤◌, ◌<◌, ◌+◌, ◌*◌, ◌++◌, [], List, true, is_some, length, vec_capacity, vec_len};
ghost use Rattle.std.specs.declared.option.Option.{Option};
ghost use Rattle.run_data.specs.declared.entry.FrameView.{FrameView};
ghost use Rattle.link_ring.specs.Ends.{EndView};
ghost use Rattle.node_ends.specs.Ends.{end_at, link_at};
ghost use Rattle.node_ends.specs.Joined.{StayPaired};
ghost use Rattle.drop_phases.specs.Working.{end_in, frames_of};
ghost use Rattle.job_frames.specs.Sending.{TakesNoOpening};
ghost use Rattle.node_parts.specs.Sending.{ArePlaced, IsPosted, PostsOn, frames_of_drop};

use crate::sending::{post, post_last, post_said};
use annex_base::EntryStamp;
use drop_phases::{Parcel, ParcelBody, Sends};
use node_ends::{EndId, Ends, Sending, ends_are_there, room_permits_frames};
use run_data::FrameView;

/// Sends what a parcel has.
fn post_parcel(
    ends: &mut Ends,
    slot: u32,
    stamp: EntryStamp,
    parcel: Parcel,
    sent: &mut Vec<FrameView>,
)
    requires there { is_some (link_at ends.old (end_in slot parcel.peer)) ≡ true }
    requires room { vec_len sent.old + 2 ≤ vec_capacity sent.old }
    ensures posted { (was : List EndView) (taken : Option FrameView) → IsPosted was taken ends.old sent.old.items → IsPosted was taken ends.new sent.new.items }
    ensures posts { PostsOn stamp ends.old ends.new sent.old.items sent.new.items }
    ensures well { (was : List EndView) (taken : Option FrameView) → IsPosted was taken ends.old sent.old.items → TakesNoOpening taken → ArePlaced was taken sent.old.items (frames_of_drop was slot parcel)
        → sent.new.items ≡ sent.old.items ++ frames_of_drop was slot parcel }
    ensures len { vec_len sent.new ≤ vec_len sent.old + 2 }
    ensures capacity { vec_capacity sent.new ≡ vec_capacity sent.old }
    ensures paired { StayPaired ends.old ends.new }
    ensures count { length ends.new ≡ length ends.old }
{
    let Parcel { peer, body } = parcel;
    let id = EndId {
        peer,
        slot,
        client: true,
    };
    match body {
        ParcelBody::Open => post(ends, id, stamp, Sending::Open, sent),
        ParcelBody::Close => post(ends, id, stamp, Sending::Close, sent),
        ParcelBody::Message(said) => post_said(ends, id, stamp, said, sent),
        ParcelBody::Last(said) => post_last(ends, id, stamp, said, sent),
    }
}

/// Sends what a parcel has, if its peer is one of the repositories, of which there are so many.
fn post_to(
    ends: &mut Ends,
    slot: u32,
    stamp: EntryStamp,
    repositories: u32,
    parcel: Parcel,
    sent: &mut Vec<FrameView>,
)
    requires links { length ends.old ≡ repositories * 8 }
    requires slot { slot < 4 }
    requires room { vec_len sent.old + 2 ≤ vec_capacity sent.old }
    ensures posted { (was : List EndView) (taken : Option FrameView) → IsPosted was taken ends.old sent.old.items → IsPosted was taken ends.new sent.new.items }
    ensures posts { PostsOn stamp ends.old ends.new sent.old.items sent.new.items }
    ensures well { (was : List EndView) (taken : Option FrameView) → IsPosted was taken ends.old sent.old.items → TakesNoOpening taken → ArePlaced was taken sent.old.items (frames_of_drop was slot parcel)
        → sent.new.items ≡ sent.old.items ++ frames_of_drop was slot parcel }
    ensures len { vec_len sent.new ≤ vec_len sent.old + 2 }
    ensures capacity { vec_capacity sent.new ≡ vec_capacity sent.old }
    ensures paired { StayPaired ends.old ends.new }
    ensures count { length ends.new ≡ length ends.old }
{
    // Laws, for the proof that the ends of the repositories are there, and that no frame has its place at other ends.
    ends_are_there();
    room_permits_frames();
    if parcel.peer < repositories {
        post_parcel(ends, slot, stamp, parcel, sent);
    }
}

/// Sends what parcels have, one behind the other.
fn post_all(
    ends: &mut Ends,
    slot: u32,
    stamp: EntryStamp,
    repositories: u32,
    parcels: Vec<Parcel>,
    sent: &mut Vec<FrameView>,
)
    requires links { length ends.old ≡ repositories * 8 }
    requires slot { slot < 4 }
    requires room { vec_len sent.old + 2 * vec_len parcels ≤ vec_capacity sent.old }
    ensures posted { (was : List EndView) (taken : Option FrameView) → IsPosted was taken ends.old sent.old.items → IsPosted was taken ends.new sent.new.items }
    ensures posts { PostsOn stamp ends.old ends.new sent.old.items sent.new.items }
    ensures well { (was : List EndView) (taken : Option FrameView) → IsPosted was taken ends.old sent.old.items → TakesNoOpening taken → ArePlaced was taken sent.old.items (frames_of (end_at was) slot parcels.items)
        → sent.new.items ≡ sent.old.items ++ frames_of (end_at was) slot parcels.items }
    ensures paired { StayPaired ends.old ends.new }
    ensures count { length ends.new ≡ length ends.old }
{
    for parcel in parcels {
        post_to(ends, slot, stamp, repositories, parcel, sent);
    }
}

/// Sends what a drop says, of a repository among so many, and lists it. It takes no memory.
pub(crate) fn post_drop(
    ends: &mut Ends,
    slot: u32,
    stamp: EntryStamp,
    repositories: u32,
    sends: Sends,
) -> Vec<FrameView>
    requires links { length ends.old ≡ repositories * 8 }
    requires slot { slot < 4 }
    ensures posted { (was : List EndView) (taken : Option FrameView) → IsPosted was taken ends.old [] → IsPosted was taken ends.new result.items }
    ensures posts { PostsOn stamp ends.old ends.new [] result.items }
    ensures well { (was : List EndView) (taken : Option FrameView) → IsPosted was taken ends.old [] → TakesNoOpening taken → ArePlaced was taken [] (frames_of (end_at was) slot sends.items)
        → result.items ≡ frames_of (end_at was) slot sends.items }
    ensures paired { StayPaired ends.old ends.new }
    ensures count { length ends.new ≡ length ends.old }
{
    let (parcels, listing) = sends.into_parts();
    let mut sent = listing;
    post_all(ends, slot, stamp, repositories, parcels, &mut sent);
    sent
}
