//! What is done at one of the ends, which is found by its place.
ghost use Rattle.std.specs.Prelude.{◌≡◌, ◌<◌, ◌*◌, ◌∷◌, [], true, false, None, Some, is_some, length, map};
ghost use Rattle.std.specs.List.{list_any};
ghost use Rattle.std.specs.Option.{ForSome, option_and_then, option_copied};
ghost use Rattle.link_ring.specs.Ends.{after_drop, after_take, has_frames, next_frame};
ghost use Rattle.link_ring.specs.Places.{end_place};
ghost use Rattle.node_model.specs.Ends.{EndName, frames};
ghost use Rattle.node_ends.specs.Changes.{IsChanged, frame_waiting};
ghost use Rattle.node_ends.specs.Ends.{end_at, link_at, name_of, room_at, wait_at};
ghost use Rattle.node_ends.specs.Going.{IsSent};
ghost use Rattle.node_ends.specs.Invariant.{each_may_close};
ghost use Rattle.node_ends.specs.Joined.{StayPaired};
ghost use Rattle.node_ends.specs.Sent.{IsListed, link_sends, may_send, text_of_sending};

use crate::name::EndId;
use crate::sending::Sending;
use crate::single;
use annex_base::{EntryStamp, Word};
use link_ring::{End, Frame, end_place};
use run_data::FrameView;

pub(crate) fn place_in(ends: &[End], id: EndId) -> usize
    requires there { is_some (link_at ends.now (name_of id)) ≡ true }
    ensures place { result ≡ end_place id.peer id.slot id.client }
    ensures slot { id.slot < 4 }
    ensures within { result < length ends.now }
{
    end_place(id.peer, id.slot, id.client)
}

pub(crate) fn is_open(ends: &[End], id: EndId) -> bool
    requires there { is_some (link_at ends.now (name_of id)) ≡ true }
    ensures { result ≡ (end_at ends.now (name_of id)).opened }
{
    let place = place_in(ends, id);
    single::is_open(&ends[place])
}

pub(crate) fn has_room(ends: &mut Vec<End>, id: EndId) -> bool
    requires there { is_some (link_at ends.old.items (name_of id)) ≡ true }
    ensures room { result ≡ room_at ends.old.items (name_of id) }
    ensures same { ends.new.items ≡ ends.old.items }
{
    let place = place_in(ends, id);
    single::has_room(&mut ends[place])
}

pub(crate) fn waiting(ends: &[End], id: EndId) -> Option<&Frame>
    requires there { is_some (link_at ends.now (name_of id)) ≡ true }
    ensures { option_copied result ≡ option_and_then frame_waiting (link_at ends.now (name_of id)) }
{
    let place = place_in(ends, id);
    single::waiting(&ends[place])
}

pub(crate) fn take(ends: &mut Vec<End>, id: EndId) -> Frame
    requires room { room_at ends.old.items (name_of id) ≡ true }
    requires close { each_may_close ends.old.items ≡ true }
    requires first { is_some (option_and_then next_frame (link_at ends.old.items (name_of id))) ≡ true }
    ensures frame { Some result ≡ option_and_then next_frame (link_at ends.old.items (name_of id)) }
    ensures change { IsChanged (name_of id) after_take ends.old.items ends.new.items }
    ensures close { each_may_close ends.new.items ≡ true }
    ensures paired { StayPaired ends.old.items ends.new.items }
{
    let place = place_in(ends, id);
    single::take(&mut ends[place])
}

pub(crate) fn send(
    ends: &mut Vec<End>,
    id: EndId,
    sender: EntryStamp,
    word: Option<Word>,
    said: Sending,
) -> FrameView
    requires may { may_send ends.old.items (name_of id) (text_of_sending said) ≡ true }
    requires close { each_may_close ends.old.items ≡ true }
    requires listed { IsListed said }
    ensures view { frames (name_of id) (end_at ends.old.items (name_of id)) (text_of_sending said ∷ []) ≡ result ∷ [] }
    ensures change { IsChanged (name_of id) (link_sends sender word said) ends.old.items ends.new.items }
    ensures close { each_may_close ends.new.items ≡ true }
    ensures paired { StayPaired ends.old.items ends.new.items }
{
    let place = place_in(ends, id);
    single::send(&mut ends[place], id, sender, word, said)
}

fn may_send(ends: &mut Vec<End>, id: EndId, said: &Sending) -> bool
    requires there { is_some (link_at ends.old.items (name_of id)) ≡ true }
    ensures may { result ≡ may_send ends.old.items (name_of id) (text_of_sending said.now) }
    ensures same { ends.new.items ≡ ends.old.items }
{
    let place = place_in(ends, id);
    single::may_send(&mut ends[place], said)
}

// Sends it where the end may, and else changes nothing.
pub(crate) fn post(
    ends: &mut Vec<End>,
    id: EndId,
    sender: EntryStamp,
    word: Option<Word>,
    said: Sending,
) -> Option<FrameView>
    requires there { is_some (link_at ends.old.items (name_of id)) ≡ true }
    requires close { each_may_close ends.old.items ≡ true }
    requires listed { IsListed said }
    ensures gives { is_some result ≡ may_send ends.old.items (name_of id) (text_of_sending said) }
    ensures sent { ForSome result (IsSent (name_of id) sender word said ends.old.items ends.new.items) }
    ensures kept { may_send ends.old.items (name_of id) (text_of_sending said) ≡ false → (result ≡ None) × (ends.new.items ≡ ends.old.items) }
    ensures count { length ends.new.items ≡ length ends.old.items }
    ensures there { (a : EndName) → is_some (link_at ends.new.items a) ≡ is_some (link_at ends.old.items a) }
    ensures close { each_may_close ends.new.items ≡ true }
    ensures paired { StayPaired ends.old.items ends.new.items }
{
    if may_send(ends, id, &said) {
        let listed = send(ends, id, sender, word, said);
        Some(listed)
    } else {
        None
    }
}

fn any_has_frames(ends: &[End]) -> bool
    ensures { result ≡ list_any has_frames ends.now }
{
    ends.iter().any(|end: &End| end.has_frames())
}

// Whether a frame is at hand at one of the ends; else no frame is there to be dropped.
pub(crate) fn have_frames(ends: &[End]) -> bool
    ensures any { result ≡ list_any has_frames ends.now }
    ensures kept { result ≡ false → map after_drop ends.now ≡ ends.now }
{
    any_has_frames(ends)
}

// Drops the frames that are never taken, at each end.
fn drop_each(ends: &mut Vec<End>)
    ensures { ends.new.items ≡ map after_drop ends.old.items }
{
    for end in ends.iter_mut() {
        end.drop_old();
    }
}

// The same; no end stands otherwise, nor does anything else wait there.
pub(crate) fn drop_old(ends: &mut Vec<End>)
    requires close { each_may_close ends.old.items ≡ true }
    ensures ends { ends.new.items ≡ map after_drop ends.old.items }
    ensures waits { (a : EndName) → wait_at ends.new.items a ≡ wait_at ends.old.items a }
    ensures room { (a : EndName) → room_at ends.new.items a ≡ room_at ends.old.items a }
    ensures stand { (a : EndName) → end_at ends.new.items a ≡ end_at ends.old.items a }
    ensures there { (a : EndName) → is_some (link_at ends.new.items a) ≡ is_some (link_at ends.old.items a) }
    ensures count { length ends.new.items ≡ length ends.old.items }
    ensures close { each_may_close ends.new.items ≡ true }
    ensures paired { StayPaired ends.old.items ends.new.items }
{
    drop_each(ends);
}
