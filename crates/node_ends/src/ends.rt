//! The ends of a repository.
ghost use Rattle.std.specs.Prelude.{◌≡◌, ◌≢◌, ℕ, ◌*◌, [], ◌∷◌, ◌++◌, List, true, false, None, Some, IfSome, is_some, length, map, replicate};
ghost use Rattle.std.specs.List.{list_any};
ghost use Rattle.std.specs.declared.option.Option.{Option};
ghost use Rattle.std.specs.Option.{ForSome, option_and_then, option_copied, option_map};
ghost use Rattle.link_ring.specs.Ends.{EndView, after_drop, after_take, fresh, has_frames, next_frame};
ghost use Rattle.run_data.specs.declared.entry.FrameView.{FrameView};
ghost use Rattle.run_data.specs.declared.entry.FrameText.TheVariants as texts;
ghost use Rattle.node_model.specs.Ends.{EndName, end_sends, end_takes, frames};
ghost use Rattle.node_ends.specs.Ends.{end_at, frame_at, link_at, name_of, room_at, text_in, wait_at};
ghost use Rattle.node_ends.specs.Going.{AreAfter, IsSent};
ghost use Rattle.node_ends.specs.Joined.{StayPaired};
ghost use Rattle.node_ends.specs.Sent.{IsListed, link_sends, may_send, text_of_sending};

use crate::name::EndId;
use crate::places;
use crate::sending::Sending;
use annex_base::{EntryStamp, Word};
use link_ring::{Frame, Links};
use run_data::FrameView;
use std::marker::Model;

/// The ends of a repository's connections, which contracts see as a list in the order of `link_ring::end_place` (own).
#[derive(Debug, Drop)]
pub struct Ends {
    pub(crate) links: Links,
}

impl Model for Ends {
    ghost use Rattle.std.specs.Prelude.{◌≡◌, List, true};
    ghost use Rattle.link_ring.specs.Ends.{EndView};
    ghost use Rattle.node_ends.specs.Invariant.{each_may_close};

    ghost Value = { List EndView };

    ghost view = { λ e. e.links.ends.items };

    ghost invariant = { λ e. each_may_close e.links.ends.items ≡ true };
}

impl Ends {
    /// Ends that were never open, as `link_ring::make_links` gives them for so many repositories.
    pub fn new(links: Links, repositories: usize) -> Ends
        requires { links.ends.items ≡ replicate (repositories * 8) fresh }
        ensures { result ≡ links.ends.items }
    {
        Ends { links }
    }

    /// Whether the end is open.
    pub fn is_open(&self, id: EndId) -> bool
        requires there { is_some (link_at self.now (name_of id)) ≡ true }
        ensures { result ≡ (end_at self.now (name_of id)).opened }
    {
        places::is_open(&self.links.ends, id)
    }

    /// Whether there is room for a frame and a Close: two places, and numbers for both and for an opening.
    pub fn room(&mut self, id: EndId) -> bool
        requires there { is_some (link_at self.old (name_of id)) ≡ true }
        ensures room { result ≡ room_at self.old (name_of id) }
        ensures same { self.new ≡ self.old }
    {
        places::has_room(&mut self.links.ends, id)
    }

    /// The frame that waits at the end, and that `take` takes next.
    pub fn waiting(&self, id: EndId) -> Option<&Frame>
        requires there { is_some (link_at self.now (name_of id)) ≡ true }
        ensures waits { option_map (frame_at (name_of id)) (option_copied result) ≡ wait_at self.now (name_of id) }
        ensures first { IfSome result (λ f. option_and_then next_frame (link_at self.now (name_of id)) ≡ Some f.now) }
    {
        places::waiting(&self.links.ends, id)
    }

    /// Whether a frame is at hand at one of the ends. Where none is, `drop_old` changes nothing.
    pub fn have_frames(&self) -> bool
        ensures any { result ≡ list_any has_frames self.now }
        ensures kept { result ≡ false → map after_drop self.now ≡ self.now }
    {
        places::have_frames(&self.links.ends)
    }

    /// Takes the frame that waits at the end. The end has room, so that a Close has its place when it is open.
    pub fn take(&mut self, id: EndId) -> Frame
        requires room { room_at self.old (name_of id) ≡ true }
        requires waits { is_some (wait_at self.old (name_of id)) ≡ true }
        ensures frame { Some (frame_at (name_of id) result) ≡ wait_at self.old (name_of id) }
        ensures first { Some result ≡ option_and_then next_frame (link_at self.old (name_of id)) }
        ensures state { end_at self.new (name_of id) ≡ end_takes (end_at self.old (name_of id)) result.epoch (text_in result.body) }
        ensures link { link_at self.new (name_of id) ≡ option_map after_take (link_at self.old (name_of id)) }
        ensures others { (b : EndName) → b ≢ name_of id → link_at self.new b ≡ link_at self.old b }
        ensures count { length self.new ≡ length self.old }
        ensures after { AreAfter self.old self.new (Some (frame_at (name_of id) result)) [] }
        ensures line { (line : List ℕ) → may_send self.new (name_of id) (texts.Line line) ≡ true }
        ensures bytes { (n : ℕ) → may_send self.new (name_of id) (texts.Bytes n) ≡ true }
        ensures paired { StayPaired self.old self.new }
    {
        places::take(&mut self.links.ends, id)
    }

    /// Sends this at the end, which an Open opens first, and gives the frame as the entry lists it. It takes no memory.
    pub fn send(
        &mut self,
        id: EndId,
        sender: EntryStamp,
        word: Option<Word>,
        said: Sending,
    ) -> FrameView
        requires may { may_send self.old (name_of id) (text_of_sending said) ≡ true }
        requires listed { IsListed said }
        ensures view { frames (name_of id) (end_at self.old (name_of id)) (text_of_sending said ∷ []) ≡ result ∷ [] }
        ensures state { end_at self.new (name_of id) ≡ end_sends (end_at self.old (name_of id)) (text_of_sending said) }
        ensures link { link_at self.new (name_of id) ≡ option_map (link_sends sender word said) (link_at self.old (name_of id)) }
        ensures others { (b : EndName) → b ≢ name_of id → link_at self.new b ≡ link_at self.old b }
        ensures count { length self.new ≡ length self.old }
        ensures after { (was : List EndView) (taken : Option FrameView) (sent : List FrameView) → AreAfter was self.old taken sent → AreAfter was self.new taken (sent ++ result ∷ []) }
        ensures paired { StayPaired self.old self.new }
    {
        let listed = places::send(&mut self.links.ends, id, sender, word, said);
        listed
    }

    /// Sends this at the end where it may, as `send` does. Where it may not, nothing changes and nothing is sent. It takes no
    /// memory.
    pub fn post(
        &mut self,
        id: EndId,
        sender: EntryStamp,
        word: Option<Word>,
        said: Sending,
    ) -> Option<FrameView>
        requires there { is_some (link_at self.old (name_of id)) ≡ true }
        requires listed { IsListed said }
        ensures gives { is_some result ≡ may_send self.old (name_of id) (text_of_sending said) }
        ensures sent { ForSome result (IsSent (name_of id) sender word said self.old self.new) }
        ensures kept { may_send self.old (name_of id) (text_of_sending said) ≡ false → (result ≡ None) × (self.new ≡ self.old) }
        ensures paired { StayPaired self.old self.new }
        ensures count { length self.new ≡ length self.old }
        ensures there { (a : EndName) → is_some (link_at self.new a) ≡ is_some (link_at self.old a) }
    {
        places::post(&mut self.links.ends, id, sender, word, said)
    }

    /// Drops, at each end, the frames that are never taken: of an older epoch, or of one that the end has closed. It takes no
    /// memory.
    pub fn drop_old(&mut self)
        ensures ends { self.new ≡ map after_drop self.old }
        ensures waits { (a : EndName) → wait_at self.new a ≡ wait_at self.old a }
        ensures room { (a : EndName) → room_at self.new a ≡ room_at self.old a }
        ensures stand { (a : EndName) → end_at self.new a ≡ end_at self.old a }
        ensures there { (a : EndName) → is_some (link_at self.new a) ≡ is_some (link_at self.old a) }
        ensures count { length self.new ≡ length self.old }
        ensures paired { StayPaired self.old self.new }
    {
        places::drop_old(&mut self.links.ends);
    }
}
