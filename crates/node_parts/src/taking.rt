//! Frames are taken at an end.
ghost use Rattle.std.specs.Prelude.{◌≡◌, ◌≢◌, ℕ, List, [], Some, true, is_some, length};
ghost use Rattle.run_data.specs.declared.entry.FrameText.TheVariants as texts;
ghost use Rattle.node_model.specs.Ends.{EndName, end_took};
ghost use Rattle.node_ends.specs.Ends.{end_at, frame_at, link_at, name_of, room_at, text_in, wait_at};
ghost use Rattle.node_ends.specs.Going.{AreAfter};
ghost use Rattle.node_ends.specs.Joined.{StayPaired};
ghost use Rattle.node_ends.specs.Sent.{may_send};
ghost use Rattle.node_parts.specs.Sending.{PostsNothing};

use link_ring::{Body, Frame};
use node_ends::{EndId, Ends};
use run_data::{FrameText, FrameView};

fn text_of(body: Body) -> FrameText
    ensures { result ≡ text_in body }
{
    match body {
        Body::Open => FrameText::Opening,
        Body::Line(line) => FrameText::Line(line),
        Body::Bytes(bytes) => FrameText::Bytes(bytes.bytes().len() as u64),
        Body::Close => FrameText::Closing,
    }
}

/// A frame that was taken at this end, as the entry lists it.
fn view_of(id: EndId, frame: Frame) -> FrameView
    ensures { result ≡ frame_at (name_of id) frame }
{
    let Frame {
        sender: _,
        epoch,
        seq,
        word: _,
        body,
    } = frame;
    FrameView {
        peer: id.peer,
        slot: id.slot,
        up: !id.client,
        epoch,
        seq,
        body: text_of(body),
    }
}

/// Takes the frame that waits at an end with room, and gives it as the entry lists it.
pub(crate) fn take(ends: &mut Ends, id: EndId) -> FrameView
    requires room { room_at ends.old (name_of id) ≡ true }
    requires waits { is_some (wait_at ends.old (name_of id)) ≡ true }
    ensures taken { Some result ≡ wait_at ends.old (name_of id) }
    ensures state { end_at ends.new (name_of id) ≡ end_took (end_at ends.old (name_of id)) (Some result) }
    ensures others { (b : EndName) → b ≢ name_of id → link_at ends.new b ≡ link_at ends.old b }
    ensures line { (line : List ℕ) → may_send ends.new (name_of id) (texts.Line line) ≡ true }
    ensures bytes { (n : ℕ) → may_send ends.new (name_of id) (texts.Bytes n) ≡ true }
    ensures after { AreAfter ends.old ends.new (Some result) [] }
    ensures posts { PostsNothing ends.old ends.new (Some result) }
    ensures paired { StayPaired ends.old ends.new }
    ensures count { length ends.new ≡ length ends.old }
{
    view_of(id, ends.take(id))
}
