//! The step of a session: its frames are taken and sent.
ghost use Rattle.std.specs.Prelude.{◌≡◌, ◌≤◌, ◌<◌, ◌++◌, ◌∷◌, ℕ, List, [], true, false, None, IfOk, if◌then◌else◌, is_some, length, vec_capacity, vec_len};
ghost use Rattle.std.specs.declared.option.Option.{Option};
ghost use Rattle.std.specs.Option.{ForSome, option_map};
ghost use Rattle.run_data.specs.declared.entry.EntryKind.{EntryKind};
ghost use Rattle.run_data.specs.declared.entry.FrameText.TheVariants as texts;
ghost use Rattle.run_data.specs.declared.entry.FrameView.{FrameView};
ghost use Rattle.link_ring.specs.Ends.{EndView};
ghost use Rattle.node_model.specs.Ends.{end_took, frames};
ghost use Rattle.p2p_server.specs.Answers.{closes};
ghost use Rattle.node_ends.specs.Ends.{end_at, name_of, room_at, wait_at};
ghost use Rattle.node_ends.specs.Going.{AreAfter};
ghost use Rattle.node_ends.specs.Joined.{StayPaired};
ghost use Rattle.node_ends.specs.Sent.{may_send};
ghost use Rattle.node_sessions.specs.Serving.{IsTalk, ServesAt, ServesIf, end_by, made_by, says_in};
ghost use Rattle.node_sessions.specs.Words.{word_to};
ghost use Rattle.node_parts.specs.Sending.{PostsNothing, PostsOn, PostsOnly, answers_at};
ghost use Rattle.node_parts.specs.Steps.{EndsAfter, made_of};

use crate::done::Done;
use crate::taking::take;
use annex_base::{EntryStamp, Items, NoMemory, Word};
use node_ends::{EndId, Ends, Sending, ends_go_on, room_permits_frames};
use node_sessions::Served;
use run_data::FrameView;
use std::alloc::Global;

/// How many frames a session sends at most in one step: a reply, and a Close behind it.
const MOST_SENT: usize = 2;

/// An empty list with room for the frames of a session's step.
pub(crate) fn listing(alloc: Global) -> Result<Vec<FrameView>, NoMemory>
    ensures empty { IfOk result (λ v. v.items ≡ []) }
    ensures room { IfOk result (λ v. 2 ≤ vec_capacity v) }
{
    Ok(Vec::with_capacity(alloc, MOST_SENT)?)
}

/// Takes the frame that waits at an end with room, if that is to be.
fn take_if(ends: &mut Ends, id: EndId, takes: bool) -> Option<FrameView>
    requires room { room_at ends.old (name_of id) ≡ true }
    requires waits { takes ≡ true → is_some (wait_at ends.old (name_of id)) ≡ true }
    ensures taken { result ≡ (if takes then wait_at ends.old (name_of id) else None) }
    ensures state { end_at ends.new (name_of id) ≡ end_took (end_at ends.old (name_of id)) result }
    ensures line { (line : List ℕ) → may_send ends.new (name_of id) (texts.Line line) ≡ true }
    ensures bytes { (n : ℕ) → may_send ends.new (name_of id) (texts.Bytes n) ≡ true }
    ensures after { AreAfter ends.old ends.new result [] }
    ensures posts { PostsNothing ends.old ends.new result }
    ensures paired { StayPaired ends.old ends.new }
    ensures count { length ends.new ≡ length ends.old }
{
    // Laws, for the proof where nothing is taken: the ends stay, and with room a line and bytes may be sent.
    ends_go_on();
    room_permits_frames();
    if takes { Some(take(ends, id)) } else { None }
}

/// Sends a reply at a server's end, if there is one, and lists it.
fn reply_with(
    ends: &mut Ends,
    id: EndId,
    stamp: EntryStamp,
    word: Option<Word>,
    reply: Option<Sending>,
    listing: Vec<FrameView>,
) -> Vec<FrameView>
    requires server { id.client ≡ false }
    requires line { (line : List ℕ) → may_send ends.old (name_of id) (texts.Line line) ≡ true }
    requires bytes { (n : ℕ) → may_send ends.old (name_of id) (texts.Bytes n) ≡ true }
    requires talk { ForSome reply IsTalk }
    requires empty { listing.items ≡ [] }
    requires room { 2 ≤ vec_capacity listing }
    ensures sent { result.items ≡ frames (name_of id) (end_at ends.old (name_of id)) (says_in reply false) }
    ensures opened { (end_at ends.new (name_of id)).opened ≡ (end_at ends.old (name_of id)).opened }
    ensures shut { frames (name_of id) (end_at ends.old (name_of id)) (says_in reply true) ≡ result.items ++ frames (name_of id) (end_at ends.new (name_of id)) (texts.Closing ∷ []) }
    ensures room { vec_len result < vec_capacity result }
    ensures after { (was : List EndView) (taken : Option FrameView) → AreAfter was ends.old taken [] → AreAfter was ends.new taken result.items }
    ensures posts { (kind : EntryKind) (was : List EndView) (taken : Option FrameView) → word ≡ word_to taken kind → PostsOnly (answers_at (name_of id) reply) stamp kind was ends.old taken [] → PostsOnly (answers_at (name_of id) reply) stamp kind was ends.new taken result.items }
    ensures paired { StayPaired ends.old ends.new }
    ensures count { length ends.new ≡ length ends.old }
{
    let mut sent = listing;
    if let Some(said) = reply {
        sent.push_reserved(ends.send(id, stamp, word, said));
    }
    sent
}

/// Sends a Close, if there is to be one, and lists it behind the others.
pub(crate) fn close_if(
    ends: &mut Ends,
    id: EndId,
    stamp: EntryStamp,
    close: bool,
    sent: Vec<FrameView>,
) -> Vec<FrameView>
    requires opened { close ≡ true → (end_at ends.old (name_of id)).opened ≡ true }
    requires room { vec_len sent < vec_capacity sent }
    ensures sent { result.items ≡ sent.items ++ frames (name_of id) (end_at ends.old (name_of id)) (closes close) }
    ensures after { (was : List EndView) (taken : Option FrameView) → AreAfter was ends.old taken sent.items → AreAfter was ends.new taken result.items }
    ensures posts { PostsOn stamp ends.old ends.new sent.items result.items }
    ensures paired { StayPaired ends.old ends.new }
    ensures count { length ends.new ≡ length ends.old }
{
    // A law, for the proof that an end that is open may send a Close.
    room_permits_frames();
    let mut all = sent;
    if close {
        all.push_reserved(ends.send(id, stamp, None, Sending::Close));
    }
    all
}

/// Takes and sends what a session serves.
fn serve(ends: &mut Ends, stamp: EntryStamp, served: Served, listing: Vec<FrameView>) -> Done
    requires serves { ServesAt ends.old served }
    requires empty { listing.items ≡ [] }
    requires room { 2 ≤ vec_capacity listing }
    ensures made { made_of result ≡ made_by ends.old served }
    ensures owes { result.owes ≡ None }
    ensures after { AreAfter ends.old ends.new result.taken result.sent }
    ensures posts { PostsOnly (answers_at (end_by served) served.reply) stamp result.kind ends.old ends.new result.taken result.sent }
    ensures paired { StayPaired ends.old ends.new }
    ensures count { length ends.new ≡ length ends.old }
{
    let Served {
        peer,
        slot,
        takes,
        kind,
        reply,
        close,
        word,
    } = served;
    let id = EndId {
        peer,
        slot,
        client: false,
    };
    let taken = take_if(ends, id, takes);
    let replied = reply_with(ends, id, stamp, word, reply, listing);
    let sent = close_if(ends, id, stamp, close, replied);
    Done {
        kind,
        taken,
        sent: Items::from_vec(sent),
        owes: None,
    }
}

/// Takes and sends what a session serves, if one does. It takes no memory.
pub(crate) fn serve_if(
    ends: &mut Ends,
    stamp: EntryStamp,
    served: Option<Served>,
    listing: Vec<FrameView>,
) -> Option<Done>
    requires serves { ServesIf ends.old served }
    requires empty { listing.items ≡ [] }
    requires room { 2 ≤ vec_capacity listing }
    ensures made { option_map made_of result ≡ option_map (made_by ends.old) served }
    ensures owes { ForSome result (λ d. d.owes ≡ None) }
    ensures after { EndsAfter ends.old ends.new result }
    ensures posts { ForSome result (λ d. ForSome served (λ v. PostsOnly (answers_at (end_by v) v.reply) stamp d.kind ends.old ends.new d.taken d.sent)) }
    ensures paired { StayPaired ends.old ends.new }
    ensures count { length ends.new ≡ length ends.old }
{
    match served {
        None => None,
        Some(served) => Some(serve(ends, stamp, served, listing)),
    }
}
