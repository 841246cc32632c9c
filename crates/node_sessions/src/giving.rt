//! The next piece of a content.
ghost use Rattle.std.specs.Prelude.{◌≡◌, ◌≤◌, ◌+◌, ◌<◌, ◌^◌, ℕ, Bool, List, true, false, Some, None, IfOk, OnErr};
ghost use Rattle.std.specs.Option.{ForSome, option_map};
ghost use Rattle.link_ring.specs.Ends.{EndView};
ghost use Rattle.content_lock.specs.Rows.{Rows};
ghost use Rattle.p2p_server.specs.Answers.{LeavesContents, as_said};
ghost use Rattle.node_model.specs.Look.{failed_in};
ghost use Rattle.p2p_server.specs.Bounds.{FitsMore, IsKind};
ghost use Rattle.p2p_server.specs.Giving.{failed_more, is_giving, reply_more};
ghost use Rattle.p2p_server.specs.Stepping.{moment_of};
ghost use Rattle.p2p_server.specs.Talking.{session_of};
ghost use Rattle.node_sessions.specs.Moments.{GivesAt, IsReady, MakesSo, Serves};
ghost use Rattle.node_sessions.specs.Pieces.{SaysGiven};
ghost use Rattle.node_sessions.specs.Serving.{IsTalk, reply_by};

use crate::room::Room;
use crate::served::Served;
use annex_base::{NoMemory, Text};
use node_ends::Sending;
use object_store::Keeper;
use p2p_server::{More, Place, Session};
use run_data::EntryKind;
use std::alloc::Global;

/// What a session serves unasked.
fn unasked(place: &Place, kind: EntryKind, reply: Option<Sending>, close: bool) -> Served
    ensures { result ≡ record { peer = place.now.peer; slot = place.now.slot; takes = false; kind = kind; reply = reply; close = close; word = None } }
{
    Served {
        peer: place.peer,
        slot: place.slot,
        takes: false,
        kind,
        reply,
        close,
        word: None,
    }
}

/// What a session serves that gives this.
fn given(place: &Place, room: Room, more: More) -> Served
    requires some { more ≡ More.Nothing → ⊥ }
    requires short { FitsMore more }
    ensures at { (result.peer ≡ place.now.peer) × (result.slot ≡ place.now.slot) }
    ensures takes { result.takes ≡ false }
    ensures reply { option_map as_said (reply_more place.now more) ≡ Some (reply_by result) }
    ensures fails { failed_in result.kind ≡ failed_more more }
    ensures kind { (number : ℕ) → IsKind number result.kind }
    ensures leaves { LeavesContents result.kind }
    ensures talk { ForSome result.reply IsTalk }
    ensures piece { SaysGiven more result.reply }
    ensures word { result.word ≡ None }
{
    match more {
        More::Piece(bytes) => {
            let piece = Sending::Bytes(Text::from_vec(bytes));
            unasked(place, EntryKind::Talk { job: None }, Some(piece), false)
        }
        More::Last(message) => {
            let line = room.line(&message);
            unasked(place, EntryKind::Talk { job: None }, Some(line), false)
        }
        More::Gone => {
            let kind = EntryKind::Close {
                peer: place.peer,
                slot: place.slot,
                client: false,
            };
            unasked(place, kind, None, true)
        }
        More::Fault(call) => {
            let by = place.owner();
            unasked(place, EntryKind::Fault { call, by }, None, true)
        }
        More::Nothing => unreachable!(),
    }
}

/// The next piece of the content that a session is sending, or its end.
pub(crate) fn give<K: Keeper>(
    session: &mut Session,
    alloc: Global,
    keeper: &mut K,
) -> Result<Served, NoMemory>
    requires gives { is_giving (session_of session.old).doing ≡ true }
    ensures serves { IfOk result (λ v. (links : List EndView) (rows : Rows) (clock number : ℕ) → GivesAt links session.old
        → IsReady number (moment_of session.old rows (K.contents keeper.old) (K.parts keeper.old) (K.records keeper.old) (K.faults keeper.old)) → Serves links clock number
        (moment_of session.old rows (K.contents keeper.old) (K.parts keeper.old) (K.records keeper.old) (K.faults keeper.old))
        (moment_of session.new rows (K.contents keeper.new) (K.parts keeper.new) (K.records keeper.new) (K.faults keeper.new)) v) }
    ensures calls { IfOk result (λ v. (links : List EndView) (rows : Rows) (clock number : ℕ) → GivesAt links session.old → MakesSo links clock number
        (moment_of session.old rows (K.contents keeper.old) (K.parts keeper.old) (K.records keeper.old) (K.faults keeper.old)) v (K.failing keeper.old) (K.failing keeper.new)) }
    ensures err { OnErr result (session.new ≡ session.old) }
    ensures err_failing { OnErr result (K.failing keeper.new ≡ K.failing keeper.old) }
    ensures contents { K.contents keeper.new ≡ K.contents keeper.old }
    ensures parts { K.parts keeper.new ≡ K.parts keeper.old }
    ensures records { K.records keeper.new ≡ K.records keeper.old }
    ensures files { K.files keeper.new ≡ K.files keeper.old }
    ensures later { K.faults keeper.old ≤ K.faults keeper.new }
{
    let room = Room::new(alloc)?;
    let more = session.more(alloc, keeper)?;
    let place = session.place();
    Ok(given(&place, room, more))
}
