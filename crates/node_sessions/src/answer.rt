//! The answer to a frame.
ghost use Rattle.std.specs.Prelude.{◌≡◌, ◌≤◌, ◌+◌, ◌<◌, ◌^◌, ℕ, Bool, List, All, true, false, Some, None, IfOk, OnErr, is_some};
ghost use Rattle.std.specs.Option.{ForSome};
ghost use Rattle.annex_base.specs.declared.kinds.Call.{Call};
ghost use Rattle.link_ring.specs.Ends.{EndView};
ghost use Rattle.content_lock.specs.Stored.{Agrees};
ghost use Rattle.content_lock.specs.Tokens.{Owns};
ghost use Rattle.run_data.specs.declared.entry.FrameText.{FrameText};
ghost use Rattle.link_ring.specs.declared.frame.Body.TheVariants as bodies;
ghost use Rattle.node_ends.specs.Ends.{text_in};
ghost use Rattle.p2p_server.specs.Answers.{reply_of};
ghost use Rattle.p2p_server.specs.Bounds.{IsReplyIf};
ghost use Rattle.p2p_server.specs.Stepping.{moment_of};
ghost use Rattle.p2p_server.specs.Talking.{Brings, HasFillOf, share_of};
ghost use Rattle.object_store.specs.declared.keeper.HoldRecord.{HoldRecord};
ghost use Rattle.object_store.specs.Stores.{AreSmallParts, Contents, Parts};
ghost use Rattle.std.specs.declared.option.Option.{Option};
ghost use Rattle.node_sessions.specs.Moments.{MakesSo, Serves, WaitsAt};
ghost use Rattle.node_sessions.specs.Pieces.{IsNoPiece};
ghost use Rattle.node_sessions.specs.Serving.{IsTalk, reply_by};
ghost use Rattle.node_sessions.specs.Sessions.{owner_of};
ghost use Rattle.node_sessions.specs.Words.{word_beside};

use crate::room::Room;
use crate::served::Served;
use crate::words::word_beside;
use annex_base::NoMemory;
use content_lock::LockTable;
use end_hearing::heard;
use link_ring::{Body, Frame};
use object_store::Keeper;
use p2p_server::{Incoming, Place, Session, Step, replies_are_short_lines};
use run_data::EntryKind;
use std::alloc::Global;

/// What a session serves that took this, and answers so.
fn answered(place: &Place, incoming: &Incoming, room: Room, step: Step) -> Served
    requires { IsReplyIf step.reply }
    ensures at { (result.peer ≡ place.now.peer) × (result.slot ≡ place.now.slot) }
    ensures takes { result.takes ≡ true }
    ensures kind { result.kind ≡ step.kind }
    ensures close { result.close ≡ step.close }
    ensures reply { reply_by result ≡ reply_of step }
    ensures talk { ForSome result.reply IsTalk }
    ensures line { ForSome result.reply IsNoPiece }
    ensures word { (body : FrameText) → Brings body incoming.now → result.word ≡ word_beside body step.kind }
{
    let Step { kind, reply, close } = step;
    let word = word_beside(incoming, &kind);
    let reply = room.reply(&reply);
    Served {
        peer: place.peer,
        slot: place.slot,
        takes: true,
        kind,
        reply,
        close,
        word,
    }
}

/// The answer to a Close.
fn hang_up(session: &mut Session, table: &mut LockTable) -> Served
    requires owns { Owns (owner_of session.old) (share_of session.old) table.old.holds }
    requires fills { HasFillOf table.old session.old }
    ensures serves { (links : List EndView) (clock number : ℕ) (frame : Frame) (contents : Option Contents) (parts : Option Parts) (records : Option (List HoldRecord)) (faults : ℕ)
        → frame.body ≡ bodies.Close → WaitsAt links session.old frame → Agrees records table.old.holds → All (λ h. h.number < number) table.old.holds
        → Serves links clock number (moment_of session.old table.old contents parts records faults) (moment_of session.new table.new contents parts records faults) result }
    ensures calls { (links : List EndView) (clock number : ℕ) (frame : Frame) (contents : Option Contents) (parts : Option Parts) (records : Option (List HoldRecord)) (faults : ℕ) (failing : Option (Call → ℕ))
        → frame.body ≡ bodies.Close → WaitsAt links session.old frame → MakesSo links clock number (moment_of session.old table.old contents parts records faults) result failing failing }
{
    let place = session.place();
    session.closed(table);
    Served {
        peer: place.peer,
        slot: place.slot,
        takes: true,
        kind: EntryKind::Close {
            peer: place.peer,
            slot: place.slot,
            client: false,
        },
        reply: None,
        close: false,
        word: None,
    }
}

/// The answer to a frame other than a Close.
fn reply_to<K: Keeper>(
    session: &mut Session,
    alloc: Global,
    frame: &Frame,
    table: &mut LockTable,
    keeper: &mut K,
    clock: u64,
    number: u64,
) -> Result<Served, NoMemory>
    requires agrees { Agrees (K.records keeper.old) table.old.holds }
    requires early { clock + 600000 < 2 ^ 62 }
    requires fresh { All (λ h. h.number < number) table.old.holds }
    requires owns { Owns (owner_of session.old) (share_of session.old) table.old.holds }
    requires fills { HasFillOf table.old session.old }
    requires body { frame.now.body ≡ bodies.Close → ⊥ }
    ensures serves { IfOk result (λ v. (links : List EndView) → WaitsAt links session.old frame.now → Serves links clock number
        (moment_of session.old table.old (K.contents keeper.old) (K.parts keeper.old) (K.records keeper.old) (K.faults keeper.old))
        (moment_of session.new table.new (K.contents keeper.new) (K.parts keeper.new) (K.records keeper.new) (K.faults keeper.new)) v) }
    ensures calls { IfOk result (λ v. (links : List EndView) → WaitsAt links session.old frame.now → MakesSo links clock number
        (moment_of session.old table.old (K.contents keeper.old) (K.parts keeper.old) (K.records keeper.old) (K.faults keeper.old)) v (K.failing keeper.old) (K.failing keeper.new)) }
    ensures err { OnErr result ((session.new ≡ session.old) × (table.new ≡ table.old)) }
    ensures err_contents { OnErr result (K.contents keeper.new ≡ K.contents keeper.old) }
    ensures err_parts { OnErr result (K.parts keeper.new ≡ K.parts keeper.old) }
    ensures err_records { OnErr result (K.records keeper.new ≡ K.records keeper.old) }
    ensures err_failing { OnErr result (K.failing keeper.new ≡ K.failing keeper.old) }
    ensures small { AreSmallParts (K.parts keeper.old) → AreSmallParts (K.parts keeper.new) }
    ensures files { K.files keeper.new ≡ K.files keeper.old }
    ensures told { is_some (K.parts keeper.old) ≡ true → is_some (K.contents keeper.new) ≡ is_some (K.contents keeper.old) }
    ensures later { K.faults keeper.old ≤ K.faults keeper.new }
{
    // A law, for the proof that the reply is a line of the protocol.
    replies_are_short_lines();
    let incoming = heard(alloc, &frame.body)?;
    let room = Room::new(alloc)?;
    let step = session.take(alloc, table, keeper, &incoming, clock, number)?;
    let place = session.place();
    Ok(answered(&place, &incoming, room, step))
}

/// The answer to the frame that waits at the session's end.
pub(crate) fn answer<K: Keeper>(
    session: &mut Session,
    alloc: Global,
    frame: &Frame,
    table: &mut LockTable,
    keeper: &mut K,
    clock: u64,
    number: u64,
) -> Result<Served, NoMemory>
    requires agrees { Agrees (K.records keeper.old) table.old.holds }
    requires early { clock + 600000 < 2 ^ 62 }
    requires fresh { All (λ h. h.number < number) table.old.holds }
    requires owns { Owns (owner_of session.old) (share_of session.old) table.old.holds }
    requires fills { HasFillOf table.old session.old }
    ensures serves { IfOk result (λ v. (links : List EndView) → WaitsAt links session.old frame.now → Serves links clock number
        (moment_of session.old table.old (K.contents keeper.old) (K.parts keeper.old) (K.records keeper.old) (K.faults keeper.old))
        (moment_of session.new table.new (K.contents keeper.new) (K.parts keeper.new) (K.records keeper.new) (K.faults keeper.new)) v) }
    ensures calls { IfOk result (λ v. (links : List EndView) → WaitsAt links session.old frame.now → MakesSo links clock number
        (moment_of session.old table.old (K.contents keeper.old) (K.parts keeper.old) (K.records keeper.old) (K.faults keeper.old)) v (K.failing keeper.old) (K.failing keeper.new)) }
    ensures err { OnErr result ((session.new ≡ session.old) × (table.new ≡ table.old)) }
    ensures err_contents { OnErr result (K.contents keeper.new ≡ K.contents keeper.old) }
    ensures err_parts { OnErr result (K.parts keeper.new ≡ K.parts keeper.old) }
    ensures err_records { OnErr result (K.records keeper.new ≡ K.records keeper.old) }
    ensures err_failing { OnErr result (K.failing keeper.new ≡ K.failing keeper.old) }
    ensures small { AreSmallParts (K.parts keeper.old) → AreSmallParts (K.parts keeper.new) }
    ensures files { K.files keeper.new ≡ K.files keeper.old }
    ensures told { is_some (K.parts keeper.old) ≡ true → is_some (K.contents keeper.new) ≡ is_some (K.contents keeper.old) }
    ensures later { K.faults keeper.old ≤ K.faults keeper.new }
{
    match &frame.body {
        Body::Close => Ok(hang_up(session, table)),
        _ => reply_to(session, alloc, frame, table, keeper, clock, number),
    }
}
