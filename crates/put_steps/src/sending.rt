//! The bytes of a content, as they are asked for and sent.
ghost use Rattle.std.specs.Prelude.{◌≡◌, ◌∷◌, ◌+◌, ◌<◌, ◌^◌, ◌-◌, min, [], true, false, Some, None, IfOk, IfSome, OnErr, vec_len};
ghost use Rattle.std.specs.Option.{ForSome};
ghost use Rattle.annex_base.specs.declared.kinds.Call.TheVariants as calls;
ghost use Rattle.node_model.specs.Jobs.{puts_more};
ghost use Rattle.node_model.specs.Sessions.{reaches};
ghost use Rattle.node_model.specs.SessionStep.{bytes_left};
ghost use Rattle.content_lock.specs.CallsMade.{MakesCalls};
ghost use Rattle.content_lock.specs.Rows.{Rows};
ghost use Rattle.p2p_wire.specs.Streams.{IsLine};
ghost use Rattle.session_state.specs.declared.incoming.Incoming.TheVariants as incoming;
ghost use Rattle.transfer_turns.specs.Steps.{LeavesAll, LeavesBut, seen};
ghost use Rattle.transfer_turns.specs.Turns.{Sight};
ghost use Rattle.put_steps.specs.Puts.{is_done, phase_of};
ghost use Rattle.put_steps.specs.Putting.{Does};
ghost use Rattle.put_steps.specs.Stepping.{HasBytes, IsLong, IsNext, Told, close_to, failed_next, message_to};

use crate::phase::{Ending, Phase, Sending};
use crate::putting::Putting;
use crate::saying::{say, shut};
use annex_base::{Call, NoMemory};
use annex_key::Key;
use object_store::{Keeper, KeeperFault};
use p2p_wire::Message;
use session_state::PIECE;
use std::alloc::Global;
use transfer_turns::{Here, Output, ParcelBody, talk, telling};

/// What a content has next: a piece, or fewer bytes than were announced; or a call of the store failed.
#[derive(Drop)]
pub(crate) enum Next {
    Piece(Vec<u8>),
    Gone,
    Failed,
}

/// The next piece of a content that is sent.
fn next_of<K: Keeper>(
    alloc: Global,
    keeper: &mut K,
    key: &Key,
    sending: Sending,
) -> Result<Next, NoMemory>
    ensures next { IfOk result (λ n. ForSome (K.contents keeper.old) (λ c. IsNext c key.now sending n)) }
    ensures bytes { IfOk result (λ n. ForSome (K.contents keeper.old) (λ c. HasBytes c key.now sending n)) }
    ensures long { IfOk result (IsLong sending) }
    ensures leaves { IfOk result (λ n. LeavesBut (failed_next n) (seen (K.contents keeper.old) (K.parts keeper.old) (K.records keeper.old) (K.files keeper.old) (K.faults keeper.old) (K.failing keeper.old)) (seen (K.contents keeper.new) (K.parts keeper.new) (K.records keeper.new) (K.files keeper.new) (K.faults keeper.new) (K.failing keeper.new))) }
    ensures calls { IfOk result (λ n. MakesCalls (calls.Read ∷ []) (failed_next n) (K.failing keeper.old) (K.failing keeper.new)) }
    ensures err { OnErr result (LeavesAll (seen (K.contents keeper.old) (K.parts keeper.old) (K.records keeper.old) (K.files keeper.old) (K.faults keeper.old) (K.failing keeper.old)) (seen (K.contents keeper.new) (K.parts keeper.new) (K.records keeper.new) (K.files keeper.new) (K.faults keeper.new) (K.failing keeper.new))) }
{
    let count = sending.left.min(PIECE as u64) as usize;
    let mut room = vec![in alloc; 0; count]?;
    match keeper.read_piece(key, sending.at, &mut room) {
        Ok(read) if read == count => Ok(Next::Piece(room)),
        Ok(_) => Ok(Next::Gone),
        Err(KeeperFault::Failed) => Ok(Next::Failed),
        Err(KeeperFault::NoMemory) => Err(NoMemory),
    }
}

/// The next piece; a content that is gone closes the connection.
pub(crate) fn send<K: Keeper, H: Here>(
    putting: &mut Putting,
    alloc: Global,
    here: &H,
    keeper: &mut K,
    sending: Sending,
) -> Result<Output, NoMemory>
    requires bytes { putting.old.phase ≡ Phase.Bytes sending }
    ensures does { (rows : Rows) → Does (H.sight here.now) None rows (seen (K.contents keeper.old) (K.parts keeper.old) (K.records keeper.old) (K.files keeper.old) (K.faults keeper.old) (K.failing keeper.old)) (seen (K.contents keeper.new) (K.parts keeper.new) (K.records keeper.new) (K.files keeper.new) (K.faults keeper.new) (K.failing keeper.new)) putting.old putting.new result }
{
    if !here.is_open(sending.peer, putting.slot) {
        return Ok(putting.close(alloc));
    }
    let next = next_of(alloc, keeper, putting.key(), sending)?;
    match next {
        Next::Piece(piece) => pass(putting, alloc, sending, piece),
        Next::Gone => shut(putting, alloc, sending.peer),
        Next::Failed => Ok(putting.fail(alloc, Call::Read)),
    }
}

/// A piece is sent.
fn pass(
    putting: &mut Putting,
    alloc: Global,
    sending: Sending,
    piece: Vec<u8>,
) -> Result<Output, NoMemory>
    requires long { vec_len piece ≡ min 32768 sending.left }
    ensures ok { IfOk result (Told putting.old putting.new (record { peer = sending.peer; body = ParcelBody.Piece piece } ∷ []) putting.new.phase putting.old.version) }
    ensures next { IfOk result (λ out. phase_of putting.new.phase ≡ puts_more sending.peer sending.start (sending.at + vec_len piece) (sending.left - vec_len piece)) }
    ensures goes_on { IfOk result (λ out. is_done putting.new.phase ≡ false) }
    ensures err { OnErr result (putting.new ≡ putting.old) }
{
    let count = piece.len() as u64;
    let piece = ParcelBody::Piece(piece);
    let output = telling(alloc, talk(putting.number), sending.peer, piece)?;
    putting.phase = more(
        sending.peer,
        sending.start,
        sending.at + count,
        sending.left - count,
    );
    Ok(output)
}

/// Where it stands with so many bytes left at a place.
fn more(peer: u32, start: u64, at: u64, left: u64) -> Phase
    requires small { at + left < 2 ^ 62 }
    ensures next { phase_of result ≡ puts_more peer start at left }
    ensures goes_on { is_done result ≡ false }
{
    if left == 0 {
        return Phase::Word { peer, start };
    }
    Phase::Bytes(Sending {
        peer,
        start,
        at,
        left,
    })
}

/// PUT-FROM: the bytes from a place on are announced; past the content's size the connection is closed.
pub(crate) fn announce<K: Keeper>(
    putting: &mut Putting,
    alloc: Global,
    keeper: &mut K,
    peer: u32,
    start: u64,
) -> Result<Output, NoMemory>
    requires offer { putting.old.phase ≡ Phase.Offer peer }
    ensures does { (x : Sight) (rows : Rows) → Does x (Some (incoming.Message (Message.PutFrom start))) rows (seen (K.contents keeper.old) (K.parts keeper.old) (K.records keeper.old) (K.files keeper.old) (K.faults keeper.old) (K.failing keeper.old)) (seen (K.contents keeper.new) (K.parts keeper.new) (K.records keeper.new) (K.files keeper.new) (K.faults keeper.new) (K.failing keeper.new)) putting.old putting.new result }
{
    match keeper.size(putting.key()) {
        Ok(size) => answer(putting, alloc, peer, start, size),
        Err(KeeperFault::Failed) => Ok(putting.fail(alloc, Call::Size)),
        Err(KeeperFault::NoMemory) => Err(NoMemory),
    }
}

/// DATA, of a content of this size, if it is there.
fn answer(
    putting: &mut Putting,
    alloc: Global,
    peer: u32,
    start: u64,
    size: Option<u64>,
) -> Result<Output, NoMemory>
    requires small { IfSome size (λ n. n < 2 ^ 62) }
    ensures ok { reaches size start ≡ true → IfOk result (Told putting.old putting.new (message_to peer (Message.Data (bytes_left size start))) putting.new.phase putting.old.version) }
    ensures next { reaches size start ≡ true → IfOk result (λ out. phase_of putting.new.phase ≡ puts_more peer start start (bytes_left size start)) }
    ensures goes_on { reaches size start ≡ true → IfOk result (λ out. is_done putting.new.phase ≡ false) }
    ensures line { reaches size start ≡ true → IfOk result (λ out. IsLine (Message.Data (bytes_left size start))) }
    ensures gone { reaches size start ≡ false → IfOk result (Told putting.old putting.new (close_to peer) (Phase.Ends Ending.Closed) putting.old.version) }
    ensures err { OnErr result (putting.new ≡ putting.old) }
{
    match size {
        Some(size) if start <= size => {
            let left = size - start;
            let output = say(putting, alloc, peer, Message::Data(left))?;
            putting.phase = more(peer, start, start, left);
            Ok(output)
        }
        _ => shut(putting, alloc, peer),
    }
}
