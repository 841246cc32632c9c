//! The bytes of a content that is sent, piece by piece.
ghost use Rattle.std.specs.Prelude.{◌≡◌, ◌≤◌, ◌-◌, if◌then◌else◌, IfOk, OnErr, IfSome};
ghost use Rattle.std.specs.Option.{ForSome};
ghost use Rattle.annex_base.specs.Causes.{Rose};
ghost use Rattle.node_model.specs.Ends.{server_end};
ghost use Rattle.node_model.specs.SessionStep.{Here, gives_next};
ghost use Rattle.session_state.specs.Answers.{size_in};
ghost use Rattle.session_state.specs.Bounds.{FitsMore};
ghost use Rattle.content_lock.specs.CallsMade.{MakesCalls};
ghost use Rattle.session_state.specs.Giving.{IsPiece, IsWithin, failed_more, reply_more};
ghost use Rattle.session_state.specs.SessionCalls.{calls_next};
ghost use Rattle.node_model.specs.Sessions as sessions;

use annex_base::{Call, NoMemory};
use object_store::{Keeper, KeeperFault};
use p2p_wire::Message;
use session_state::{Giving, More, PIECE, Place};
use std::alloc::Global;

/// VALID or INVALID.
fn word(good: bool) -> Message
    ensures { result ≡ (if good then Message.Valid else Message.Invalid) }
{
    if good {
        Message::Valid
    } else {
        Message::Invalid
    }
}

/// What is sent next of this content.
pub fn next_of<K: Keeper>(
    place: Place,
    alloc: Global,
    keeper: &mut K,
    giving: &Giving,
) -> Result<More, NoMemory>
    ensures does { IfOk result (λ more. ForSome (K.contents keeper.old) (λ c. (h : Here) → h.at ≡ server_end place.peer place.slot → h.content giving.now.key ≡ size_in c giving.now.key → h.fails ≡ failed_more more
        → gives_next h (sessions.Gives giving.now.key giving.now.at (giving.now.end - giving.now.at) giving.now.good) ≡ reply_more place more)) }
    ensures bytes { IfOk result (λ more. ForSome (K.contents keeper.old) (λ c. IsPiece c giving.now.key giving.now.at more)) }
    ensures some { IfOk result (λ more. more ≡ More.Nothing → ⊥) }
    ensures short { IfOk result FitsMore }
    ensures within { IfOk result (λ more. IsWithin more (giving.now.end - giving.now.at)) }
    ensures contents { K.contents keeper.new ≡ K.contents keeper.old }
    ensures parts { K.parts keeper.new ≡ K.parts keeper.old }
    ensures records { K.records keeper.new ≡ K.records keeper.old }
    ensures files { K.files keeper.new ≡ K.files keeper.old }
    ensures later { K.faults keeper.old ≤ K.faults keeper.new }
    ensures cause { IfOk result (λ more. IfSome (failed_more more) (λ call. Rose (K.faults keeper.old) (K.faults keeper.new))) }
    ensures calls { IfOk result (λ more. MakesCalls (calls_next (sessions.Gives giving.now.key giving.now.at (giving.now.end - giving.now.at) giving.now.good)) (failed_more more) (K.failing keeper.old) (K.failing keeper.new)) }
    ensures err_failing { OnErr result (K.failing keeper.new ≡ K.failing keeper.old) }
{
    let left = giving.end - giving.at;
    if left == 0 {
        return Ok(More::Last(word(giving.good)));
    }
    let count = left.min(PIECE as u64) as usize;
    let mut room = vec![in alloc; 0; count]?;
    match keeper.read_piece(&giving.key, giving.at, &mut room) {
        Ok(read) if read == count => Ok(More::Piece(room)),
        Ok(_) => Ok(More::Gone),
        Err(KeeperFault::Failed) => Ok(More::Fault(Call::Read)),
        Err(KeeperFault::NoMemory) => Err(NoMemory),
    }
}
