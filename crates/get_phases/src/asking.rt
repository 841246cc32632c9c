//! A get asks a peer: it sends GET with the size of its part.
ghost use Rattle.std.specs.Prelude.{◌≡◌, ◌<◌, ◌^◌, ℕ, Some, None, IfOk, OnErr, length};
ghost use Rattle.node_model.specs.Calls.{to_resume};
ghost use Rattle.content_lock.specs.CallsMade.{MakesCalls};
ghost use Rattle.session_state.specs.Talking.{Tells};
ghost use Rattle.transfer_turns.specs.Steps.{LeavesAll, LeavesBut, seen};
ghost use Rattle.get_phases.specs.Gets.{fill_in};
ghost use Rattle.get_phases.specs.Asking.{AsksOn, IsAsked, IsGet, WaitsForData, failed_asking};

use crate::getting::{Ending, Getting, Phase};
use crate::sent::{Asked, Sent};
use annex_base::{Call, NoMemory, Text};
use annex_key::Key;
use content_lock::Fill;
use drop_phases::Said;
use object_store::{Keeper, KeeperFault};
use p2p_wire::Message;
use part_filling::resume;
use session_state::Wanting;
use std::alloc::Global;
use transfer_turns::{Output, ParcelBody, failing, reads, talk, telling};

/// Asks the peer for the bytes of the key from its part's end on.
pub fn ask<K: Keeper>(
    alloc: Global,
    keeper: &mut K,
    number: u32,
    key: &Key,
    peer: u32,
) -> Result<Asked, NoMemory>
    ensures asks { IfOk result (IsAsked number key.now peer (K.parts keeper.old)) }
    ensures leaves { IfOk result (λ asked. LeavesBut (failed_asking asked) (seen (K.contents keeper.old) (K.parts keeper.old) (K.records keeper.old) (K.files keeper.old) (K.faults keeper.old) (K.failing keeper.old)) (seen (K.contents keeper.new) (K.parts keeper.new) (K.records keeper.new) (K.files keeper.new) (K.faults keeper.new) (K.failing keeper.new))) }
    ensures calls { IfOk result (λ asked. (part : ℕ) → Tells (K.parts keeper.old) (λ p. part ≡ length (p key.now)) → MakesCalls (to_resume part) (failed_asking asked) (K.failing keeper.old) (K.failing keeper.new)) }
    ensures err { OnErr result (LeavesAll (seen (K.contents keeper.old) (K.parts keeper.old) (K.records keeper.old) (K.files keeper.old) (K.faults keeper.old) (K.failing keeper.old)) (seen (K.contents keeper.new) (K.parts keeper.new) (K.records keeper.new) (K.files keeper.new) (K.faults keeper.new) (K.failing keeper.new))) }
{
    let size = match keeper.part_size(key) {
        Ok(size) => size,
        Err(KeeperFault::Failed) => return Ok(Asked::Failed(Call::PartSize)),
        Err(KeeperFault::NoMemory) => return Err(NoMemory),
    };
    let digester = match resume(alloc, keeper, key, size) {
        Ok(digester) => digester,
        Err(KeeperFault::Failed) => return Ok(Asked::Failed(Call::ReadPart)),
        Err(KeeperFault::NoMemory) => return Err(NoMemory),
    };
    let output = get(alloc, number, key, peer, size)?;
    Ok(Asked::Sent(Sent {
        output,
        size,
        digester,
    }))
}

/// GET from this byte on.
fn get(alloc: Global, number: u32, key: &Key, peer: u32, start: u64) -> Result<Output, NoMemory>
    requires { start < 2 ^ 62 }
    ensures { IfOk result (IsGet number key.now peer start) }
{
    // For the proof: what it says are lines of the protocol.
    reads(key);
    let file = Text::new(alloc, b"")?;
    let message = Message::Get {
        start,
        file,
        key: key.copy()?,
    };
    let said = Said::new(alloc, message)?;
    telling(alloc, talk(number), peer, ParcelBody::Message(said))
}

/// It asks a peer on a connection that is open, and fills its key already.
pub fn ask_on<K: Keeper>(
    getting: &mut Getting,
    alloc: Global,
    keeper: &mut K,
    peer: u32,
) -> Result<Output, NoMemory>
    requires fills { fill_in getting.old.phase ≡ Some getting.old.job.key }
    ensures { AsksOn peer (seen (K.contents keeper.old) (K.parts keeper.old) (K.records keeper.old) (K.files keeper.old) (K.faults keeper.old) (K.failing keeper.old)) (seen (K.contents keeper.new) (K.parts keeper.new) (K.records keeper.new) (K.files keeper.new) (K.faults keeper.new) (K.failing keeper.new)) getting.old getting.new result }
{
    match ask(alloc, keeper, getting.number, getting.key(), peer)? {
        Asked::Sent(sent) => {
            let fill = getting.take_fill();
            Ok(wait_for_data(getting, fill, peer, sent))
        }
        Asked::Failed(call) => {
            let fill = Some(getting.take_fill());
            getting.go_to(Phase::Ends(Ending::StoreFault { fill }));
            Ok(failing(alloc, getting.number, call))
        }
    }
}

/// GET was sent: what is said to the peer, which is to answer with DATA.
pub fn wait_for_data(getting: &mut Getting, fill: Fill, peer: u32, sent: Sent) -> Output
    requires bare { fill_in getting.old.phase ≡ None }
    ensures output { result ≡ sent.output }
    ensures rest { getting.new ≡ record getting.old { phase = getting.new.phase } }
    ensures phase { WaitsForData fill peer sent getting.new.phase }
{
    let Sent {
        output,
        size,
        digester,
    } = sent;
    let wanting = Wanting {
        fill,
        size,
        digester,
    };
    getting.go_to(Phase::Data { peer, wanting });
    output
}
