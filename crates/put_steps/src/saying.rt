//! What a copy says to its peer.
ghost use Rattle.std.specs.Prelude.{◌≡◌, ◌∷◌, [], false, Some, IfOk, OnErr};
ghost use Rattle.p2p_wire.specs.Streams.{IsLine};
ghost use Rattle.transfer_turns.specs.Turns.{output_of};
ghost use Rattle.put_steps.specs.Stepping.{IsSaid, Told, close_to, message_to};

use crate::phase::{Ending, Phase};
use crate::putting::Putting;
use annex_base::{NoMemory, Text};
use drop_phases::Said;
use p2p_wire::Message;
use run_data::EntryKind;
use std::alloc::Global;
use transfer_turns::{Output, ParcelBody, closing, reads, talk, telling};

/// The peer is told this.
pub(crate) fn say(
    putting: &Putting,
    alloc: Global,
    peer: u32,
    message: Message,
) -> Result<Output, NoMemory>
    requires { IsSaid putting.now.job.key message }
    ensures says { IfOk result (λ out. out ≡ output_of (EntryKind.Talk (Some putting.now.number)) (message_to peer message) false) }
    ensures line { IsLine message }
{
    // For the proof: what it says are lines of the protocol.
    reads(putting.key());
    let said = ParcelBody::Message(Said::new(alloc, message)?);
    telling(alloc, talk(putting.number), peer, said)
}

/// PUT.
pub(crate) fn offer(putting: &mut Putting, alloc: Global, peer: u32) -> Result<Output, NoMemory>
    ensures ok { IfOk result (Told putting.old putting.new (message_to peer (Message.Put [] putting.old.job.key)) (Phase.Offer peer) putting.old.version) }
    ensures line { IfOk result (λ out. IsLine (Message.Put [] putting.old.job.key)) }
    ensures err { OnErr result (putting.new ≡ putting.old) }
{
    let file = Text::new(alloc, b"")?;
    let message = Message::Put {
        file,
        key: putting.key().copy()?,
    };
    let output = say(putting, alloc, peer, message)?;
    putting.phase = Phase::Offer { peer };
    Ok(output)
}

/// What isn't expected closes the connection.
pub(crate) fn shut(putting: &mut Putting, alloc: Global, peer: u32) -> Result<Output, NoMemory>
    ensures ok { IfOk result (Told putting.old putting.new (close_to peer) (Phase.Ends Ending.Closed) putting.old.version) }
    ensures err { OnErr result (putting.new ≡ putting.old) }
{
    let output = closing(alloc, putting.number, peer)?;
    putting.phase = Phase::Ends(Ending::Closed);
    Ok(output)
}
