//! What a get tells a peer, other than what it asks for.
ghost use Rattle.std.specs.Prelude.{◌≡◌, ◌∷◌, [], false, IfOk};
ghost use Rattle.p2p_wire.specs.Streams.{IsLine};
ghost use Rattle.transfer_turns.specs.Turns.{output_of};
ghost use Rattle.get_phases.specs.Losing.{IsToldBy};

use annex_base::NoMemory;
use annex_key::Key;
use drop_phases::Said;
use p2p_wire::Message;
use run_data::EntryKind;
use std::alloc::Global;
use transfer_turns::{Output, ParcelBody, reads, telling};

/// A peer is told the version, or whether the bytes were good.
pub fn say(
    alloc: Global,
    key: &Key,
    kind: EntryKind,
    peer: u32,
    message: Message,
) -> Result<Output, NoMemory>
    requires told { IsToldBy message }
    ensures made { IfOk result (λ out. out ≡ output_of kind (record { peer = peer; body = ParcelBody.Message message } ∷ []) false) }
    ensures line { IsLine message }
{
    // For the proof: what it says are lines of the protocol.
    reads(key);
    let said = Said::new(alloc, message)?;
    telling(alloc, kind, peer, ParcelBody::Message(said))
}
