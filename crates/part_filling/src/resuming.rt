//! A digester that takes what there is of a part.
ghost use Rattle.std.specs.Prelude.{◌≡◌, ◌≤◌, ◌<◌, ◌^◌, ◌+◌, ◌-◌, length, false, true, Some, None, IfOk, OnOk, IfSome, IsErrOf, nat_lt};
ghost use Rattle.std.specs.Option.{ForSome};
ghost use Rattle.std.specs.declared.option.Option.{Option};
ghost use Rattle.annex_base.specs.Causes.{Rose};
ghost use Rattle.object_store.specs.Calls.{FailsAsTold};
ghost use Rattle.key_verify.specs.Sums.{HasTaken, bytes_taken};
ghost use Rattle.node_model.specs.Calls.{to_read};
ghost use Rattle.content_lock.specs.CallsMade.{MakesCalls};
ghost use Rattle.session_state.specs.Talking.{IsFedBy};
ghost use Rattle.annex_base.specs.declared.kinds.Call.TheVariants as calls;

use annex_key::Key;
use key_verify::Digester;
use object_store::{Keeper, KeeperFault};
use session_state::PIECE;
use std::alloc::Global;

/// The digester that has taken the part of this size.
pub fn resume<K: Keeper>(
    alloc: Global,
    keeper: &mut K,
    key: &Key,
    size: u64,
) -> Result<Option<Digester>, KeeperFault>
    requires small { size < 2 ^ 62 }
    ensures fed { IfOk result (λ d. ForSome (K.parts keeper.old) (λ p. size ≡ length (p key.now) → IsFedBy d key.now (p key.now))) }
    ensures counts { IfOk result (λ d. IfSome d (λ d. bytes_taken d ≡ size)) }
    ensures contents { K.contents keeper.new ≡ K.contents keeper.old }
    ensures parts { K.parts keeper.new ≡ K.parts keeper.old }
    ensures records { K.records keeper.new ≡ K.records keeper.old }
    ensures files { K.files keeper.new ≡ K.files keeper.old }
    ensures later { K.faults keeper.old ≤ K.faults keeper.new }
    ensures some { IsErrOf result KeeperFault.Failed → 0 < size }
    ensures cause { IsErrOf result KeeperFault.Failed → Rose (K.faults keeper.old) (K.faults keeper.new) }
    ensures calls { OnOk result (MakesCalls (to_read (nat_lt 0 size)) None (K.failing keeper.old) (K.failing keeper.new)) }
    ensures failed { IsErrOf result KeeperFault.Failed → FailsAsTold calls.ReadPart (K.failing keeper.old) (K.failing keeper.new) true }
    ensures memory { IsErrOf result KeeperFault.NoMemory → K.failing keeper.new ≡ K.failing keeper.old }
{
    if size == 0 {
        return Ok(Some(Digester::new(key)));
    }
    let mut room = vec![in alloc; 0; PIECE]?;
    let (digester, at) = read_on(keeper, key, size, &mut room)?;
    if at == size {
        Ok(Some(digester))
    } else {
        Ok(None)
    }
}

/// A digester that takes a part in pieces, until one has fewer bytes, and how many it took.
fn read_on<K: Keeper>(
    keeper: &mut K,
    key: &Key,
    size: u64,
    room: &mut [u8],
) -> Result<(Digester, u64), KeeperFault>
    requires small { size < 2 ^ 62 }
    requires room { length room.old ≡ 32768 }
    ensures fed { IfOk result (λ r. ForSome (K.parts keeper.old) (λ p. size ≡ length (p key.now) → (r.1 ≡ size) × HasTaken r.0 key.now (p key.now))) }
    ensures counts { IfOk result (λ r. bytes_taken r.0 ≡ r.1) }
    ensures contents { K.contents keeper.new ≡ K.contents keeper.old }
    ensures parts { K.parts keeper.new ≡ K.parts keeper.old }
    ensures records { K.records keeper.new ≡ K.records keeper.old }
    ensures files { K.files keeper.new ≡ K.files keeper.old }
    ensures later { K.faults keeper.old ≤ K.faults keeper.new }
    ensures cause { IsErrOf result KeeperFault.Failed → Rose (K.faults keeper.old) (K.faults keeper.new) }
    ensures calls { OnOk result (FailsAsTold calls.ReadPart (K.failing keeper.old) (K.failing keeper.new) false) }
    ensures failed { IsErrOf result KeeperFault.Failed → FailsAsTold calls.ReadPart (K.failing keeper.old) (K.failing keeper.new) true }
    ensures memory { IsErrOf result KeeperFault.NoMemory → K.failing keeper.new ≡ K.failing keeper.old }
{
    let mut digester = Digester::new(key);
    let mut at = 0;
    // A store that tells no end of a part isn't asked past its size.
    while at <= size {
        let count = keeper.read_part(key, at, room)?;
        let (piece, _) = room.split_at(count);
        digester.update(piece);
        at += count as u64;
        if count < PIECE {
            return Ok((digester, at));
        }
    }
    Ok((digester, at))
}
