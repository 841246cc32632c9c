//! The bytes of a part, as they are announced and as they come.
ghost use Rattle.std.specs.Prelude.{◌≡◌, length, Some};
ghost use Rattle.object_store.specs.Stores.{Parts};
ghost use Rattle.node_model.specs.Jobs.{gets_bytes, listens};
ghost use Rattle.content_lock.specs.Rows.{Rows};
ghost use Rattle.transfer_turns.specs.Steps.{seen};
ghost use Rattle.transfer_turns.specs.Turns.{Sight, awaited};
ghost use Rattle.get_phases.specs.Getting.{Does};
ghost use Rattle.get_phases.specs.Gets.{HasFill, IsFed, phase_of, work_of};
ghost use Rattle.get_answers.specs.Taking.{GoesOn, HasLeft, IsData, IsLonger, IsTaking, phase_with};

use annex_base::{Call, NoMemory};
use get_phases::{Getting, Phase, give_up, shut};
use object_store::{Keeper, KeeperFault};
use p2p_wire::Message;
use part_filling::{announced, appended};
use session_state::{Doing, Incoming};
use std::alloc::Global;
use transfer_turns::{Output, failing, quietly, talk};

/// DATA: so many bytes are to come.
pub(crate) fn announce(getting: &mut Getting, count: u64)
    requires phase { IsData getting.old.phase }
    ensures goes { GoesOn (listens (work_of getting.old) (phase_of getting.old.phase) (Message.Data count)).phase getting.old getting.new }
    ensures fed { (p : Parts) → IsFed p getting.old.phase → IsFed p getting.new.phase }
{
    match getting.take() {
        Phase::Data { peer, wanting } => {
            let start = wanting.size;
            let doing = announced(wanting, count);
            getting.go_to(coming(peer, start, doing));
        }
        _ => unreachable!(),
    }
}

/// Where a get stands whose part is filled so.
fn coming(peer: u32, start: u64, doing: Doing) -> Phase
    requires taking { IsTaking doing }
    ensures { result ≡ phase_with peer start doing }
{
    match doing {
        Doing::Takes(taking) => Phase::Bytes {
            peer,
            start,
            taking,
        },
        Doing::Took(taken) => Phase::Word { peer, start, taken },
        _ => unreachable!(),
    }
}

/// A piece of the part: it is put to it, where it was to come.
pub(crate) fn append<K: Keeper>(
    getting: &mut Getting,
    alloc: Global,
    keeper: &mut K,
    bytes: &Vec<u8>,
    peer: u32,
) -> Result<Output, NoMemory>
    requires awaits { awaited (work_of getting.old) ≡ Some peer }
    ensures does { (x : Sight) (rows : Rows) → HasFill rows getting.old → Does x (Some (Incoming.Bytes bytes.now)) rows rows (seen (K.contents keeper.old) (K.parts keeper.old) (K.records keeper.old) (K.files keeper.old) (K.faults keeper.old) (K.failing keeper.old)) (seen (K.contents keeper.new) (K.parts keeper.new) (K.records keeper.new) (K.files keeper.new) (K.faults keeper.new) (K.failing keeper.new)) getting.old getting.new result }
{
    let Phase::Bytes {
        peer: _,
        start: _,
        taking,
    } = &getting.phase
    else {
        return shut(getting, alloc, peer);
    };
    let count = bytes.len() as u64;
    if !taking.awaits(count) {
        return shut(getting, alloc, peer);
    }
    match keeper.append_part(taking.fill.key(), bytes) {
        Ok(()) => {
            grow(getting, bytes);
            Ok(quietly(alloc, talk(getting.number)))
        }
        Err(KeeperFault::Failed) => {
            give_up(getting);
            Ok(failing(alloc, getting.number, Call::Append))
        }
        Err(KeeperFault::NoMemory) => Err(NoMemory),
    }
}

/// The piece was put to the part.
fn grow(getting: &mut Getting, piece: &[u8])
    requires room { HasLeft getting.old.phase (length piece.now) }
    ensures goes { GoesOn (gets_bytes (length piece.now) (phase_of getting.old.phase)) getting.old getting.new }
    ensures fed { (p p' : Parts) → IsFed p getting.old.phase → IsLonger getting.old.phase p p' piece.now → IsFed p' getting.new.phase }
{
    match getting.take() {
        Phase::Bytes {
            peer,
            start,
            taking,
        } => {
            let doing = appended(taking, piece);
            getting.go_to(coming(peer, start, doing));
        }
        _ => unreachable!(),
    }
}
