//! The steps of a copy that take no frame.
ghost use Rattle.std.specs.Prelude.{◌≡◌, false, Some, None, IfOk, OnErr};
ghost use Rattle.node_model.specs.Jobs.{Puts, first_part};
ghost use Rattle.content_lock.specs.Rows.{Rows};
ghost use Rattle.drop_phases.specs.Doing.{HasToken};
ghost use Rattle.drop_phases.specs.declared.phase.Token.TheVariants as tokens;
ghost use Rattle.transfer_turns.specs.Steps.{Seen, seen};
ghost use Rattle.transfer_turns.specs.Turns.{awaited};
ghost use Rattle.put_steps.specs.Puts.{HasPeer, is_done, outcome_of, work_of};
ghost use Rattle.put_steps.specs.Putting.{Does};
ghost use Rattle.put_steps.specs.Stepping.{GoesTo};

use crate::phase::{Ending, Phase};
use crate::putting::Putting;
use crate::saying::{offer, say};
use crate::sending::send;
use annex_base::{Call, Failed, NoMemory};
use content_lock::LockTable;
use object_store::Keeper;
use p2p_wire::Message;
use run_data::{Outcome, TransferRefusal};
use std::alloc::Global;
use transfer_turns::{Here, Output, ParcelBody, ending, partings, talk, telling};

/// The step of a copy that awaits no frame.
pub fn act<K: Keeper, H: Here>(
    putting: &mut Putting,
    alloc: Global,
    here: &H,
    table: &LockTable,
    keeper: &mut K,
) -> Result<Output, NoMemory>
    requires puts { first_part putting.old.job.kind ≡ Puts }
    requires peer { HasPeer (H.sight here.now) putting.old.job.peer }
    requires bare { HasToken putting.old.number putting.old.job.key tokens.Nothing table.now }
    requires going { is_done putting.old.phase ≡ false }
    requires awaits { awaited (work_of putting.old) ≡ None }
    ensures does { Does (H.sight here.now) None table.now (seen (K.contents keeper.old) (K.parts keeper.old) (K.records keeper.old) (K.files keeper.old) (K.faults keeper.old) (K.failing keeper.old)) (seen (K.contents keeper.new) (K.parts keeper.new) (K.records keeper.new) (K.files keeper.new) (K.faults keeper.new) (K.failing keeper.new)) putting.old putting.new result }
{
    match putting.phase {
        Phase::Fresh => begin(putting, alloc, here, table, keeper),
        Phase::Bytes(sending) => send(putting, alloc, here, keeper, sending),
        Phase::Word { peer, start } => tell(putting, alloc, here, peer, start),
        Phase::Ends(why) => end_so(putting, alloc, here, table, why),
        _ => unreachable!(),
    }
}

/// The first step: it looks whether the content is there, and offers it to its peer.
fn begin<K: Keeper, H: Here>(
    putting: &mut Putting,
    alloc: Global,
    here: &H,
    table: &LockTable,
    keeper: &mut K,
) -> Result<Output, NoMemory>
    requires peer { HasPeer (H.sight here.now) putting.old.job.peer }
    requires bare { HasToken putting.old.number putting.old.job.key tokens.Nothing table.now }
    requires fresh { putting.old.phase ≡ Phase.Fresh }
    ensures does { Does (H.sight here.now) None table.now (seen (K.contents keeper.old) (K.parts keeper.old) (K.records keeper.old) (K.files keeper.old) (K.faults keeper.old) (K.failing keeper.old)) (seen (K.contents keeper.new) (K.parts keeper.new) (K.records keeper.new) (K.files keeper.new) (K.faults keeper.new) (K.failing keeper.new)) putting.old putting.new result }
{
    let parting = partings(alloc, here, putting.slot)?;
    match keeper.has(putting.key()) {
        Ok(true) => match putting.job.peer {
            Some(peer) => go_to(putting, alloc, here, peer),
            None => unreachable!(),
        },
        Ok(false) => {
            let why = Outcome::TransferRefused(TransferRefusal::NotHere);
            Ok(ending(putting.number, why, parting))
        }
        Err(Failed) => Ok(putting.fail(alloc, Call::Has)),
    }
}

/// The content is offered, on a connection that is opened first unless it is open.
fn go_to<H: Here>(
    putting: &mut Putting,
    alloc: Global,
    here: &H,
    peer: u32,
) -> Result<Output, NoMemory>
    ensures ok { IfOk result (GoesTo (H.sight here.now) peer putting.old putting.new) }
    ensures err { OnErr result (putting.new ≡ putting.old) }
{
    if here.is_open(peer, putting.slot) {
        return offer(putting, alloc, peer);
    }
    let output = telling(alloc, talk(putting.number), peer, ParcelBody::Open)?;
    putting.phase = Phase::Opens { peer };
    Ok(output)
}

/// All bytes are sent: they are the content's.
fn tell<H: Here>(
    putting: &mut Putting,
    alloc: Global,
    here: &H,
    peer: u32,
    start: u64,
) -> Result<Output, NoMemory>
    requires word { putting.old.phase ≡ Phase.Word peer start }
    ensures does { (rows : Rows) (k : Seen) → Does (H.sight here.now) None rows k k putting.old putting.new result }
{
    if !here.is_open(peer, putting.slot) {
        return Ok(putting.close(alloc));
    }
    let output = say(putting, alloc, peer, Message::Valid)?;
    putting.phase = Phase::Answer { peer, start };
    Ok(output)
}

/// The job ends as it is to.
fn end_so<H: Here>(
    putting: &Putting,
    alloc: Global,
    here: &H,
    table: &LockTable,
    why: Ending,
) -> Result<Output, NoMemory>
    requires ends { putting.now.phase ≡ Phase.Ends why }
    requires bare { HasToken putting.now.number putting.now.job.key tokens.Nothing table.now }
    ensures does { (k : Seen) → Does (H.sight here.now) None table.now k k putting.now putting.now result }
{
    let parting = partings(alloc, here, putting.slot)?;
    Ok(ending(putting.number, outcome_of(why), parting))
}

fn outcome_of(why: Ending) -> Outcome
    ensures { result ≡ outcome_of why }
{
    match why {
        Ending::Copied { start } => Outcome::Copied { start },
        Ending::Busy => Outcome::TransferRefused(TransferRefusal::Busy),
        Ending::Closed => Outcome::TransferRefused(TransferRefusal::Closed),
        Ending::Rejected => Outcome::TransferRefused(TransferRefusal::Rejected),
        Ending::StoreFault => Outcome::TransferRefused(TransferRefusal::StoreFault),
    }
}
