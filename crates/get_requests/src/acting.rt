//! The steps of a get that take no frame.
ghost use Rattle.std.specs.Prelude.{◌≡◌, ◌||◌, ◌∷◌, [], ℕ, List, false, Some, None, IfOk, OnErr, OnOk, bytes_eq};
ghost use Rattle.node_model.specs.Jobs.{is_move};
ghost use Rattle.content_lock.specs.Rows.{is_filling};
ghost use Rattle.drop_phases.specs.Doing.{HasToken};
ghost use Rattle.drop_phases.specs.declared.phase.Token.TheVariants as tokens;
ghost use Rattle.transfer_turns.specs.Steps.{seen};
ghost use Rattle.transfer_turns.specs.Turns.{awaited};
ghost use Rattle.get_phases.specs.Gets.{HasFill, is_done, source_in, work_of};
ghost use Rattle.get_phases.specs.Getting.{Does};
ghost use Rattle.get_phases.specs.Asking.{AsksOn};
ghost use Rattle.get_requests.specs.Requesting.{Claims, FillsToo, FindsHere, IsEnding, IsTalk};

use annex_base::{Call, Failed, Items, NoMemory};
use annex_key::Key;
use content_lock::{Fill, FillRefused, LockTable};
use get_phases::{Asked, Ending, Getting, Phase, ask, ask_on, next_source, wait_for_data};
use object_store::Keeper;
use run_data::{Outcome, TransferRefusal};
use std::alloc::Global;
use std::mem;
use transfer_turns::{
    Here, Output, ParcelBody, Sends, done, ending, failing, partings, quietly, talk, telling,
};

/// The step of a get that awaits no frame.
pub fn act<K: Keeper, H: Here>(
    getting: &mut Getting,
    alloc: Global,
    here: &H,
    table: &mut LockTable,
    keeper: &mut K,
) -> Result<Output, NoMemory>
    requires going { is_done getting.old.phase ≡ false }
    requires awaits { awaited (work_of getting.old) ≡ None }
    requires bare { HasToken getting.old.number getting.old.job.key tokens.Nothing table.old }
    requires has { HasFill table.old getting.old }
    ensures does { Does (H.sight here.now) None table.old table.new (seen (K.contents keeper.old) (K.parts keeper.old) (K.records keeper.old) (K.files keeper.old) (K.faults keeper.old) (K.failing keeper.old)) (seen (K.contents keeper.new) (K.parts keeper.new) (K.records keeper.new) (K.files keeper.new) (K.faults keeper.new) (K.failing keeper.new)) getting.old getting.new result }
{
    match &getting.phase {
        Phase::Fresh => begin(getting, alloc, here, table, keeper),
        Phase::Next { fill: _ } => go_on(getting, alloc, here, table, keeper),
        Phase::Ends(why) => end_so(getting, alloc, here, why.outcome()),
        _ => unreachable!(),
    }
}

/// The first step: it looks whether the content is there, or being filled, and asks its first peer.
fn begin<K: Keeper, H: Here>(
    getting: &mut Getting,
    alloc: Global,
    here: &H,
    table: &mut LockTable,
    keeper: &mut K,
) -> Result<Output, NoMemory>
    requires fresh { getting.old.phase ≡ Phase.Fresh }
    requires bare { HasToken getting.old.number getting.old.job.key tokens.Nothing table.old }
    ensures does { Does (H.sight here.now) None table.old table.new (seen (K.contents keeper.old) (K.parts keeper.old) (K.records keeper.old) (K.files keeper.old) (K.faults keeper.old) (K.failing keeper.old)) (seen (K.contents keeper.new) (K.parts keeper.new) (K.records keeper.new) (K.files keeper.new) (K.faults keeper.new) (K.failing keeper.new)) getting.old getting.new result }
{
    let parting = partings(alloc, here, getting.slot)?;
    match keeper.has(getting.key()) {
        Ok(true) => Ok(find_here(getting, alloc, parting)),
        Ok(false) => {
            if table.is_filling(getting.key()) {
                let why = Outcome::TransferRefused(TransferRefusal::Busy);
                return Ok(ending(getting.number, why, parting));
            }
            claim(getting, alloc, here, table, keeper)
        }
        Err(Failed) => {
            getting.go_to(Phase::Ends(Ending::StoreFault { fill: None }));
            Ok(failing(alloc, getting.number, Call::Has))
        }
    }
}

/// The content is there: a get ends, and the drop of a move begins.
fn find_here(getting: &mut Getting, alloc: Global, parting: Sends) -> Output
    requires fresh { getting.old.phase ≡ Phase.Fresh }
    ensures { FindsHere (is_move getting.old.job.kind) parting getting.old getting.new result }
{
    if getting.is_move() {
        getting.go_to(Phase::Done);
        return done(quietly(alloc, talk(getting.number)));
    }
    let outcome = Outcome::Got {
        source: None,
        start: None,
    };
    ending(getting.number, outcome, parting)
}

/// The content is neither there nor being filled: the get fills it from now on, and asks its first peer.
fn claim<K: Keeper, H: Here>(
    getting: &mut Getting,
    alloc: Global,
    here: &H,
    table: &mut LockTable,
    keeper: &mut K,
) -> Result<Output, NoMemory>
    requires fresh { getting.old.phase ≡ Phase.Fresh }
    requires free { is_filling table.old getting.old.job.key ≡ false }
    ensures claims { Claims (H.sight here.now) (source_in (H.sight here.now) getting.old) table.old table.new (seen (K.contents keeper.old) (K.parts keeper.old) (K.records keeper.old) (K.files keeper.old) (K.faults keeper.old) (K.failing keeper.old)) (seen (K.contents keeper.new) (K.parts keeper.new) (K.records keeper.new) (K.files keeper.new) (K.faults keeper.new) (K.failing keeper.new)) getting.old getting.new result }
{
    match next_source(getting, here) {
        None => claim_alone(getting, alloc, table),
        Some(peer) => {
            if here.is_open(peer, getting.slot) {
                claim_and_ask(getting, alloc, table, keeper, peer)
            } else {
                claim_and_open(getting, alloc, table, peer)
            }
        }
    }
}

/// There is no peer to ask.
fn claim_alone(
    getting: &mut Getting,
    alloc: Global,
    table: &mut LockTable,
) -> Result<Output, NoMemory>
    requires fresh { getting.old.phase ≡ Phase.Fresh }
    requires free { is_filling table.old getting.old.job.key ≡ false }
    ensures talk { IfOk result (IsTalk getting.old.number []) }
    ensures next { OnOk result (getting.new ≡ record getting.old { phase = Phase.Next getting.old.job.key }) }
    ensures fills { OnOk result (FillsToo getting.new table.old table.new) }
    ensures err { OnErr result (getting.new ≡ getting.old) }
    ensures err_table { OnErr result (table.new ≡ table.old) }
{
    let fill = new_fill(table, getting.key())?;
    getting.go_to(Phase::Next { fill });
    Ok(quietly(alloc, talk(getting.number)))
}

/// The connection with the first peer is opened.
fn claim_and_open(
    getting: &mut Getting,
    alloc: Global,
    table: &mut LockTable,
    peer: u32,
) -> Result<Output, NoMemory>
    requires fresh { getting.old.phase ≡ Phase.Fresh }
    requires free { is_filling table.old getting.old.job.key ≡ false }
    ensures talk { IfOk result (IsTalk getting.old.number (record { peer = peer; body = ParcelBody.Open } ∷ [])) }
    ensures next { OnOk result (getting.new ≡ record getting.old { phase = Phase.Opens peer getting.old.job.key }) }
    ensures fills { OnOk result (FillsToo getting.new table.old table.new) }
    ensures err { OnErr result (getting.new ≡ getting.old) }
    ensures err_table { OnErr result (table.new ≡ table.old) }
{
    let output = telling(alloc, talk(getting.number), peer, ParcelBody::Open)?;
    let fill = new_fill(table, getting.key())?;
    getting.go_to(Phase::Opens { peer, fill });
    Ok(output)
}

/// The first peer is asked on a connection that is open.
fn claim_and_ask<K: Keeper>(
    getting: &mut Getting,
    alloc: Global,
    table: &mut LockTable,
    keeper: &mut K,
    peer: u32,
) -> Result<Output, NoMemory>
    requires fresh { getting.old.phase ≡ Phase.Fresh }
    requires free { is_filling table.old getting.old.job.key ≡ false }
    ensures asks { AsksOn peer (seen (K.contents keeper.old) (K.parts keeper.old) (K.records keeper.old) (K.files keeper.old) (K.faults keeper.old) (K.failing keeper.old)) (seen (K.contents keeper.new) (K.parts keeper.new) (K.records keeper.new) (K.files keeper.new) (K.faults keeper.new) (K.failing keeper.new)) getting.old getting.new result }
    ensures fills { OnOk result (FillsToo getting.new table.old table.new) }
    ensures err_table { OnErr result (table.new ≡ table.old) }
{
    match ask(alloc, keeper, getting.number, getting.key(), peer)? {
        Asked::Sent(sent) => {
            let fill = new_fill(table, getting.key())?;
            Ok(wait_for_data(getting, fill, peer, sent))
        }
        Asked::Failed(call) => {
            getting.go_to(Phase::Ends(Ending::StoreFault { fill: None }));
            Ok(failing(alloc, getting.number, call))
        }
    }
}

/// The right to fill a key that isn't being filled.
fn new_fill(table: &mut LockTable, key: &Key) -> Result<Fill, NoMemory>
    requires { is_filling table.old key.now ≡ false }
    ensures token { IfOk result (λ f. f ≡ key.now) }
    ensures ok { OnOk result ((k : List ℕ) → is_filling table.new k ≡ (bytes_eq key.now k || is_filling table.old k)) }
    ensures err { OnErr result (table.new ≡ table.old) }
    ensures holds { table.new.holds ≡ table.old.holds }
    ensures bars { table.new.bars ≡ table.old.bars }
{
    match table.fill(key) {
        Ok(fill) => Ok(fill),
        Err(FillRefused::Busy) => unreachable!(),
        Err(FillRefused::NoMemory) => Err(NoMemory),
    }
}

/// It asks its next peer, or ends where none is left.
fn go_on<K: Keeper, H: Here>(
    getting: &mut Getting,
    alloc: Global,
    here: &H,
    table: &LockTable,
    keeper: &mut K,
) -> Result<Output, NoMemory>
    requires next { getting.old.phase ≡ Phase.Next getting.old.job.key }
    requires bare { HasToken getting.old.number getting.old.job.key tokens.Nothing table.now }
    requires has { HasFill table.now getting.old }
    ensures does { Does (H.sight here.now) None table.now table.now (seen (K.contents keeper.old) (K.parts keeper.old) (K.records keeper.old) (K.files keeper.old) (K.faults keeper.old) (K.failing keeper.old)) (seen (K.contents keeper.new) (K.parts keeper.new) (K.records keeper.new) (K.files keeper.new) (K.faults keeper.new) (K.failing keeper.new)) getting.old getting.new result }
{
    match next_source(getting, here) {
        None => end_sourceless(getting, alloc, here),
        Some(peer) => {
            if here.is_open(peer, getting.slot) {
                ask_on(getting, alloc, keeper, peer)
            } else {
                open_next(getting, alloc, peer)
            }
        }
    }
}

/// No peer gave it the content: it ends with why.
fn end_sourceless<H: Here>(
    getting: &mut Getting,
    alloc: Global,
    here: &H,
) -> Result<Output, NoMemory>
    ensures ends { IfOk result (IsEnding (H.sight here.now) getting.old.number getting.old.slot (Outcome.TransferRefused (TransferRefusal.NoSource getting.old.causes.items))) }
    ensures next { OnOk result (getting.new ≡ record getting.old { causes = getting.new.causes }) }
    ensures err { OnErr result (getting.new ≡ getting.old) }
{
    let parting = partings(alloc, here, getting.slot)?;
    let causes = mem::replace(&mut getting.causes, Vec::new(alloc));
    let why = TransferRefusal::NoSource {
        causes: Items::from_vec(causes),
    };
    Ok(ending(getting.number, Outcome::TransferRefused(why), parting))
}

/// The connection with the next peer is opened.
fn open_next(getting: &mut Getting, alloc: Global, peer: u32) -> Result<Output, NoMemory>
    requires next { getting.old.phase ≡ Phase.Next getting.old.job.key }
    ensures talk { IfOk result (IsTalk getting.old.number (record { peer = peer; body = ParcelBody.Open } ∷ [])) }
    ensures next { OnOk result (getting.new ≡ record getting.old { phase = Phase.Opens peer getting.old.job.key }) }
    ensures err { OnErr result (getting.new ≡ getting.old) }
{
    let output = telling(alloc, talk(getting.number), peer, ParcelBody::Open)?;
    let fill = getting.take_fill();
    getting.go_to(Phase::Opens { peer, fill });
    Ok(output)
}

/// The job ends as it is to.
fn end_so<H: Here>(
    getting: &Getting,
    alloc: Global,
    here: &H,
    outcome: Outcome,
) -> Result<Output, NoMemory>
    ensures { IfOk result (IsEnding (H.sight here.now) getting.now.number getting.now.slot outcome) }
{
    let parting = partings(alloc, here, getting.slot)?;
    Ok(ending(getting.number, outcome, parting))
}
