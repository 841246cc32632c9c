//! The steps of a local drop that take no frame.
ghost use Rattle.std.specs.Prelude.{◌≡◌, ℕ, List, [], ◌∷◌, Bool, true, false, Some, None, IfOk, if◌then◌else◌};
ghost use Rattle.drop_proof.specs.declared.rule.Side.TheVariants as sides;
ghost use Rattle.node_model.specs.Rows.{is_lost_ordered};
ghost use Rattle.node_model.specs.Jobs.{drop_side, partner};
ghost use Rattle.node_model.specs.JobStep.{ends};
ghost use Rattle.node_model.specs.Knows.{Reading};
ghost use Rattle.node_model.specs.DropStep.{lacking_outcome};
ghost use Rattle.node_model.specs.Look.{failed_in};
ghost use Rattle.node_model.specs.Requests.{goes_to};
ghost use Rattle.content_lock.specs.Rows.{Rows, bar_at};
ghost use Rattle.drop_phases.specs.Working.{Sight, phase_as, sight};
ghost use Rattle.drop_phases.specs.Doing.{HasToken, IsBar, OthersStay, is_barring, removes_now};
ghost use Rattle.drop_phases.specs.Feeding.{FitsLocal, IsOfLocal};
ghost use Rattle.drop_phases.specs.Begun.{HasEnded, HasGone, IsOther};
ghost use Rattle.drop_judging.specs.Judging.{evidence_of, others_in};
ghost use Rattle.drop_phases.specs.Calling.{MakesOver, MakesPhase};
ghost use Rattle.drop_phases.specs.Leaving.{ActsOver, Did, GoesSo, Store, FollowsBarRefused, store};

use annex_base::{Call, Failed, Items, NoMemory, Text};
use content_lock::{BarRefused, LockTable};
use drop_judging::{Verdict, failures, gather, judge, others, proof};
use drop_phases::{
    Ending, Here, Input, Output, ParcelBody, Phase, Said, Sends, Time, Token, Worker, ending,
    quietly, reads, telling,
};
use drop_proof::{Evidence, Side};
use object_store::Keeper;
use p2p_wire::Message;
use run_data::{By, DropRefusal, EntryKind, Outcome};
use std::alloc::Global;

/// The step of a local drop that awaits no frame.
pub fn act<K: Keeper, H: Here>(
    worker: &mut Worker,
    alloc: Global,
    here: &H,
    table: &mut LockTable,
    keeper: &mut K,
    input: &Input,
) -> Result<Output, NoMemory>
    requires local { drop_side worker.old.job.kind worker.old.job.peer ≡ sides.Local }
    requires fits { FitsLocal worker.old.phase worker.old.token }
    requires awaits { partner worker.old.job.peer (phase_as worker.old.phase) ≡ None }
    requires owns { HasToken worker.old.number worker.old.job.key worker.old.token table.old }
    ensures does { Did table.old table.new (store (K.contents keeper.old) (K.records keeper.old) (K.faults keeper.old)) (store (K.contents keeper.new) (K.records keeper.new) (K.faults keeper.new)) worker.old worker.new
        (GoesSo (sight (H.reading here.now) (H.ends here.now) input.now.time input.now.number) (K.contents keeper.old) table.old table.new worker.old worker.new) result }
    ensures begun { IfOk result (HasGone (H.reading here.now) worker.old worker.new) }
    ensures calls { MakesPhase (sight (H.reading here.now) (H.ends here.now) input.now.time input.now.number) (K.contents keeper.old) table.old worker.old (K.failing keeper.old) (K.failing keeper.new) result }
    ensures parts { K.parts keeper.new ≡ K.parts keeper.old }
    ensures files { K.files keeper.new ≡ K.files keeper.old }
{
    match worker.phase() {
        Phase::Fresh => begin(worker, alloc, here, table, keeper, input),
        Phase::Next => go_on(worker, alloc, here, table, keeper, input.time),
        Phase::Removed => drop_done(worker, alloc, here, table),
        Phase::Ends(why) => end_so(worker, alloc, here, table, why),
        _ => unreachable!(),
    }
}

// ---- the beginning

/// The first step of a local drop: a refusal where its repository requires the content, or else its bar.
fn begin<K: Keeper, H: Here>(
    worker: &mut Worker,
    alloc: Global,
    here: &H,
    table: &mut LockTable,
    keeper: &mut K,
    input: &Input,
) -> Result<Output, NoMemory>
    requires fresh { worker.old.phase ≡ Phase.Fresh }
    requires local { drop_side worker.old.job.kind worker.old.job.peer ≡ sides.Local }
    requires bare { worker.old.token ≡ Token.Nothing }
    requires owns { HasToken worker.old.number worker.old.job.key worker.old.token table.old }
    ensures does { Did table.old table.new (store (K.contents keeper.old) (K.records keeper.old) (K.faults keeper.old)) (store (K.contents keeper.new) (K.records keeper.new) (K.faults keeper.new)) worker.old worker.new
        (GoesSo (sight (H.reading here.now) (H.ends here.now) input.now.time input.now.number) (K.contents keeper.old) table.old table.new worker.old worker.new) result }
    ensures begun { IfOk result (HasGone (H.reading here.now) worker.old worker.new) }
    ensures calls { MakesPhase (sight (H.reading here.now) (H.ends here.now) input.now.time input.now.number) (K.contents keeper.old) table.old worker.old (K.failing keeper.old) (K.failing keeper.new) result }
    ensures parts { K.parts keeper.new ≡ K.parts keeper.old }
    ensures files { K.files keeper.new ≡ K.files keeper.old }
{
    match here.required() {
        Some(text) => end_required(worker, alloc, here, keeper, text),
        None => put_bar(worker, alloc, here, table, keeper, input),
    }
}

/// The step of a local drop whose repository requires the content by this expression: the refusal, unless the content isn't there.
fn end_required<K: Keeper, H: Here>(
    worker: &mut Worker,
    alloc: Global,
    here: &H,
    keeper: &mut K,
    text: &Text,
) -> Result<Output, NoMemory>
    requires fresh { worker.old.phase ≡ Phase.Fresh }
    requires local { drop_side worker.old.job.kind worker.old.job.peer ≡ sides.Local }
    requires bare { worker.old.token ≡ Token.Nothing }
    requires required { (H.reading here.now).requires ≡ Some text.now }
    ensures does { (time : ℕ) (number : ℕ) (rows : Rows) → HasToken worker.old.number worker.old.job.key worker.old.token rows
        → Did rows rows (store (K.contents keeper.old) (K.records keeper.old) (K.faults keeper.old)) (store (K.contents keeper.new) (K.records keeper.new) (K.faults keeper.new)) worker.old worker.new
        (GoesSo (sight (H.reading here.now) (H.ends here.now) time number) (K.contents keeper.old) rows rows worker.old worker.new) result }
    ensures begun { IfOk result (HasGone (H.reading here.now) worker.old worker.new) }
    ensures calls { (time : ℕ) (number : ℕ) (rows : Rows) → HasToken worker.old.number worker.old.job.key worker.old.token rows
        → MakesPhase (sight (H.reading here.now) (H.ends here.now) time number) (K.contents keeper.old) rows worker.old (K.failing keeper.old) (K.failing keeper.new) result }
    ensures parts { K.parts keeper.new ≡ K.parts keeper.old }
    ensures files { K.files keeper.new ≡ K.files keeper.old }
{
    let sends = worker.partings(alloc, here, false)?;
    let expression = text.clone()?;
    match keeper.has(worker.key()) {
        Ok(false) => Ok(refused(worker, DropRefusal::NotPresent, sends)),
        Ok(true) => Ok(refused(worker, DropRefusal::Required { expression }, sends)),
        Err(Failed) => Ok(worker.fail(alloc, Call::Has)),
    }
}

/// The tests of its row, and its bar.
fn put_bar<K: Keeper, H: Here>(
    worker: &mut Worker,
    alloc: Global,
    here: &H,
    table: &mut LockTable,
    keeper: &mut K,
    input: &Input,
) -> Result<Output, NoMemory>
    requires fresh { worker.old.phase ≡ Phase.Fresh }
    requires local { drop_side worker.old.job.kind worker.old.job.peer ≡ sides.Local }
    requires bare { worker.old.token ≡ Token.Nothing }
    requires spared { (H.reading here.now).requires ≡ None }
    requires owns { HasToken worker.old.number worker.old.job.key worker.old.token table.old }
    ensures does { Did table.old table.new (store (K.contents keeper.old) (K.records keeper.old) (K.faults keeper.old)) (store (K.contents keeper.new) (K.records keeper.new) (K.faults keeper.new)) worker.old worker.new
        (GoesSo (sight (H.reading here.now) (H.ends here.now) input.now.time input.now.number) (K.contents keeper.old) table.old table.new worker.old worker.new) result }
    ensures begun { IfOk result (HasGone (H.reading here.now) worker.old worker.new) }
    ensures calls { MakesPhase (sight (H.reading here.now) (H.ends here.now) input.now.time input.now.number) (K.contents keeper.old) table.old worker.old (K.failing keeper.old) (K.failing keeper.new) result }
    ensures parts { K.parts keeper.new ≡ K.parts keeper.old }
    ensures files { K.files keeper.new ≡ K.files keeper.old }
{
    let sends = worker.partings(alloc, here, false)?;
    let key = worker.key().copy()?;
    let clock = here.clock(input.time);
    match table.bar(keeper, worker.key(), worker.number(), clock) {
        Ok(bar) => {
            worker.take_bar(bar);
            worker.go_to(Phase::Next);
            let kind = EntryKind::Bar {
                job: worker.number(),
                need: here.need(),
                key,
            };
            Ok(quietly(alloc, kind))
        }
        Err(why) => unbarred(worker, alloc, why, sends),
    }
}

/// The step of a local drop whose bar was refused.
fn unbarred(
    worker: &mut Worker,
    alloc: Global,
    why: BarRefused,
    sends: Sends,
) -> Result<Output, NoMemory>
    ensures { FollowsBarRefused why worker.old worker.new sends result }
{
    match why {
        BarRefused::Absent => Ok(refused(worker, DropRefusal::NotPresent, sends)),
        BarRefused::Barred { job } => Ok(refused(worker, DropRefusal::Barred { job }, sends)),
        BarRefused::Held { hold: _, until } => {
            Ok(refused(worker, DropRefusal::Held { until }, sends))
        }
        BarRefused::StoreFault => Ok(worker.fail(alloc, Call::Has)),
        BarRefused::NoMemory => Err(NoMemory),
    }
}

/// The job ends with a refusal.
fn refused(worker: &Worker, why: DropRefusal, sends: Sends) -> Output
    ensures { result ≡ record { kind = EntryKind.End worker.now.number (Outcome.Refused why); sends = sends; ended = true } }
{
    ending(worker.number(), Outcome::Refused(why), sends)
}

// ---- the judgement

/// The step of a local drop that has heard of a candidate, or has its bar: it judges.
fn go_on<K: Keeper, H: Here>(
    worker: &mut Worker,
    alloc: Global,
    here: &H,
    table: &mut LockTable,
    keeper: &mut K,
    time: Time,
) -> Result<Output, NoMemory>
    requires local { drop_side worker.old.job.kind worker.old.job.peer ≡ sides.Local }
    requires next { worker.old.phase ≡ Phase.Next }
    requires bars { IsBar worker.old.token }
    requires owns { HasToken worker.old.number worker.old.job.key worker.old.token table.old }
    ensures does { (number : ℕ) → Did table.old table.new (store (K.contents keeper.old) (K.records keeper.old) (K.faults keeper.old)) (store (K.contents keeper.new) (K.records keeper.new) (K.faults keeper.new)) worker.old worker.new
        (GoesSo (sight (H.reading here.now) (H.ends here.now) time number) (K.contents keeper.old) table.old table.new worker.old worker.new) result }
    ensures begun { IfOk result (HasGone (H.reading here.now) worker.old worker.new) }
    ensures calls { (number : ℕ) → MakesPhase (sight (H.reading here.now) (H.ends here.now) time number) (K.contents keeper.old) table.old worker.old (K.failing keeper.old) (K.failing keeper.new) result }
    ensures parts { K.parts keeper.new ≡ K.parts keeper.old }
    ensures files { K.files keeper.new ≡ K.files keeper.old }
{
    let candidates = others(alloc, here)?;
    let items = gather(worker, alloc, here, Side::Local, &candidates)?;
    match judge(worker, here, time, &candidates, &items) {
        Verdict::Asks(peer) => ask(worker, alloc, here, time, peer),
        Verdict::Removes => remove(worker, alloc, table, keeper),
        Verdict::Late { end, clock } => expire(worker, alloc, here, table, end, clock),
        Verdict::Lacks => lack(worker, alloc, here, table, &candidates, &items),
    }
}

/// The removal of a local drop that knows enough, in time.
fn remove<K: Keeper>(
    worker: &mut Worker,
    alloc: Global,
    table: &mut LockTable,
    keeper: &mut K,
) -> Result<Output, NoMemory>
    requires local { drop_side worker.old.job.kind worker.old.job.peer ≡ sides.Local }
    requires next { worker.old.phase ≡ Phase.Next }
    requires bars { IsBar worker.old.token }
    requires owns { HasToken worker.old.number worker.old.job.key worker.old.token table.old }
    ensures does { (x : Sight) → Did table.old table.new (store (K.contents keeper.old) (K.records keeper.old) (K.faults keeper.old)) (store (K.contents keeper.new) (K.records keeper.new) (K.faults keeper.new)) worker.old worker.new
        (ActsOver x (K.contents keeper.old) table.old table.new worker.old worker.new removes_now) result }
    ensures begun { IfOk result (λ out. (r : Reading) → HasGone r worker.old worker.new out) }
    ensures calls { (x : Sight) → MakesOver x (K.contents keeper.old) table.old worker.old removes_now (K.failing keeper.old) (K.failing keeper.new) result }
    ensures parts { K.parts keeper.new ≡ K.parts keeper.old }
    ensures files { K.files keeper.new ≡ K.files keeper.old }
{
    let key = worker.key().copy()?;
    match worker.take_token() {
        Token::Bar(bar) => match table.remove(keeper, bar) {
            Ok(()) => {
                worker.go_to(Phase::Removed);
                let by = By::Job(worker.number());
                Ok(quietly(alloc, EntryKind::Gone { by, key }))
            }
            Err(bar) => {
                worker.take_bar(bar);
                Ok(worker.fail(alloc, Call::Remove))
            }
        },
        Token::Nothing => unreachable!(),
        Token::Share(_share) => unreachable!(),
    }
}

/// A local drop asks a candidate for a lock, on a connection that it opens first unless it is open.
fn ask<H: Here>(
    worker: &mut Worker,
    alloc: Global,
    here: &H,
    time: Time,
    peer: u32,
) -> Result<Output, NoMemory>
    requires local { drop_side worker.old.job.kind worker.old.job.peer ≡ sides.Local }
    requires next { worker.old.phase ≡ Phase.Next }
    requires bars { IsBar worker.old.token }
    requires other { IsOther (H.reading here.now) peer }
    ensures does { (number : ℕ) (rows : Rows) (k : Store) → HasToken worker.old.number worker.old.job.key worker.old.token rows → Did rows rows k k worker.old worker.new
        (ActsOver (sight (H.reading here.now) (H.ends here.now) time number) k.contents rows rows worker.old worker.new (λ t. goes_to t peer)) result }
    ensures faultless { IfOk result (λ out. failed_in out.kind ≡ None) }
    ensures begun { IfOk result (HasGone (H.reading here.now) worker.old worker.new) }
{
    if !here.is_open(peer, worker.slot()) {
        let out = telling(alloc, worker.number(), peer, ParcelBody::Open)?;
        worker.go_to(Phase::Opens { peer });
        return Ok(out);
    }
    // For the proof: what it says are lines of the protocol.
    reads(worker.key());
    let said = Said::new(alloc, Message::LockContent(worker.key().copy()?))?;
    let said = ParcelBody::Message(said);
    let out = telling(alloc, worker.number(), peer, said)?;
    worker.go_to(Phase::AsksLock { peer, since: time });
    Ok(out)
}

// ---- ends

/// A local drop whose clock isn't below the least end of its locks.
fn expire<H: Here>(
    worker: &mut Worker,
    alloc: Global,
    here: &H,
    table: &mut LockTable,
    end: u64,
    clock: u64,
) -> Result<Output, NoMemory>
    requires local { IsOfLocal worker.old.token }
    requires owns { HasToken worker.old.number worker.old.job.key worker.old.token table.old }
    ensures does { (time : ℕ) (number : ℕ) (k : Store) → Did table.old table.new k k worker.old worker.new
        (ActsOver (sight (H.reading here.now) (H.ends here.now) time number) k.contents table.old table.new worker.old worker.new (λ t. ends t None (Outcome.Refused (DropRefusal.Expired end clock)))) result }
    ensures ended { IfOk result (HasEnded worker.old worker.new) }
{
    let why = DropRefusal::Expired { end, clock };
    finish(worker, alloc, here, table, Outcome::Refused(why))
}

/// A local drop that has no candidate left, and too little evidence.
fn lack<H: Here>(
    worker: &mut Worker,
    alloc: Global,
    here: &H,
    table: &mut LockTable,
    candidates: &[u32],
    items: &[Evidence],
) -> Result<Output, NoMemory>
    requires side { drop_side worker.old.job.kind worker.old.job.peer ≡ sides.Local }
    requires local { IsOfLocal worker.old.token }
    requires all { candidates.now ≡ others_in (H.reading here.now) }
    requires known { items.now ≡ evidence_of sides.Local (H.reading here.now) worker.old candidates.now [] }
    requires owns { HasToken worker.old.number worker.old.job.key worker.old.token table.old }
    ensures does { (time : ℕ) (number : ℕ) (k : Store) → Did table.old table.new k k worker.old worker.new
        (ActsOver (sight (H.reading here.now) (H.ends here.now) time number) k.contents table.old table.new worker.old worker.new (λ t. ends t None (lacking_outcome t))) result }
    ensures ended { IfOk result (HasEnded worker.old worker.new) }
{
    let proof = proof(alloc, here, items)?;
    let causes = failures(worker, alloc, here, candidates)?;
    let why = DropRefusal::Lacking {
        proof,
        causes: Items::from_vec(causes),
    };
    finish(worker, alloc, here, table, Outcome::Refused(why))
}

/// The end of a local drop that removed the content.
fn drop_done<H: Here>(
    worker: &mut Worker,
    alloc: Global,
    here: &H,
    table: &mut LockTable,
) -> Result<Output, NoMemory>
    requires side { drop_side worker.old.job.kind worker.old.job.peer ≡ sides.Local }
    requires at { worker.old.phase ≡ Phase.Removed }
    requires local { IsOfLocal worker.old.token }
    requires owns { HasToken worker.old.number worker.old.job.key worker.old.token table.old }
    ensures does { (time : ℕ) (number : ℕ) (k : Store) → Did table.old table.new k k worker.old worker.new
        (GoesSo (sight (H.reading here.now) (H.ends here.now) time number) k.contents table.old table.new worker.old worker.new) result }
    ensures ended { IfOk result (HasEnded worker.old worker.new) }
{
    let candidates = others(alloc, here)?;
    let items = gather(worker, alloc, here, Side::Local, &candidates)?;
    let proof = proof(alloc, here, &items)?;
    finish(worker, alloc, here, table, Outcome::Dropped(proof))
}

/// The end of a local drop that is refused for what came before.
fn end_so<H: Here>(
    worker: &mut Worker,
    alloc: Global,
    here: &H,
    table: &mut LockTable,
    why: Ending,
) -> Result<Output, NoMemory>
    requires at { worker.old.phase ≡ Phase.Ends why }
    requires fits { FitsLocal worker.old.phase worker.old.token }
    requires owns { HasToken worker.old.number worker.old.job.key worker.old.token table.old }
    ensures does { (time : ℕ) (number : ℕ) (k : Store) → Did table.old table.new k k worker.old worker.new
        (GoesSo (sight (H.reading here.now) (H.ends here.now) time number) k.contents table.old table.new worker.old worker.new) result }
    ensures ended { IfOk result (HasEnded worker.old worker.new) }
{
    match why {
        Ending::StoreFault => {
            let outcome = Outcome::Refused(DropRefusal::StoreFault);
            finish(worker, alloc, here, table, outcome)
        }
        Ending::Lost { ordered: _ } => unreachable!(),
        Ending::OldProtocol { version: _ } => unreachable!(),
    }
}

/// The end of a local drop: its bar is off, and what it opened is closed.
fn finish<H: Here>(
    worker: &mut Worker,
    alloc: Global,
    here: &H,
    table: &mut LockTable,
    outcome: Outcome,
) -> Result<Output, NoMemory>
    requires plain { is_lost_ordered outcome ≡ false }
    requires local { IsOfLocal worker.old.token }
    requires owns { HasToken worker.old.number worker.old.job.key worker.old.token table.old }
    ensures does { (time : ℕ) (number : ℕ) (k : Store) → Did table.old table.new k k worker.old worker.new
        (ActsOver (sight (H.reading here.now) (H.ends here.now) time number) k.contents table.old table.new worker.old worker.new (λ t. ends t None outcome)) result }
    ensures ended { IfOk result (HasEnded worker.old worker.new) }
{
    let sends = worker.partings(alloc, here, false)?;
    give_up(worker, table);
    Ok(ending(worker.number(), outcome, sends))
}

/// Takes the job's bar off, where it has one.
fn give_up(worker: &mut Worker, table: &mut LockTable)
    requires local { IsOfLocal worker.old.token }
    requires owns { HasToken worker.old.number worker.old.job.key worker.old.token table.old }
    ensures bare { worker.new ≡ record worker.old { token = Token.Nothing } }
    ensures off { (k : List ℕ) → bar_at table.new k ≡ (if is_barring worker.old.token k then None else bar_at table.old k) }
    ensures holds { table.new.holds ≡ table.old.holds }
    ensures fills { table.new.fills ≡ table.old.fills }
    ensures owns { HasToken worker.old.number worker.old.job.key Token.Nothing table.new }
    ensures others { OthersStay worker.old.number table.old table.new }
{
    match worker.take_token() {
        Token::Nothing => {}
        Token::Bar(bar) => table.unbar(bar),
        Token::Share(_share) => unreachable!(),
    }
}
