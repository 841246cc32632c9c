//! The steps of a remote drop that take a frame, or find the connection closed.
ghost use Rattle.std.specs.Prelude.{◌≡◌, ◌<◌, ◌^◌, ℕ, [], false, Some, IfOk, OnErr, OnOk};
ghost use Rattle.drop_proof.specs.Judging.{least_end};
ghost use Rattle.node_model.specs.Jobs.{partner};
ghost use Rattle.content_lock.specs.Rows.{Rows};
ghost use Rattle.drop_phases.specs.Apart.{StaysApart};
ghost use Rattle.drop_phases.specs.Working.{phase_as, sight};
ghost use Rattle.drop_phases.specs.Doing.{Takes};
ghost use Rattle.drop_phases.specs.Feeding.{FindsClosed, KeepsAnswer, KeepsWord, TakesClose, TakesOther};
ghost use Rattle.drop_phases.specs.Leaving.{stands_on, store};
ghost use Rattle.remote_requests.specs.Remote.{DidRemote, IsRemote, ShutsRemote, Speaks, StandsRemote, TakesRemote, is_ordering, known_remotely, without_peer};
ghost use Rattle.drop_phases.specs.Begun.{GoesWith};
ghost use Rattle.drop_phases.specs.Sides.{IsNumbered};
ghost use Rattle.drop_phases.specs.Calling.{MakesFed};

use annex_base::{NoMemory, Word};
use content_lock::LockTable;
use drop_phases::{
    Ending, Heard, Here, Input, Output, ParcelBody, Phase, Said, Taken, Time, Worker, quietly,
    talk, telling,
};
use drop_proof::deadline;
use object_store::Keeper;
use p2p_wire::Message;
use remote_requests::{finish, locks_end, order, reads_all, request};
use run_data::{Cause, DropRefusal, EntryKind, Outcome};
use std::alloc::Global;

/// A time of so many seconds is told by no node.
const NO_TIME: u64 = 1 << 61;

/// What the step does that is told what came at its partner's end.
pub fn hear<K: Keeper, H: Here>(
    worker: &mut Worker,
    alloc: Global,
    here: &H,
    table: &mut LockTable,
    keeper: &mut K,
    input: &Input,
    target: u32,
    peer: u32,
) -> Result<Output, NoMemory>
    requires stands { StandsRemote target (K.records keeper.old) table.old worker.old }
    requires awaits { stands_on worker.old ≡ Some peer }
    requires told { input.now.taken ≡ Taken.Nothing → ⊥ }
    ensures did { DidRemote table.old table.new (store (K.contents keeper.old) (K.records keeper.old) (K.faults keeper.old)) (store (K.contents keeper.new) (K.records keeper.new) (K.faults keeper.new)) worker.old worker.new
        (TakesRemote (H.reading here.now) (H.ends here.now) input.now.time table.old table.new peer input.now.taken worker.old worker.new) result }
    ensures word { IfOk result (λ out. KeepsWord input.now.taken input.now.word worker.old worker.new) }
    ensures answer { IfOk result (λ out. KeepsAnswer input.now.taken input.now.word worker.old worker.new) }
    ensures begun { IfOk result (GoesWith peer worker.old worker.new) }
    ensures apart { IfOk result (StaysApart target worker.old worker.new) }
    ensures numbered { IfOk result (λ out. (n : ℕ) → IsNumbered n out.kind) }
    ensures calls { (number : ℕ) → MakesFed (sight (H.reading here.now) (H.ends here.now) input.now.time number) table.old worker.old peer input.now.taken (K.failing keeper.old) (K.failing keeper.new) result }
    ensures parts { K.parts keeper.new ≡ K.parts keeper.old }
    ensures files { K.files keeper.new ≡ K.files keeper.old }
{
    match &input.taken {
        Taken::Message(message) => {
            take_message(
                worker, alloc, here, table, keeper, input, message, target, peer,
            )
        }
        Taken::Other => take_other(worker, alloc, target, peer),
        Taken::Closed => close(worker, alloc, target, peer),
        Taken::Nothing => unreachable!(),
    }
}

/// A message.
fn take_message<K: Keeper, H: Here>(
    worker: &mut Worker,
    alloc: Global,
    here: &H,
    table: &mut LockTable,
    keeper: &mut K,
    input: &Input,
    message: &Message,
    target: u32,
    peer: u32,
) -> Result<Output, NoMemory>
    requires stands { StandsRemote target (K.records keeper.old) table.old worker.old }
    requires awaits { stands_on worker.old ≡ Some peer }
    ensures did { DidRemote table.old table.new (store (K.contents keeper.old) (K.records keeper.old) (K.faults keeper.old)) (store (K.contents keeper.new) (K.records keeper.new) (K.faults keeper.new)) worker.old worker.new
        (TakesRemote (H.reading here.now) (H.ends here.now) input.now.time table.old table.new peer (Taken.Message message.now) worker.old worker.new) result }
    ensures word { IfOk result (λ out. KeepsWord (Taken.Message message.now) input.now.word worker.old worker.new) }
    ensures answer { IfOk result (λ out. KeepsAnswer (Taken.Message message.now) input.now.word worker.old worker.new) }
    ensures begun { IfOk result (GoesWith peer worker.old worker.new) }
    ensures apart { IfOk result (StaysApart target worker.old worker.new) }
    ensures numbered { IfOk result (λ out. (n : ℕ) → IsNumbered n out.kind) }
    ensures calls { (number : ℕ) → MakesFed (sight (H.reading here.now) (H.ends here.now) input.now.time number) table.old worker.old peer (Taken.Message message.now) (K.failing keeper.old) (K.failing keeper.new) result }
    ensures parts { K.parts keeper.new ≡ K.parts keeper.old }
    ensures files { K.files keeper.new ≡ K.files keeper.old }
{
    let time = input.time;
    match worker.phase() {
        Phase::Opens { peer: _ } => take_opened(worker, alloc, time, message, target, peer),
        Phase::Greets { peer: _ } => {
            take_version(worker, alloc, here, time, message, target, peer)
        }
        Phase::AsksLock { peer: _, since } => {
            take_lock(worker, alloc, time, message, target, peer, since)
        }
        Phase::AsksLook { peer: _ } => {
            take_look(worker, alloc, time, message, input.word, target, peer)
        }
        Phase::AsksTime => take_time(worker, alloc, here, table, keeper, time, message, target),
        Phase::Orders => take_answer(worker, alloc, time, message, input.word, target),
        _ => unreachable!(),
    }
}

/// The target's time, in seconds: the order follows, or the end where the locks have expired.
fn take_time<K: Keeper, H: Here>(
    worker: &mut Worker,
    alloc: Global,
    here: &H,
    table: &mut LockTable,
    keeper: &mut K,
    time: Time,
    message: &Message,
    target: u32,
) -> Result<Output, NoMemory>
    requires stands { StandsRemote target (K.records keeper.old) table.old worker.old }
    requires at { worker.old.phase ≡ Phase.AsksTime }
    ensures did { DidRemote table.old table.new (store (K.contents keeper.old) (K.records keeper.old) (K.faults keeper.old)) (store (K.contents keeper.new) (K.records keeper.new) (K.faults keeper.new)) worker.old worker.new
        (TakesRemote (H.reading here.now) (H.ends here.now) time table.old table.new target (Taken.Message message.now) worker.old worker.new) result }
    ensures begun { IfOk result (GoesWith target worker.old worker.new) }
    ensures apart { IfOk result (StaysApart target worker.old worker.new) }
    ensures numbered { IfOk result (λ out. (n : ℕ) → IsNumbered n out.kind) }
    ensures calls { (number : ℕ) → MakesFed (sight (H.reading here.now) (H.ends here.now) time number) table.old worker.old target (Taken.Message message.now) (K.failing keeper.old) (K.failing keeper.new) result }
    ensures parts { K.parts keeper.new ≡ K.parts keeper.old }
    ensures files { K.files keeper.new ≡ K.files keeper.old }
{
    match message {
        Message::Timestamp(now) => {
            take_timestamp(worker, alloc, here, table, keeper, time, *now, target)
        }
        _ => shut(worker, alloc, target, target),
    }
}

/// A time: one that no node tells closes the connection.
fn take_timestamp<K: Keeper, H: Here>(
    worker: &mut Worker,
    alloc: Global,
    here: &H,
    table: &mut LockTable,
    keeper: &mut K,
    time: Time,
    now: u64,
    target: u32,
) -> Result<Output, NoMemory>
    requires stands { StandsRemote target (K.records keeper.old) table.old worker.old }
    requires at { worker.old.phase ≡ Phase.AsksTime }
    ensures did { DidRemote table.old table.new (store (K.contents keeper.old) (K.records keeper.old) (K.faults keeper.old)) (store (K.contents keeper.new) (K.records keeper.new) (K.faults keeper.new)) worker.old worker.new
        (TakesRemote (H.reading here.now) (H.ends here.now) time table.old table.new target (Taken.Message (Message.Timestamp now)) worker.old worker.new) result }
    ensures begun { IfOk result (GoesWith target worker.old worker.new) }
    ensures apart { IfOk result (StaysApart target worker.old worker.new) }
    ensures numbered { IfOk result (λ out. (n : ℕ) → IsNumbered n out.kind) }
    ensures calls { (number : ℕ) → MakesFed (sight (H.reading here.now) (H.ends here.now) time number) table.old worker.old target (Taken.Message (Message.Timestamp now)) (K.failing keeper.old) (K.failing keeper.new) result }
    ensures parts { K.parts keeper.new ≡ K.parts keeper.old }
    ensures files { K.files keeper.new ≡ K.files keeper.old }
{
    if now >= NO_TIME {
        return shut(worker, alloc, target, target);
    }
    order_at(worker, alloc, here, table, keeper, time, now, target)
}

/// The order up to the end of the locks, where there is time.
fn order_at<K: Keeper, H: Here>(
    worker: &mut Worker,
    alloc: Global,
    here: &H,
    table: &mut LockTable,
    keeper: &mut K,
    time: Time,
    now: u64,
    target: u32,
) -> Result<Output, NoMemory>
    requires stands { StandsRemote target (K.records keeper.old) table.old worker.old }
    requires at { worker.old.phase ≡ Phase.AsksTime }
    requires early { now < 2 ^ 61 }
    ensures did { DidRemote table.old table.new (store (K.contents keeper.old) (K.records keeper.old) (K.faults keeper.old)) (store (K.contents keeper.new) (K.records keeper.new) (K.faults keeper.new)) worker.old worker.new
        (TakesRemote (H.reading here.now) (H.ends here.now) time table.old table.new target (Taken.Message (Message.Timestamp now)) worker.old worker.new) result }
    ensures begun { IfOk result (GoesWith target worker.old worker.new) }
    ensures apart { IfOk result (StaysApart target worker.old worker.new) }
    ensures numbered { IfOk result (λ out. (n : ℕ) → IsNumbered n out.kind) }
    ensures calls { (number : ℕ) → MakesFed (sight (H.reading here.now) (H.ends here.now) time number) table.old worker.old target (Taken.Message (Message.Timestamp now)) (K.failing keeper.old) (K.failing keeper.new) result }
    ensures parts { K.parts keeper.new ≡ K.parts keeper.old }
    ensures files { K.files keeper.new ≡ K.files keeper.old }
{
    // For the proof: what it says are lines of the protocol.
    reads_all(worker.key());
    match locks_end(worker, alloc, here, target)? {
        None => order(worker, alloc, here, target, None),
        Some(end) => order_before(worker, alloc, here, table, keeper, time, now, target, end),
    }
}

/// The order up to this end of the locks, in milliseconds of the clock, unless it has passed.
fn order_before<K: Keeper, H: Here>(
    worker: &mut Worker,
    alloc: Global,
    here: &H,
    table: &mut LockTable,
    keeper: &mut K,
    time: Time,
    now: u64,
    target: u32,
    end: u64,
) -> Result<Output, NoMemory>
    requires stands { StandsRemote target (K.records keeper.old) table.old worker.old }
    requires at { worker.old.phase ≡ Phase.AsksTime }
    requires early { now < 2 ^ 61 }
    requires known { Some end ≡ least_end (known_remotely (H.reading here.now) target worker.old) }
    ensures did { DidRemote table.old table.new (store (K.contents keeper.old) (K.records keeper.old) (K.faults keeper.old)) (store (K.contents keeper.new) (K.records keeper.new) (K.faults keeper.new)) worker.old worker.new
        (TakesRemote (H.reading here.now) (H.ends here.now) time table.old table.new target (Taken.Message (Message.Timestamp now)) worker.old worker.new) result }
    ensures begun { IfOk result (GoesWith target worker.old worker.new) }
    ensures apart { IfOk result (StaysApart target worker.old worker.new) }
    ensures numbered { IfOk result (λ out. (n : ℕ) → IsNumbered n out.kind) }
    ensures calls { (number : ℕ) → MakesFed (sight (H.reading here.now) (H.ends here.now) time number) table.old worker.old target (Taken.Message (Message.Timestamp now)) (K.failing keeper.old) (K.failing keeper.new) result }
    ensures parts { K.parts keeper.new ≡ K.parts keeper.old }
    ensures files { K.files keeper.new ≡ K.files keeper.old }
{
    // For the proof: what it says are lines of the protocol.
    reads_all(worker.key());
    let clock = here.clock(time);
    match deadline(end, clock, now) {
        Ok(before) => order(worker, alloc, here, target, Some(before)),
        Err(_expired) => {
            let outcome = Outcome::Refused(DropRefusal::Expired { end, clock });
            finish(worker, alloc, here, table, keeper, time, outcome)
        }
    }
}

/// The answer to VERSION.
fn take_version<H: Here>(
    worker: &mut Worker,
    alloc: Global,
    here: &H,
    time: Time,
    message: &Message,
    target: u32,
    peer: u32,
) -> Result<Output, NoMemory>
    requires remote { IsRemote target worker.old }
    requires at { worker.old.phase ≡ Phase.Greets peer }
    ensures does { IfOk result (λ out. (rows : Rows) → TakesRemote (H.reading here.now) (H.ends here.now) time rows rows peer (Taken.Message message.now) worker.old worker.new out) }
    ensures speaks { IfOk result (Speaks worker.old worker.new) }
    ensures begun { IfOk result (GoesWith peer worker.old worker.new) }
    ensures apart { IfOk result (StaysApart target worker.old worker.new) }
    ensures err { OnErr result (worker.new ≡ worker.old) }
{
    match message {
        Message::Version(version) => greet(worker, alloc, here, time, *version, target, peer),
        _ => shut(worker, alloc, target, peer),
    }
}

/// A version: the first request follows, or the connection is closed where the version is none that was asked for.
fn greet<H: Here>(
    worker: &mut Worker,
    alloc: Global,
    here: &H,
    time: Time,
    version: u64,
    target: u32,
    peer: u32,
) -> Result<Output, NoMemory>
    requires remote { IsRemote target worker.old }
    requires at { worker.old.phase ≡ Phase.Greets peer }
    ensures does { IfOk result (λ out. (rows : Rows) → TakesRemote (H.reading here.now) (H.ends here.now) time rows rows peer (Taken.Message (Message.Version version)) worker.old worker.new out) }
    ensures speaks { IfOk result (Speaks worker.old worker.new) }
    ensures begun { IfOk result (GoesWith peer worker.old worker.new) }
    ensures apart { IfOk result (StaysApart target worker.old worker.new) }
    ensures err { OnErr result (worker.new ≡ worker.old) }
{
    if version > 3 {
        let out = shut(worker, alloc, target, peer)?;
        worker.learn(peer, version);
        return Ok(out);
    }
    let end = locks_end(worker, alloc, here, target)?;
    // For the proof: what it says are lines of the protocol.
    reads_all(worker.key());
    let out = request(worker, alloc, here, time, target, peer, version, end)?;
    worker.learn(peer, version);
    Ok(out)
}

/// The answer to an order, and the word beside it.
fn take_answer(
    worker: &mut Worker,
    alloc: Global,
    time: Time,
    message: &Message,
    word: Option<Word>,
    target: u32,
) -> Result<Output, NoMemory>
    requires remote { IsRemote target worker.old }
    requires at { worker.old.phase ≡ Phase.Orders }
    ensures does { IfOk result (Takes time target message.now worker.old worker.new) }
    ensures obeyed { IfOk result (λ out. message.now ≡ Message.Success → worker.new.word ≡ word) }
    ensures denied { IfOk result (λ out. message.now ≡ Message.Failure → worker.new.word ≡ word) }
    ensures speaks { IfOk result (Speaks worker.old worker.new) }
    ensures begun { IfOk result (GoesWith target worker.old worker.new) }
    ensures apart { IfOk result (StaysApart target worker.old worker.new) }
    ensures err { OnErr result (worker.new ≡ worker.old) }
{
    match message {
        Message::Success => Ok(answered(worker, alloc, word, Phase::Removed)),
        Message::Failure => Ok(answered(worker, alloc, word, Phase::Denied)),
        _ => shut(worker, alloc, target, target),
    }
}

fn answered(worker: &mut Worker, alloc: Global, word: Option<Word>, phase: Phase) -> Output
    ensures says { (result.kind ≡ EntryKind.Talk (Some worker.old.number)) × (result.sends.items ≡ []) × (result.ended ≡ false) }
    ensures next { worker.new ≡ record worker.old { word = word; phase = phase } }
{
    worker.keep_word(word);
    worker.go_to(phase);
    quietly(alloc, talk(worker.number()))
}

/// The answer to LOCKCONTENT.
fn take_lock(
    worker: &mut Worker,
    alloc: Global,
    time: Time,
    message: &Message,
    target: u32,
    peer: u32,
    since: Time,
) -> Result<Output, NoMemory>
    requires remote { IsRemote target worker.old }
    requires at { worker.old.phase ≡ Phase.AsksLock peer since }
    ensures does { IfOk result (Takes time peer message.now worker.old worker.new) }
    ensures speaks { IfOk result (Speaks worker.old worker.new) }
    ensures begun { IfOk result (GoesWith peer worker.old worker.new) }
    ensures apart { IfOk result (StaysApart target worker.old worker.new) }
    ensures err { OnErr result (worker.new ≡ worker.old) }
{
    match message {
        Message::Success => {
            worker.hear(peer, Heard::Held { since })?;
            Ok(quietly(alloc, talk(worker.number())))
        }
        Message::Failure => {
            // For the proof: what it says are lines of the protocol.
            reads_all(worker.key());
            let key = worker.key().copy()?;
            let said = ParcelBody::Message(Said::new(alloc, Message::CheckPresent(key))?);
            let out = telling(alloc, worker.number(), peer, said)?;
            worker.go_to(Phase::AsksLook { peer });
            Ok(out)
        }
        _ => shut(worker, alloc, target, peer),
    }
}

/// The answer to CHECKPRESENT, and the word beside it.
fn take_look(
    worker: &mut Worker,
    alloc: Global,
    time: Time,
    message: &Message,
    word: Option<Word>,
    target: u32,
    peer: u32,
) -> Result<Output, NoMemory>
    requires remote { IsRemote target worker.old }
    requires at { worker.old.phase ≡ Phase.AsksLook peer }
    ensures does { IfOk result (Takes time peer message.now worker.old worker.new) }
    ensures word { IfOk result (λ out. KeepsWord (Taken.Message message.now) word worker.old worker.new) }
    ensures speaks { IfOk result (Speaks worker.old worker.new) }
    ensures begun { IfOk result (GoesWith peer worker.old worker.new) }
    ensures apart { IfOk result (StaysApart target worker.old worker.new) }
    ensures err { OnErr result (worker.new ≡ worker.old) }
{
    match message {
        Message::Success => {
            worker.hear(peer, Heard::Seen)?;
            Ok(quietly(alloc, talk(worker.number())))
        }
        Message::Failure => {
            worker.hear(peer, Heard::Unseen { word })?;
            Ok(quietly(alloc, talk(worker.number())))
        }
        _ => shut(worker, alloc, target, peer),
    }
}

/// The answer to an opening.
fn take_opened(
    worker: &mut Worker,
    alloc: Global,
    time: Time,
    message: &Message,
    target: u32,
    peer: u32,
) -> Result<Output, NoMemory>
    requires remote { IsRemote target worker.old }
    requires at { worker.old.phase ≡ Phase.Opens peer }
    ensures does { IfOk result (Takes time peer message.now worker.old worker.new) }
    ensures speaks { IfOk result (Speaks worker.old worker.new) }
    ensures begun { IfOk result (GoesWith peer worker.old worker.new) }
    ensures apart { IfOk result (StaysApart target worker.old worker.new) }
    ensures err { OnErr result (worker.new ≡ worker.old) }
{
    match message {
        Message::AuthSuccess(_) => {
            // For the proof: what it says are lines of the protocol.
            reads_all(worker.key());
            let said = ParcelBody::Message(Said::new(alloc, Message::Version(3))?);
            let out = telling(alloc, worker.number(), peer, said)?;
            worker.go_to(Phase::Greets { peer });
            Ok(out)
        }
        _ => shut(worker, alloc, target, peer),
    }
}

/// What is no message closes the connection.
fn take_other(
    worker: &mut Worker,
    alloc: Global,
    target: u32,
    peer: u32,
) -> Result<Output, NoMemory>
    requires remote { IsRemote target worker.old }
    requires awaits { partner worker.old.job.peer (phase_as worker.old.phase) ≡ Some peer }
    ensures does { IfOk result (TakesOther peer worker.old worker.new) }
    ensures speaks { IfOk result (Speaks worker.old worker.new) }
    ensures begun { IfOk result (GoesWith peer worker.old worker.new) }
    ensures apart { IfOk result (StaysApart target worker.old worker.new) }
    ensures err { OnErr result (worker.new ≡ worker.old) }
{
    shut(worker, alloc, target, peer)
}

/// The connection is closed, by the peer or here.
fn close(worker: &mut Worker, alloc: Global, target: u32, peer: u32) -> Result<Output, NoMemory>
    requires remote { IsRemote target worker.old }
    requires awaits { partner worker.old.job.peer (phase_as worker.old.phase) ≡ Some peer }
    ensures does { IfOk result (TakesClose peer worker.old worker.new) }
    ensures here { IfOk result (FindsClosed peer worker.old worker.new) }
    ensures speaks { IfOk result (Speaks worker.old worker.new) }
    ensures begun { IfOk result (GoesWith peer worker.old worker.new) }
    ensures apart { IfOk result (StaysApart target worker.old worker.new) }
    ensures err { OnErr result (worker.new ≡ worker.old) }
{
    part(worker, target, peer)?;
    Ok(quietly(alloc, talk(worker.number())))
}

/// What isn't expected closes the connection.
fn shut(worker: &mut Worker, alloc: Global, target: u32, peer: u32) -> Result<Output, NoMemory>
    ensures shuts { IfOk result (ShutsRemote target peer worker.old worker.new) }
    ensures err { OnErr result (worker.new ≡ worker.old) }
{
    let out = telling(alloc, worker.number(), peer, ParcelBody::Close)?;
    part(worker, target, peer)?;
    Ok(out)
}

/// The job goes on without the peer: its target is lost, any other gives nothing.
fn part(worker: &mut Worker, target: u32, peer: u32) -> Result<(), NoMemory>
    ensures ok { OnOk result (worker.new ≡ without_peer worker.old target peer) }
    ensures err { OnErr result (worker.new ≡ worker.old) }
{
    if target == peer {
        let ordered = is_ordering(worker.phase());
        worker.go_to(Phase::Ends(Ending::Lost { ordered }));
        return Ok(());
    }
    worker.hear(peer, Heard::Lacks(Cause::Closed))
}

fn is_ordering(phase: Phase) -> bool
    ensures { result ≡ is_ordering phase }
{
    match phase {
        Phase::Orders => true,
        _ => false,
    }
}
