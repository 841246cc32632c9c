//! The steps of a local drop that take a frame, or find the connection closed.
ghost use Rattle.std.specs.Prelude.{◌≡◌, None, Some, IfOk, OnErr};
ghost use Rattle.drop_proof.specs.declared.rule.Side.TheVariants as sides;
ghost use Rattle.node_model.specs.Jobs.{drop_side, partner};
ghost use Rattle.drop_phases.specs.Working.{phase_as};
ghost use Rattle.drop_phases.specs.Doing.{Shuts, Takes, Talks};
ghost use Rattle.drop_phases.specs.Begun.{StaysWith};
ghost use Rattle.drop_phases.specs.Feeding.{FindsClosed, FitsLocal, KeepsWord, TakesClose, TakesFed, TakesOther};

use annex_base::{NoMemory, Word};
use drop_phases::{
    Heard, Input, Output, ParcelBody, Phase, Said, Taken, Time, Worker, quietly, reads, talk,
    telling,
};
use p2p_wire::Message;
use run_data::Cause;
use std::alloc::Global;

/// What the step does that is told what came at its partner's end.
pub fn hear(
    worker: &mut Worker,
    alloc: Global,
    input: &Input,
    peer: u32,
) -> Result<Output, NoMemory>
    requires local { drop_side worker.old.job.kind worker.old.job.peer ≡ sides.Local }
    requires fits { FitsLocal worker.old.phase worker.old.token }
    requires awaits { partner worker.old.job.peer (phase_as worker.old.phase) ≡ Some peer }
    requires told { input.now.taken ≡ Taken.Nothing → ⊥ }
    ensures does { IfOk result (TakesFed input.now.time peer input.now.taken worker.old worker.new) }
    ensures word { IfOk result (λ out. KeepsWord input.now.taken input.now.word worker.old worker.new) }
    ensures talks { IfOk result (Talks worker.old worker.new) }
    ensures err { OnErr result (worker.new ≡ worker.old) }
    ensures stays { IfOk result (StaysWith peer worker.old worker.new) }
{
    match &input.taken {
        Taken::Message(message) => {
            take_message(worker, alloc, input.time, message, input.word, peer)
        }
        Taken::Other => take_other(worker, alloc, peer),
        Taken::Closed => close(worker, alloc, peer),
        Taken::Nothing => unreachable!(),
    }
}

/// A message.
fn take_message(
    worker: &mut Worker,
    alloc: Global,
    time: Time,
    message: &Message,
    word: Option<Word>,
    peer: u32,
) -> Result<Output, NoMemory>
    requires local { drop_side worker.old.job.kind worker.old.job.peer ≡ sides.Local }
    requires fits { FitsLocal worker.old.phase worker.old.token }
    requires awaits { partner worker.old.job.peer (phase_as worker.old.phase) ≡ Some peer }
    ensures does { IfOk result (Takes time peer message.now worker.old worker.new) }
    ensures word { IfOk result (λ out. KeepsWord (Taken.Message message.now) word worker.old worker.new) }
    ensures talks { IfOk result (Talks worker.old worker.new) }
    ensures err { OnErr result (worker.new ≡ worker.old) }
    ensures stays { IfOk result (StaysWith peer worker.old worker.new) }
{
    match worker.phase() {
        Phase::Opens { peer: _ } => take_opened(worker, alloc, time, message, peer),
        Phase::Greets { peer: _ } => take_version(worker, alloc, time, message, peer),
        Phase::AsksLock { peer: _, since } => {
            take_lock(worker, alloc, time, message, peer, since)
        }
        Phase::AsksLook { peer: _ } => take_look(worker, alloc, time, message, word, peer),
        _ => unreachable!(),
    }
}

/// The answer to LOCKCONTENT.
fn take_lock(
    worker: &mut Worker,
    alloc: Global,
    time: Time,
    message: &Message,
    peer: u32,
    since: Time,
) -> Result<Output, NoMemory>
    requires local { drop_side worker.old.job.kind worker.old.job.peer ≡ sides.Local }
    requires at { worker.old.phase ≡ Phase.AsksLock peer since }
    ensures does { IfOk result (Takes time peer message.now worker.old worker.new) }
    ensures talks { IfOk result (Talks worker.old worker.new) }
    ensures err { OnErr result (worker.new ≡ worker.old) }
    ensures stays { IfOk result (StaysWith peer worker.old worker.new) }
{
    match message {
        Message::Success => {
            worker.hear(peer, Heard::Held { since })?;
            Ok(quietly(alloc, talk(worker.number())))
        }
        Message::Failure => {
            // For the proof: what it says are lines of the protocol.
            reads(worker.key());
            let key = worker.key().copy()?;
            let said = ParcelBody::Message(Said::new(alloc, Message::CheckPresent(key))?);
            let out = telling(alloc, worker.number(), peer, said)?;
            worker.go_to(Phase::AsksLook { peer });
            Ok(out)
        }
        _ => shut(worker, alloc, peer),
    }
}

/// The answer to CHECKPRESENT.
fn take_look(
    worker: &mut Worker,
    alloc: Global,
    time: Time,
    message: &Message,
    word: Option<Word>,
    peer: u32,
) -> Result<Output, NoMemory>
    requires local { drop_side worker.old.job.kind worker.old.job.peer ≡ sides.Local }
    requires at { worker.old.phase ≡ Phase.AsksLook peer }
    ensures does { IfOk result (Takes time peer message.now worker.old worker.new) }
    ensures word { IfOk result (λ out. KeepsWord (Taken.Message message.now) word worker.old worker.new) }
    ensures talks { IfOk result (Talks worker.old worker.new) }
    ensures err { OnErr result (worker.new ≡ worker.old) }
    ensures stays { IfOk result (StaysWith peer worker.old worker.new) }
{
    match message {
        Message::Success => {
            worker.hear(peer, Heard::Seen)?;
            Ok(quietly(alloc, talk(worker.number())))
        }
        Message::Failure => {
            worker.hear(peer, Heard::Unseen { word })?;
            Ok(quietly(alloc, talk(worker.number())))
        }
        _ => shut(worker, alloc, peer),
    }
}

/// The answer to an opening.
fn take_opened(
    worker: &mut Worker,
    alloc: Global,
    time: Time,
    message: &Message,
    peer: u32,
) -> Result<Output, NoMemory>
    requires local { drop_side worker.old.job.kind worker.old.job.peer ≡ sides.Local }
    requires at { worker.old.phase ≡ Phase.Opens peer }
    ensures does { IfOk result (Takes time peer message.now worker.old worker.new) }
    ensures talks { IfOk result (Talks worker.old worker.new) }
    ensures err { OnErr result (worker.new ≡ worker.old) }
    ensures stays { IfOk result (StaysWith peer worker.old worker.new) }
{
    match message {
        Message::AuthSuccess(_) => {
            // For the proof: what it says are lines of the protocol.
            reads(worker.key());
            let said = ParcelBody::Message(Said::new(alloc, Message::Version(3))?);
            let out = telling(alloc, worker.number(), peer, said)?;
            worker.go_to(Phase::Greets { peer });
            Ok(out)
        }
        _ => shut(worker, alloc, peer),
    }
}

/// The answer to VERSION.
fn take_version(
    worker: &mut Worker,
    alloc: Global,
    time: Time,
    message: &Message,
    peer: u32,
) -> Result<Output, NoMemory>
    requires local { drop_side worker.old.job.kind worker.old.job.peer ≡ sides.Local }
    requires at { worker.old.phase ≡ Phase.Greets peer }
    ensures does { IfOk result (Takes time peer message.now worker.old worker.new) }
    ensures talks { IfOk result (Talks worker.old worker.new) }
    ensures err { OnErr result (worker.new ≡ worker.old) }
    ensures stays { IfOk result (StaysWith peer worker.old worker.new) }
{
    match message {
        Message::Version(version) => greet(worker, alloc, time, *version, peer),
        _ => shut(worker, alloc, peer),
    }
}

/// A version: the first request follows, or the connection is closed where the version is none that was asked for.
fn greet(
    worker: &mut Worker,
    alloc: Global,
    time: Time,
    version: u64,
    peer: u32,
) -> Result<Output, NoMemory>
    requires local { drop_side worker.old.job.kind worker.old.job.peer ≡ sides.Local }
    requires at { worker.old.phase ≡ Phase.Greets peer }
    ensures does { IfOk result (Takes time peer (Message.Version version) worker.old worker.new) }
    ensures talks { IfOk result (Talks worker.old worker.new) }
    ensures err { OnErr result (worker.new ≡ worker.old) }
    ensures stays { IfOk result (StaysWith peer worker.old worker.new) }
{
    if version > 3 {
        let out = shut(worker, alloc, peer)?;
        worker.learn(peer, version);
        return Ok(out);
    }
    // For the proof: what it says are lines of the protocol.
    reads(worker.key());
    let said = Said::new(alloc, Message::LockContent(worker.key().copy()?))?;
    let said = ParcelBody::Message(said);
    let out = telling(alloc, worker.number(), peer, said)?;
    worker.learn(peer, version);
    worker.go_to(Phase::AsksLock { peer, since: time });
    Ok(out)
}

/// What is no message closes the connection.
fn take_other(worker: &mut Worker, alloc: Global, peer: u32) -> Result<Output, NoMemory>
    requires local { drop_side worker.old.job.kind worker.old.job.peer ≡ sides.Local }
    requires awaits { partner worker.old.job.peer (phase_as worker.old.phase) ≡ Some peer }
    ensures does { IfOk result (TakesOther peer worker.old worker.new) }
    ensures talks { IfOk result (Talks worker.old worker.new) }
    ensures err { OnErr result (worker.new ≡ worker.old) }
    ensures stays { IfOk result (StaysWith peer worker.old worker.new) }
{
    shut(worker, alloc, peer)
}

/// The connection is closed, by the peer or here.
fn close(worker: &mut Worker, alloc: Global, peer: u32) -> Result<Output, NoMemory>
    requires local { drop_side worker.old.job.kind worker.old.job.peer ≡ sides.Local }
    requires awaits { partner worker.old.job.peer (phase_as worker.old.phase) ≡ Some peer }
    ensures does { IfOk result (TakesClose peer worker.old worker.new) }
    ensures here { IfOk result (FindsClosed peer worker.old worker.new) }
    ensures talks { IfOk result (Talks worker.old worker.new) }
    ensures err { OnErr result (worker.new ≡ worker.old) }
    ensures stays { IfOk result (StaysWith peer worker.old worker.new) }
{
    worker.hear(peer, Heard::Lacks(Cause::Closed))?;
    Ok(quietly(alloc, talk(worker.number())))
}

/// What isn't expected closes the connection.
fn shut(worker: &mut Worker, alloc: Global, peer: u32) -> Result<Output, NoMemory>
    ensures shuts { IfOk result (Shuts peer worker.old worker.new) }
    ensures talks { IfOk result (Talks worker.old worker.new) }
    ensures err { OnErr result (worker.new ≡ worker.old) }
    ensures stays { IfOk result (StaysWith peer worker.old worker.new) }
{
    let out = telling(alloc, worker.number(), peer, ParcelBody::Close)?;
    worker.hear(peer, Heard::Lacks(Cause::Closed))?;
    Ok(out)
}
