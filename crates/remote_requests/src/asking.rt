//! What a remote drop says to a peer: its first request to it, and the order.
ghost use Rattle.std.specs.Prelude.{◌≡◌, ◌<◌, ◌^◌, [], ◌∷◌, false, Some, IfOk, OnErr};
ghost use Rattle.std.specs.Option.{ForSome};
ghost use Rattle.p2p_wire.specs.Streams.{IsLine};
ghost use Rattle.remote_requests.specs.Remote.{AreRemoteProtocolLines, Says, first_request, order_message, order_of, target_request, time_request};

use annex_base::NoMemory;
use annex_key::{Key, key_texts_have_no_fault};
use drop_phases::{
    Ending, Here, Output, Parcel, ParcelBody, Phase, Said, Sends, Time, Worker, quietly, talk,
    telling,
};
use p2p_wire::{Message, sent_messages_have_lines};
use run_data::EntryKind;
use std::alloc::Global;

/// The first request on an open connection, whose version is this: the target's by the least end of the locks, in milliseconds of
/// the clock, or a candidate's.
pub fn request<H: Here>(
    worker: &mut Worker,
    alloc: Global,
    here: &H,
    time: Time,
    target: u32,
    peer: u32,
    version: u64,
    end: Option<u64>,
) -> Result<Output, NoMemory>
    ensures says { IfOk result (Says (first_request (H.reading here.now).need worker.old target time peer version end) peer worker.old worker.new) }
    ensures err { OnErr result (worker.new ≡ worker.old) }
{
    if target == peer {
        return ask_target(worker, alloc, here, peer, version, end);
    }
    // For the proof: what it says are lines of the protocol.
    reads_all(worker.key());
    let said = Said::new(alloc, Message::LockContent(worker.key().copy()?))?;
    let said = ParcelBody::Message(said);
    let out = telling(alloc, worker.number(), peer, said)?;
    worker.go_to(Phase::AsksLock { peer, since: time });
    Ok(out)
}

/// The first request to the target: where there is a lock, its protocol must know deadlines.
fn ask_target<H: Here>(
    worker: &mut Worker,
    alloc: Global,
    here: &H,
    target: u32,
    version: u64,
    end: Option<u64>,
) -> Result<Output, NoMemory>
    ensures says { IfOk result (Says (target_request (H.reading here.now).need worker.old target version end) target worker.old worker.new) }
    ensures err { OnErr result (worker.new ≡ worker.old) }
{
    match end {
        None => order(worker, alloc, here, target, None),
        Some(_) => ask_time(worker, alloc, target, version),
    }
}

/// The target is asked for its time, unless its protocol is too old.
fn ask_time(
    worker: &mut Worker,
    alloc: Global,
    target: u32,
    version: u64,
) -> Result<Output, NoMemory>
    ensures says { IfOk result (Says (time_request worker.old version) target worker.old worker.new) }
    ensures err { OnErr result (worker.new ≡ worker.old) }
{
    if version < 3 {
        let kind = talk(worker.number());
        let version = version as u8;
        worker.go_to(Phase::Ends(Ending::OldProtocol { version }));
        return Ok(quietly(alloc, kind));
    }
    // For the proof: what it says are lines of the protocol.
    reads_all(worker.key());
    let said = ParcelBody::Message(Said::new(alloc, Message::GetTimestamp)?);
    let out = telling(alloc, worker.number(), target, said)?;
    worker.go_to(Phase::AsksTime);
    Ok(out)
}

/// The order, up to a time of the target's clock, in seconds, where the evidence has locks.
pub fn order<H: Here>(
    worker: &mut Worker,
    alloc: Global,
    here: &H,
    target: u32,
    deadline: Option<u64>,
) -> Result<Output, NoMemory>
    requires early { ForSome deadline (λ n. n < 2 ^ 63) }
    ensures says { IfOk result (Says (order_of (H.reading here.now).need worker.old target deadline) target worker.old worker.new) }
    ensures err { OnErr result (worker.new ≡ worker.old) }
{
    // For the proof: what it says are lines of the protocol.
    reads_all(worker.key());
    let key = worker.key().copy()?;
    let said = order_message(worker.key().copy()?, deadline);
    let sends = saying(alloc, target, said)?;
    let kind = EntryKind::Order {
        job: worker.number(),
        target,
        deadline,
        need: here.need(),
        key,
    };
    worker.go_to(Phase::Orders);
    Ok(Output {
        kind,
        sends,
        ended: false,
    })
}

fn order_message(key: Key, deadline: Option<u64>) -> Message
    ensures { result ≡ order_message key deadline }
{
    match deadline {
        None => Message::Remove(key),
        Some(before) => Message::RemoveBefore { before, key },
    }
}

/// A peer is told a message.
fn saying(alloc: Global, peer: u32, said: Message) -> Result<Sends, NoMemory>
    requires { IsLine said }
    ensures { IfOk result (λ sends. sends.items ≡ record { peer = peer; body = ParcelBody.Message said } ∷ []) }
{
    let said = Said::new(alloc, said)?;
    let mut sends = Sends::new(alloc);
    sends.push(Parcel {
        peer,
        body: ParcelBody::Message(said),
    })?;
    Ok(sends)
}

/// That what a remote drop says are lines of the protocol: it is called for proofs alone, and does nothing (own).
pub fn reads_all(key: &Key)
    ensures { AreRemoteProtocolLines key.now }
{
    key_texts_have_no_fault();
    sent_messages_have_lines();
    let _text = key.text();
}
