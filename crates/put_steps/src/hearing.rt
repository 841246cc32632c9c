//! The steps of a copy that takes a frame, or finds its connection closed.
ghost use Rattle.std.specs.Prelude.{◌≡◌, [], Some, None, IfOk, OnErr, bytes_eq, codes, if◌then◌else◌};
ghost use Rattle.std.specs.Option.{option_copied};
ghost use Rattle.node_model.specs.Jobs.{Puts, first_part};
ghost use Rattle.node_model.specs.Rows.{option_is};
ghost use Rattle.content_lock.specs.Rows.{Rows};
ghost use Rattle.p2p_wire.specs.Streams.{IsLine};
ghost use Rattle.session_state.specs.declared.incoming.Incoming.TheVariants as incoming;
ghost use Rattle.transfer_turns.specs.Steps.{seen};
ghost use Rattle.transfer_turns.specs.Turns.{Sight, awaited};
ghost use Rattle.put_steps.specs.Puts.{work_of};
ghost use Rattle.put_steps.specs.Putting.{Does};
ghost use Rattle.put_steps.specs.Stepping.{Hears, IsAwaiting, Told, close_to, message_to};

use crate::phase::{Ending, Phase};
use crate::putting::Putting;
use crate::saying::{offer, say, shut};
use crate::sending::announce;
use annex_base::{NoMemory, Text};
use object_store::Keeper;
use p2p_wire::Message;
use session_state::Incoming;
use std::alloc::Global;
use transfer_turns::Output;

/// The step of a copy that awaits a frame of this peer, with what came; or with nothing, where the connection was closed
/// here.
pub fn hear<K: Keeper>(
    putting: &mut Putting,
    alloc: Global,
    keeper: &mut K,
    incoming: Option<&Incoming>,
    peer: u32,
) -> Result<Output, NoMemory>
    requires puts { first_part putting.old.job.kind ≡ Puts }
    requires awaits { awaited (work_of putting.old) ≡ Some peer }
    ensures does { (x : Sight) (rows : Rows) → Does x (option_copied incoming.entry) rows (seen (K.contents keeper.old) (K.parts keeper.old) (K.records keeper.old) (K.files keeper.old) (K.faults keeper.old) (K.failing keeper.old)) (seen (K.contents keeper.new) (K.parts keeper.new) (K.records keeper.new) (K.files keeper.new) (K.faults keeper.new) (K.failing keeper.new)) putting.old putting.new result }
{
    match incoming {
        Some(incoming) => take(putting, alloc, keeper, incoming, peer),
        None => Ok(putting.close(alloc)),
    }
}

/// The step that takes a frame.
fn take<K: Keeper>(
    putting: &mut Putting,
    alloc: Global,
    keeper: &mut K,
    incoming: &Incoming,
    peer: u32,
) -> Result<Output, NoMemory>
    requires awaits { awaited (work_of putting.old) ≡ Some peer }
    ensures does { (x : Sight) (rows : Rows) → Does x (Some incoming.now) rows (seen (K.contents keeper.old) (K.parts keeper.old) (K.records keeper.old) (K.files keeper.old) (K.faults keeper.old) (K.failing keeper.old)) (seen (K.contents keeper.new) (K.parts keeper.new) (K.records keeper.new) (K.files keeper.new) (K.faults keeper.new) (K.failing keeper.new)) putting.old putting.new result }
{
    match incoming {
        Incoming::Closing => Ok(putting.close(alloc)),
        Incoming::Message(message) => take_message(putting, alloc, keeper, message),
        Incoming::Opening => shut(putting, alloc, peer),
        Incoming::Bytes(_) => shut(putting, alloc, peer),
        Incoming::Bad => shut(putting, alloc, peer),
    }
}

/// The step that takes a message.
fn take_message<K: Keeper>(
    putting: &mut Putting,
    alloc: Global,
    keeper: &mut K,
    message: &Message,
) -> Result<Output, NoMemory>
    requires awaits { IsAwaiting putting.old.phase }
    ensures does { (x : Sight) (rows : Rows) → Does x (Some (incoming.Message message.now)) rows (seen (K.contents keeper.old) (K.parts keeper.old) (K.records keeper.old) (K.files keeper.old) (K.faults keeper.old) (K.failing keeper.old)) (seen (K.contents keeper.new) (K.parts keeper.new) (K.records keeper.new) (K.files keeper.new) (K.faults keeper.new) (K.failing keeper.new)) putting.old putting.new result }
{
    match putting.phase {
        Phase::Opens { peer } => take_opened(putting, alloc, message, peer),
        Phase::Greets { peer } => take_version(putting, alloc, message, peer),
        Phase::Offer { peer } => take_offer(putting, alloc, keeper, message, peer),
        Phase::Answer { peer, start } => take_answer(putting, alloc, message, peer, start),
        _ => unreachable!(),
    }
}

/// The answer to an opening.
fn take_opened(
    putting: &mut Putting,
    alloc: Global,
    message: &Message,
    peer: u32,
) -> Result<Output, NoMemory>
    requires opens { putting.old.phase ≡ Phase.Opens peer }
    ensures hears { Hears (Some (incoming.Message message.now)) putting.old putting.new result }
{
    match message {
        Message::AuthSuccess(_) => {
            let output = say(putting, alloc, peer, Message::Version(3))?;
            putting.phase = Phase::Greets { peer };
            Ok(output)
        }
        _ => shut(putting, alloc, peer),
    }
}

/// The answer to VERSION: the content is offered, or the connection is closed where the version is none that was asked for.
fn take_version(
    putting: &mut Putting,
    alloc: Global,
    message: &Message,
    peer: u32,
) -> Result<Output, NoMemory>
    requires greets { putting.old.phase ≡ Phase.Greets peer }
    ensures hears { Hears (Some (incoming.Message message.now)) putting.old putting.new result }
{
    match message {
        Message::Version(version) => agree(putting, alloc, peer, *version),
        _ => shut(putting, alloc, peer),
    }
}

/// The content is offered by a version that was asked for.
fn agree(putting: &mut Putting, alloc: Global, peer: u32, version: u64) -> Result<Output, NoMemory>
    requires greets { putting.old.phase ≡ Phase.Greets peer }
    ensures hears { Hears (Some (incoming.Message (Message.Version version))) putting.old putting.new result }
{
    if version > 3 {
        return shut_unknown(putting, alloc, peer, version);
    }
    offer_known(putting, alloc, peer, version)
}

/// A version that wasn't asked for closes the connection.
fn shut_unknown(
    putting: &mut Putting,
    alloc: Global,
    peer: u32,
    version: u64,
) -> Result<Output, NoMemory>
    ensures ok { IfOk result (Told putting.old putting.new (close_to peer) (Phase.Ends Ending.Closed) (if option_is putting.old.job.peer peer then version else putting.old.version)) }
    ensures err { OnErr result (putting.new ≡ putting.old) }
{
    let output = shut(putting, alloc, peer)?;
    putting.learn(peer, version);
    Ok(output)
}

/// The content is offered to a peer of this version.
fn offer_known(
    putting: &mut Putting,
    alloc: Global,
    peer: u32,
    version: u64,
) -> Result<Output, NoMemory>
    ensures ok { IfOk result (Told putting.old putting.new (message_to peer (Message.Put [] putting.old.job.key)) (Phase.Offer peer) (if option_is putting.old.job.peer peer then version else putting.old.version)) }
    ensures line { IfOk result (λ out. IsLine (Message.Put [] putting.old.job.key)) }
    ensures err { OnErr result (putting.new ≡ putting.old) }
{
    let output = offer(putting, alloc, peer)?;
    putting.learn(peer, version);
    Ok(output)
}

/// The answer to PUT.
fn take_offer<K: Keeper>(
    putting: &mut Putting,
    alloc: Global,
    keeper: &mut K,
    message: &Message,
    peer: u32,
) -> Result<Output, NoMemory>
    requires offers { putting.old.phase ≡ Phase.Offer peer }
    ensures does { (x : Sight) (rows : Rows) → Does x (Some (incoming.Message message.now)) rows (seen (K.contents keeper.old) (K.parts keeper.old) (K.records keeper.old) (K.files keeper.old) (K.faults keeper.old) (K.failing keeper.old)) (seen (K.contents keeper.new) (K.parts keeper.new) (K.records keeper.new) (K.files keeper.new) (K.faults keeper.new) (K.failing keeper.new)) putting.old putting.new result }
{
    match message {
        Message::AlreadyHave => Ok(putting.finish(alloc, None)),
        Message::Failure => Ok(putting.refuse(alloc, Ending::Rejected)),
        Message::Error(text) => take_error(putting, alloc, text, peer),
        Message::PutFrom(start) => announce(putting, alloc, keeper, peer, *start),
        _ => shut(putting, alloc, peer),
    }
}

/// The peer answered PUT by an error: another transfer of the key is on its way there.
fn take_error(
    putting: &mut Putting,
    alloc: Global,
    text: &Text,
    peer: u32,
) -> Result<Output, NoMemory>
    requires offers { putting.old.phase ≡ Phase.Offer peer }
    ensures hears { Hears (Some (incoming.Message (Message.Error text.now))) putting.old putting.new result }
{
    if is_busy(text) {
        return Ok(putting.refuse(alloc, Ending::Busy));
    }
    shut(putting, alloc, peer)
}

fn is_busy(text: &Text) -> bool
    ensures { result ≡ bytes_eq text.now (codes "busy") }
{
    text.bytes() == b"busy".as_slice()
}

/// The peer's answer to the bytes.
fn take_answer(
    putting: &mut Putting,
    alloc: Global,
    message: &Message,
    peer: u32,
    start: u64,
) -> Result<Output, NoMemory>
    requires answers { putting.old.phase ≡ Phase.Answer peer start }
    ensures hears { Hears (Some (incoming.Message message.now)) putting.old putting.new result }
{
    match message {
        Message::Success => Ok(putting.finish(alloc, Some(start))),
        Message::Failure => Ok(putting.refuse(alloc, Ending::Rejected)),
        _ => shut(putting, alloc, peer),
    }
}
