//! The steps of a get that takes a frame, or finds its connection closed.
ghost use Rattle.std.specs.Prelude.{◌≡◌, ◌≤◌, ◌∷◌, [], Some, true, IfOk, OnErr, if◌then◌else◌, is_some};
ghost use Rattle.std.specs.Option.{option_copied};
ghost use Rattle.node_model.specs.Rows.{option_is};
ghost use Rattle.content_lock.specs.Rows.{Rows};
ghost use Rattle.transfer_turns.specs.Steps.{Seen, seen};
ghost use Rattle.transfer_turns.specs.Turns.{Sight, awaited};
ghost use Rattle.get_phases.specs.Getting.{Does};
ghost use Rattle.get_phases.specs.Gets.{HasFill, fill_in, work_of};
ghost use Rattle.get_phases.specs.Losing.{Loses};
ghost use Rattle.get_commits.specs.Judging.{IsServed};
ghost use Rattle.get_answers.specs.Taking.{IsAsking, IsGreeting, IsOpening};

use crate::rejecting::reject;
use crate::taking::{announce, append};
use annex_base::NoMemory;
use content_lock::LockTable;
use get_commits::verify;
use get_phases::{Asked, Getting, Phase, ask, close, give_up, say, shut, wait_for_data};
use object_store::Keeper;
use p2p_wire::Message;
use run_data::SourceCause;
use session_state::Incoming;
use std::alloc::Global;
use transfer_turns::{Output, ParcelBody, failing, quietly, talk};

/// The step of a get that awaits a frame of this peer, with what came; or with nothing, where the connection was closed
/// here.
pub fn hear<K: Keeper>(
    getting: &mut Getting,
    alloc: Global,
    table: &mut LockTable,
    keeper: &mut K,
    incoming: Option<&Incoming>,
    peer: u32,
) -> Result<Output, NoMemory>
    requires awaits { awaited (work_of getting.old) ≡ Some peer }
    requires has { HasFill table.old getting.old }
    ensures does { (x : Sight) → Does x (option_copied incoming.entry) table.old table.new (seen (K.contents keeper.old) (K.parts keeper.old) (K.records keeper.old) (K.files keeper.old) (K.faults keeper.old) (K.failing keeper.old)) (seen (K.contents keeper.new) (K.parts keeper.new) (K.records keeper.new) (K.files keeper.new) (K.faults keeper.new) (K.failing keeper.new)) getting.old getting.new result }
{
    match incoming {
        None => close(getting, alloc, peer),
        Some(incoming) => take(getting, alloc, table, keeper, incoming, peer),
    }
}

/// The step that takes a frame.
fn take<K: Keeper>(
    getting: &mut Getting,
    alloc: Global,
    table: &mut LockTable,
    keeper: &mut K,
    incoming: &Incoming,
    peer: u32,
) -> Result<Output, NoMemory>
    requires awaits { awaited (work_of getting.old) ≡ Some peer }
    requires has { HasFill table.old getting.old }
    ensures does { (x : Sight) → Does x (Some incoming.now) table.old table.new (seen (K.contents keeper.old) (K.parts keeper.old) (K.records keeper.old) (K.files keeper.old) (K.faults keeper.old) (K.failing keeper.old)) (seen (K.contents keeper.new) (K.parts keeper.new) (K.records keeper.new) (K.files keeper.new) (K.faults keeper.new) (K.failing keeper.new)) getting.old getting.new result }
{
    match incoming {
        Incoming::Closing => close(getting, alloc, peer),
        Incoming::Message(message) => { take_message(getting, alloc, table, keeper, message, peer) }
        Incoming::Bytes(bytes) => append(getting, alloc, keeper, bytes, peer),
        Incoming::Opening => shut(getting, alloc, peer),
        Incoming::Bad => shut(getting, alloc, peer),
    }
}

/// The step that takes a message.
fn take_message<K: Keeper>(
    getting: &mut Getting,
    alloc: Global,
    table: &mut LockTable,
    keeper: &mut K,
    message: &Message,
    peer: u32,
) -> Result<Output, NoMemory>
    requires awaits { awaited (work_of getting.old) ≡ Some peer }
    requires has { HasFill table.old getting.old }
    ensures does { (x : Sight) → Does x (Some (Incoming.Message message.now)) table.old table.new (seen (K.contents keeper.old) (K.parts keeper.old) (K.records keeper.old) (K.files keeper.old) (K.faults keeper.old) (K.failing keeper.old)) (seen (K.contents keeper.new) (K.parts keeper.new) (K.records keeper.new) (K.files keeper.new) (K.faults keeper.new) (K.failing keeper.new)) getting.old getting.new result }
{
    match &getting.phase {
        Phase::Opens { peer: _, fill: _ } => take_opened(getting, alloc, message, peer),
        Phase::Greets { peer: _, fill: _ } => {
            take_version(getting, alloc, keeper, message, peer)
        }
        Phase::Data {
            peer: _,
            wanting: _,
        } => take_data(getting, alloc, message, peer),
        Phase::Bytes {
            peer: _,
            start: _,
            taking: _,
        } => shut(getting, alloc, peer),
        Phase::Word {
            peer: _,
            start: _,
            taken: _,
        } => take_word(getting, alloc, table, keeper, message, peer),
        Phase::Fresh | Phase::Next { fill: _ } | Phase::Ends(_) | Phase::Done => unreachable!(),
    }
}

/// The answer to an opening.
fn take_opened(
    getting: &mut Getting,
    alloc: Global,
    message: &Message,
    peer: u32,
) -> Result<Output, NoMemory>
    requires opens { IsOpening peer getting.old.phase }
    ensures does { (x : Sight) (rows : Rows) (k : Seen) → HasFill rows getting.old → Does x (Some (Incoming.Message message.now)) rows rows k k getting.old getting.new result }
{
    match message {
        Message::AuthSuccess(_) => {
            let output = say(
                alloc,
                getting.key(),
                talk(getting.number),
                peer,
                Message::Version(3),
            )?;
            let fill = getting.take_fill();
            getting.go_to(Phase::Greets { peer, fill });
            Ok(output)
        }
        _ => shut(getting, alloc, peer),
    }
}

/// The answer to VERSION.
fn take_version<K: Keeper>(
    getting: &mut Getting,
    alloc: Global,
    keeper: &mut K,
    message: &Message,
    peer: u32,
) -> Result<Output, NoMemory>
    requires greets { IsGreeting peer getting.old.phase }
    ensures does { (x : Sight) (rows : Rows) → HasFill rows getting.old → Does x (Some (Incoming.Message message.now)) rows rows (seen (K.contents keeper.old) (K.parts keeper.old) (K.records keeper.old) (K.files keeper.old) (K.faults keeper.old) (K.failing keeper.old)) (seen (K.contents keeper.new) (K.parts keeper.new) (K.records keeper.new) (K.files keeper.new) (K.faults keeper.new) (K.failing keeper.new)) getting.old getting.new result }
{
    match message {
        Message::Version(version) => greet(getting, alloc, keeper, peer, *version),
        _ => shut(getting, alloc, peer),
    }
}

/// A version: the bytes are asked for, or the connection is closed where the version is none that was asked for.
fn greet<K: Keeper>(
    getting: &mut Getting,
    alloc: Global,
    keeper: &mut K,
    peer: u32,
    version: u64,
) -> Result<Output, NoMemory>
    requires greets { IsGreeting peer getting.old.phase }
    ensures does { (x : Sight) (rows : Rows) → HasFill rows getting.old → Does x (Some (Incoming.Message (Message.Version version))) rows rows (seen (K.contents keeper.old) (K.parts keeper.old) (K.records keeper.old) (K.files keeper.old) (K.faults keeper.old) (K.failing keeper.old)) (seen (K.contents keeper.new) (K.parts keeper.new) (K.records keeper.new) (K.files keeper.new) (K.faults keeper.new) (K.failing keeper.new)) getting.old getting.new result }
{
    if version > 3 {
        return shut_unknown(getting, alloc, peer, version);
    }
    ask_greeted(getting, alloc, keeper, peer, version)
}

/// A version that wasn't asked for closes the connection.
fn shut_unknown(
    getting: &mut Getting,
    alloc: Global,
    peer: u32,
    version: u64,
) -> Result<Output, NoMemory>
    requires fills { is_some (fill_in getting.old.phase) ≡ true }
    ensures ok { IfOk result (Loses (record { peer = peer; body = ParcelBody.Close } ∷ []) peer SourceCause.Closed (if option_is getting.old.job.peer peer then version else getting.old.version) getting.old getting.new) }
    ensures err { OnErr result (getting.new ≡ getting.old) }
{
    let output = shut(getting, alloc, peer)?;
    getting.learn(peer, version);
    Ok(output)
}

/// A peer of this version is asked for the bytes.
fn ask_greeted<K: Keeper>(
    getting: &mut Getting,
    alloc: Global,
    keeper: &mut K,
    peer: u32,
    version: u64,
) -> Result<Output, NoMemory>
    requires greets { IsGreeting peer getting.old.phase }
    requires known { version ≤ 3 }
    ensures does { (x : Sight) (rows : Rows) → HasFill rows getting.old → Does x (Some (Incoming.Message (Message.Version version))) rows rows (seen (K.contents keeper.old) (K.parts keeper.old) (K.records keeper.old) (K.files keeper.old) (K.faults keeper.old) (K.failing keeper.old)) (seen (K.contents keeper.new) (K.parts keeper.new) (K.records keeper.new) (K.files keeper.new) (K.faults keeper.new) (K.failing keeper.new)) getting.old getting.new result }
{
    match ask(alloc, keeper, getting.number, getting.key(), peer)? {
        Asked::Sent(sent) => {
            getting.learn(peer, version);
            let fill = getting.take_fill();
            Ok(wait_for_data(getting, fill, peer, sent))
        }
        Asked::Failed(call) => {
            give_up(getting);
            Ok(failing(alloc, getting.number, call))
        }
    }
}

/// The answer to GET: how many bytes come.
fn take_data(
    getting: &mut Getting,
    alloc: Global,
    message: &Message,
    peer: u32,
) -> Result<Output, NoMemory>
    requires asks { IsAsking peer getting.old.phase }
    ensures does { (x : Sight) (rows : Rows) (k : Seen) → HasFill rows getting.old → Does x (Some (Incoming.Message message.now)) rows rows k k getting.old getting.new result }
{
    match message {
        Message::Data(count) => {
            announce(getting, *count);
            Ok(quietly(alloc, talk(getting.number)))
        }
        _ => shut(getting, alloc, peer),
    }
}

/// The peer's word on the bytes that have come.
fn take_word<K: Keeper>(
    getting: &mut Getting,
    alloc: Global,
    table: &mut LockTable,
    keeper: &mut K,
    message: &Message,
    peer: u32,
) -> Result<Output, NoMemory>
    requires served { IsServed peer getting.old.phase }
    requires has { HasFill table.old getting.old }
    ensures does { (x : Sight) → Does x (Some (Incoming.Message message.now)) table.old table.new (seen (K.contents keeper.old) (K.parts keeper.old) (K.records keeper.old) (K.files keeper.old) (K.faults keeper.old) (K.failing keeper.old)) (seen (K.contents keeper.new) (K.parts keeper.new) (K.records keeper.new) (K.files keeper.new) (K.faults keeper.new) (K.failing keeper.new)) getting.old getting.new result }
{
    match message {
        Message::Valid => verify(getting, alloc, table, keeper, peer),
        Message::Invalid => reject(getting, alloc, peer),
        _ => shut(getting, alloc, peer),
    }
}
