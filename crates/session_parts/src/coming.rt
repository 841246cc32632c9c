//! A session that asks for the bytes of a part, and takes them.
ghost use Rattle.std.specs.Prelude.{◌≡◌, ◌≤◌, ◌<◌, ℕ, List, length, Some, None, IfOk, is_some};
ghost use Rattle.std.specs.declared.option.Option.{Option};
ghost use Rattle.annex_base.specs.declared.kinds.Call.{Call};
ghost use Rattle.object_store.specs.Stores.{AreSmallParts, Contents, Parts};
ghost use Rattle.object_store.specs.declared.keeper.HoldRecord.{HoldRecord};
ghost use Rattle.node_model.specs.Sessions.{takes_from, took_bytes};
ghost use Rattle.content_lock.specs.Rows.{Rows};
ghost use Rattle.content_lock.specs.Stored.{Agrees};
ghost use Rattle.session_state.specs.Answers.{LeavesContents, contents_after};
ghost use Rattle.session_state.specs.Phases.{HasRoom, IsLonger, IsWanting};
ghost use Rattle.session_state.specs.SessionCalls.{Makes};
ghost use Rattle.session_state.specs.Stepping.{Goes, IsAt, moment_of};
ghost use Rattle.session_state.specs.Talking.{HasFill, IsFed, doing_of, share_in};

use crate::asking;
use annex_base::{Call, NoMemory};
use annex_key::Key;
use content_lock::LockTable;
use object_store::{Keeper, KeeperFault};
use p2p_wire::Message;
use run_data::EntryKind;
use session_state::{Doing, Incoming, Scene, SessionState, Step, begin};
use std::alloc::Global;
use std::mem;

/// PUT: the part's bytes are asked for.
pub fn put<K: Keeper>(
    session: &mut SessionState,
    alloc: Global,
    table: &mut LockTable,
    keeper: &mut K,
    key: &Key,
    scene: Scene,
) -> Result<Step, NoMemory>
    requires at { IsAt scene session.old table.old }
    requires agrees { Agrees (K.records keeper.old) table.old.holds }
    requires waits { session.old.doing ≡ Doing.Waits }
    requires spoken { 1 ≤ session.old.spoken }
    ensures goes { (file : List ℕ) → Goes scene (Incoming.Message (Message.Put file key.now))
        (moment_of session.old table.old (K.contents keeper.old) (K.parts keeper.old) (K.records keeper.old) (K.faults keeper.old))
        (moment_of session.new table.new (K.contents keeper.new) (K.parts keeper.new) (K.records keeper.new) (K.faults keeper.new)) result }
    ensures files { K.files keeper.new ≡ K.files keeper.old }
    ensures told { is_some (K.contents keeper.new) ≡ is_some (K.contents keeper.old) }
    ensures calls { (file : List ℕ) → Makes scene (Incoming.Message (Message.Put file key.now)) session.old table.old (K.contents keeper.old) (K.parts keeper.old) (K.failing keeper.old) (K.failing keeper.new) result }
    ensures contents { IfOk result (λ step. K.contents keeper.new ≡ contents_after (K.contents keeper.old) (K.parts keeper.old) step.kind) }
{
    let (step, wanting) = asking::put(scene, alloc, table, keeper, key)?;
    match wanting {
        Some(wanting) => {
            begin(&mut session.doing, Doing::Wants(wanting));
            Ok(step)
        }
        None => Ok(step),
    }
}

/// The answer to a message, of a session that asked for bytes: how many come.
pub fn announced(
    session: &mut SessionState,
    alloc: Global,
    table: &mut LockTable,
    message: &Message,
    scene: Scene,
) -> Result<Step, NoMemory>
    requires at { IsAt scene session.old table.old }
    requires phase { IsWanting session.old.doing }
    ensures goes { (contents : Option Contents) (parts : Option Parts) (records : Option (List HoldRecord)) (faults : ℕ) → Agrees records table.old.holds → Goes scene (Incoming.Message message.now)
        (moment_of session.old table.old contents parts records faults)
        (moment_of session.new table.new contents parts records faults) result }
    ensures calls { (contents : Option Contents) (parts : Option Parts) (failing : Option (Call → ℕ)) → Makes scene (Incoming.Message message.now) session.old table.old contents parts failing failing result }
    ensures leaves { IfOk result (λ step. LeavesContents step.kind) }
{
    match message {
        Message::Error(_) => Ok(session.give_up(table)),
        Message::Data(count) => {
            expect(&mut session.doing, *count);
            Ok(Step::silent(EntryKind::Talk { job: None }))
        }
        _ => session.refuse(alloc, table),
    }
}

/// A piece of a part.
pub fn piece<K: Keeper>(
    session: &mut SessionState,
    alloc: Global,
    table: &mut LockTable,
    keeper: &mut K,
    bytes: &Vec<u8>,
    scene: Scene,
) -> Result<Step, NoMemory>
    requires at { IsAt scene session.old table.old }
    requires agrees { Agrees (K.records keeper.old) table.old.holds }
    ensures goes { Goes scene (Incoming.Bytes bytes.now)
        (moment_of session.old table.old (K.contents keeper.old) (K.parts keeper.old) (K.records keeper.old) (K.faults keeper.old))
        (moment_of session.new table.new (K.contents keeper.new) (K.parts keeper.new) (K.records keeper.new) (K.faults keeper.new)) result }
    ensures files { K.files keeper.new ≡ K.files keeper.old }
    ensures told { is_some (K.contents keeper.new) ≡ is_some (K.contents keeper.old) }
    ensures calls { Makes scene (Incoming.Bytes bytes.now) session.old table.old (K.contents keeper.old) (K.parts keeper.old) (K.failing keeper.old) (K.failing keeper.new) result }
    ensures small { AreSmallParts (K.parts keeper.old) → AreSmallParts (K.parts keeper.new) }
    ensures contents { IfOk result (λ step. K.contents keeper.new ≡ contents_after (K.contents keeper.old) (K.parts keeper.old) step.kind) }
{
    let Doing::Takes(taking) = &session.doing else {
        return session.refuse(alloc, table);
    };
    let count = bytes.len() as u64;
    if !taking.awaits(count) {
        return session.refuse(alloc, table);
    }
    match keeper.append_part(taking.fill.key(), bytes) {
        Ok(()) => {
            append(&mut session.doing, bytes);
            Ok(Step::silent(EntryKind::Talk { job: None }))
        }
        Err(KeeperFault::Failed) => {
            session.reset(table);
            Ok(Step::lost(scene, Call::Append))
        }
        Err(KeeperFault::NoMemory) => Err(NoMemory),
    }
}

/// So many bytes are to come.
fn expect(doing: &mut Doing, count: u64)
    requires phase { IsWanting doing.old }
    ensures doing { doing_of doing.new ≡ takes_from count (doing_of doing.old) }
    ensures share { share_in doing.new ≡ share_in doing.old }
    ensures fills { (rows : Rows) → HasFill rows doing.old → HasFill rows doing.new }
    ensures fed { (p : Parts) → IsFed p doing.old → IsFed p doing.new }
{
    match mem::replace(doing, Doing::Waits) {
        Doing::Wants(wanting) => begin(doing, part_filling::announced(wanting, count)),
        _ => unreachable!(),
    }
}

/// The piece was put to the part.
fn append(doing: &mut Doing, piece: &[u8])
    requires room { HasRoom doing.old (length piece.now) }
    ensures doing { doing_of doing.new ≡ took_bytes (length piece.now) (doing_of doing.old) }
    ensures share { share_in doing.new ≡ share_in doing.old }
    ensures fills { (rows : Rows) → HasFill rows doing.old → HasFill rows doing.new }
    ensures fed { (p p' : Parts) → IsFed p doing.old → IsLonger doing.old p p' piece.now → IsFed p' doing.new }
{
    match mem::replace(doing, Doing::Waits) {
        Doing::Takes(taking) => begin(doing, part_filling::appended(taking, piece)),
        _ => unreachable!(),
    }
}
