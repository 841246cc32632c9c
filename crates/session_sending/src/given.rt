//! A session that sends a content, and hears how it came.
ghost use Rattle.std.specs.Prelude.{◌≡◌, ◌≤◌, ◌+◌, ◌<◌, ℕ, List, Some, None, IfOk, is_some};
ghost use Rattle.std.specs.declared.option.Option.{Option};
ghost use Rattle.annex_base.specs.declared.kinds.Call.{Call};
ghost use Rattle.object_store.specs.Stores.{Contents, Parts};
ghost use Rattle.object_store.specs.declared.keeper.HoldRecord.{HoldRecord};
ghost use Rattle.node_model.specs.Sessions.{gave_bytes};
ghost use Rattle.content_lock.specs.Stored.{Agrees};
ghost use Rattle.session_state.specs.Answers.{LeavesContents, contents_after};
ghost use Rattle.session_state.specs.Giving.{session_sent};
ghost use Rattle.session_state.specs.Phases.{HasLeft, IsBare, IsGave, WithinOf};
ghost use Rattle.session_state.specs.SessionCalls.{Makes};
ghost use Rattle.session_state.specs.Stepping.{Goes, IsAt, moment_of};
ghost use Rattle.session_state.specs.Talking.{doing_of, session_of};

use crate::asked;
use annex_base::NoMemory;
use annex_key::Key;
use content_lock::LockTable;
use object_store::Keeper;
use p2p_wire::Message;
use run_data::EntryKind;
use session_state::{Doing, Giving, Incoming, More, Scene, SessionState, Step, begin};
use std::alloc::Global;
use std::mem;

/// GET: the content's bytes from a place on are sent next.
pub fn get<K: Keeper>(
    session: &mut SessionState,
    table: &LockTable,
    keeper: &mut K,
    start: u64,
    key: &Key,
    scene: Scene,
) -> Result<Step, NoMemory>
    requires at { IsAt scene session.old table.now }
    requires agrees { Agrees (K.records keeper.old) table.now.holds }
    requires waits { session.old.doing ≡ Doing.Waits }
    requires spoken { 1 ≤ session.old.spoken }
    ensures goes { (file : List ℕ) → Goes scene (Incoming.Message (Message.Get start file key.now))
        (moment_of session.old table.now (K.contents keeper.old) (K.parts keeper.old) (K.records keeper.old) (K.faults keeper.old))
        (moment_of session.new table.now (K.contents keeper.new) (K.parts keeper.new) (K.records keeper.new) (K.faults keeper.new)) result }
    ensures files { K.files keeper.new ≡ K.files keeper.old }
    ensures told { is_some (K.contents keeper.new) ≡ is_some (K.contents keeper.old) }
    ensures calls { (file : List ℕ) → Makes scene (Incoming.Message (Message.Get start file key.now)) session.old table.now (K.contents keeper.old) (K.parts keeper.old) (K.failing keeper.old) (K.failing keeper.new) result }
    ensures contents { IfOk result (λ step. K.contents keeper.new ≡ contents_after (K.contents keeper.old) (K.parts keeper.old) step.kind) }
{
    let (step, giving) = asked::get(scene, keeper, start, key)?;
    match giving {
        Some(giving) => {
            begin(&mut session.doing, Doing::Gives(giving));
            Ok(step)
        }
        None => {
            session.spoken = 0;
            Ok(step)
        }
    }
}

/// Goes on after it sent this of a content.
pub fn sent(session: &mut SessionState, more: &More)
    requires within { WithinOf more.now session.old.doing }
    ensures next { session_of session.new ≡ session_sent more.now (session_of session.old) }
    ensures place { session.new.place ≡ session.old.place }
    ensures bare { IsBare session.new.doing }
{
    match more {
        More::Piece(bytes) => pass(&mut session.doing, bytes.len() as u64),
        More::Last(_) => begin(&mut session.doing, Doing::Gave),
        More::Nothing => {}
        More::Gone | More::Fault(_) => {
            session.spoken = 0;
            begin(&mut session.doing, Doing::Waits);
        }
    }
}

/// The answer to a message, of a session that gave a content: what the client says of it.
pub fn judged(
    session: &mut SessionState,
    alloc: Global,
    table: &mut LockTable,
    message: &Message,
    scene: Scene,
) -> Result<Step, NoMemory>
    requires at { IsAt scene session.old table.old }
    requires phase { IsGave session.old.doing }
    ensures goes { (contents : Option Contents) (parts : Option Parts) (records : Option (List HoldRecord)) (faults : ℕ) → Agrees records table.old.holds → Goes scene (Incoming.Message message.now)
        (moment_of session.old table.old contents parts records faults)
        (moment_of session.new table.new contents parts records faults) result }
    ensures calls { (contents : Option Contents) (parts : Option Parts) (failing : Option (Call → ℕ)) → Makes scene (Incoming.Message message.now) session.old table.old contents parts failing failing result }
    ensures leaves { IfOk result (λ step. LeavesContents step.kind) }
{
    match message {
        Message::Error(_) => Ok(session.give_up(table)),
        Message::Success | Message::Failure => {
            begin(&mut session.doing, Doing::Waits);
            Ok(Step::silent(EntryKind::Talk { job: None }))
        }
        _ => session.refuse(alloc, table),
    }
}

/// So many bytes of a content were sent.
fn pass(doing: &mut Doing, count: u64)
    requires room { HasLeft doing.old count }
    ensures doing { doing_of doing.new ≡ gave_bytes count (doing_of doing.old) }
    ensures bare { IsBare doing.new }
{
    match mem::replace(doing, Doing::Waits) {
        Doing::Gives(Giving { key, at, end, good }) => begin(
            doing,
            Doing::Gives(Giving {
                key,
                at: at + count,
                end,
                good,
            }),
        ),
        _ => unreachable!(),
    }
}
