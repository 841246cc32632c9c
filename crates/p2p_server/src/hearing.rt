//! The answer to what is heard, by what the session does.
ghost use Rattle.std.specs.Prelude.{◌≡◌, ◌+◌, ◌<◌, ◌^◌, ℕ, List, All, min, true, false, Some, None, IfOk, is_some};
ghost use Rattle.std.specs.declared.option.Option.{Option};
ghost use Rattle.annex_base.specs.declared.kinds.Call.{Call};
ghost use Rattle.object_store.specs.Stores.{AreSmallParts, Contents, Parts};
ghost use Rattle.object_store.specs.declared.keeper.HoldRecord.{HoldRecord};
ghost use Rattle.content_lock.specs.Stored.{Agrees};
ghost use Rattle.session_state.specs.Answers.{LeavesContents, contents_after};
ghost use Rattle.session_state.specs.Bounds.{IsNumberedStep};
ghost use Rattle.session_state.specs.Phases.{IsMoving};
ghost use Rattle.session_state.specs.SessionCalls.{Makes};
ghost use Rattle.session_state.specs.Stepping.{Goes, IsAt, moment_of};

use annex_base::NoMemory;
use content_lock::LockTable;
use object_store::Keeper;
use p2p_wire::Message;
use run_data::EntryKind;
use session_answers::{check_present, remove, remove_before, time, welcome};
use session_locks::{guarded, lock};
use session_parts::{announced, piece, put};
use session_sending::{get, judged};
use session_state::{Doing, Incoming, Scene, SessionState, Step};
use session_verdicts::received;
use std::alloc::Global;

/// The answer to what is heard.
pub(crate) fn hear<K: Keeper>(
    session: &mut SessionState,
    alloc: Global,
    table: &mut LockTable,
    keeper: &mut K,
    incoming: &Incoming,
    scene: Scene,
) -> Result<Step, NoMemory>
    requires at { IsAt scene session.old table.old }
    requires agrees { Agrees (K.records keeper.old) table.old.holds }
    requires early { scene.clock + 600000 < 2 ^ 62 }
    requires fresh { All (λ h. h.number < scene.number) table.old.holds }
    ensures goes { Goes scene (incoming.now)
        (moment_of session.old table.old (K.contents keeper.old) (K.parts keeper.old) (K.records keeper.old) (K.faults keeper.old))
        (moment_of session.new table.new (K.contents keeper.new) (K.parts keeper.new) (K.records keeper.new) (K.faults keeper.new)) result }
    ensures files { K.files keeper.new ≡ K.files keeper.old }
    ensures told { is_some (K.parts keeper.old) ≡ true → is_some (K.contents keeper.new) ≡ is_some (K.contents keeper.old) }
    ensures calls { Makes scene incoming.now session.old table.old (K.contents keeper.old) (K.parts keeper.old) (K.failing keeper.old) (K.failing keeper.new) result }
    ensures small { AreSmallParts (K.parts keeper.old) → AreSmallParts (K.parts keeper.new) }
    ensures contents { IfOk result (λ step. K.contents keeper.new ≡ contents_after (K.contents keeper.old) (K.parts keeper.old) step.kind) }
{
    match incoming {
        Incoming::Opening => Ok(welcome(scene.place.id)),
        Incoming::Closing => {
            session.reset(table);
            Ok(Step::silent(session.place.close_kind()))
        }
        Incoming::Message(message) => match &session.doing {
            Doing::Waits => request(session, alloc, table, keeper, message, scene),
            Doing::Guards { share: _ } => guarded(session, alloc, table, keeper, message, scene),
            Doing::Gives(_) => unasked(session, alloc, table, message, scene),
            Doing::Takes(_) => unasked(session, alloc, table, message, scene),
            Doing::Gave => judged(session, alloc, table, message, scene),
            Doing::Wants(_) => announced(session, alloc, table, message, scene),
            Doing::Took(_) => received(session, alloc, table, keeper, message, scene),
        },
        Incoming::Bytes(bytes) => piece(session, alloc, table, keeper, bytes, scene),
        Incoming::Bad => session.refuse(alloc, table),
    }
}

/// The answer to a message, of a session that gives or takes bytes: none is expected.
fn unasked(
    session: &mut SessionState,
    alloc: Global,
    table: &mut LockTable,
    message: &Message,
    scene: Scene,
) -> Result<Step, NoMemory>
    requires at { IsAt scene session.old table.old }
    requires phase { IsMoving session.old.doing }
    ensures goes { (contents : Option Contents) (parts : Option Parts) (records : Option (List HoldRecord)) (faults : ℕ) → Agrees records table.old.holds → Goes scene (Incoming.Message message.now)
        (moment_of session.old table.old contents parts records faults)
        (moment_of session.new table.new contents parts records faults) result }
    ensures calls { (contents : Option Contents) (parts : Option Parts) (failing : Option (Call → ℕ)) → Makes scene (Incoming.Message message.now) session.old table.old contents parts failing failing result }
    ensures leaves { IfOk result (λ step. LeavesContents step.kind) }
{
    match message {
        Message::Error(_) => Ok(session.give_up(table)),
        _ => session.refuse(alloc, table),
    }
}

/// The answer to a message, of a session that waits.
fn request<K: Keeper>(
    session: &mut SessionState,
    alloc: Global,
    table: &mut LockTable,
    keeper: &mut K,
    message: &Message,
    scene: Scene,
) -> Result<Step, NoMemory>
    requires at { IsAt scene session.old table.old }
    requires agrees { Agrees (K.records keeper.old) table.old.holds }
    requires early { scene.clock + 600000 < 2 ^ 62 }
    requires fresh { All (λ h. h.number < scene.number) table.old.holds }
    requires waits { session.old.doing ≡ Doing.Waits }
    ensures goes { Goes scene (Incoming.Message message.now)
        (moment_of session.old table.old (K.contents keeper.old) (K.parts keeper.old) (K.records keeper.old) (K.faults keeper.old))
        (moment_of session.new table.new (K.contents keeper.new) (K.parts keeper.new) (K.records keeper.new) (K.faults keeper.new)) result }
    ensures files { K.files keeper.new ≡ K.files keeper.old }
    ensures told { is_some (K.contents keeper.new) ≡ is_some (K.contents keeper.old) }
    ensures calls { Makes scene (Incoming.Message message.now) session.old table.old (K.contents keeper.old) (K.parts keeper.old) (K.failing keeper.old) (K.failing keeper.new) result }
    ensures contents { IfOk result (λ step. K.contents keeper.new ≡ contents_after (K.contents keeper.old) (K.parts keeper.old) step.kind) }
{
    match message {
        Message::Error(_) => Ok(session.give_up(table)),
        Message::Version(n) => Ok(agree(session, *n)),
        Message::CheckPresent(key) => {
            let key = key.copy()?;
            Ok(check_present(scene, table, keeper, key))
        }
        Message::LockContent(key) => lock(session, table, keeper, key, scene),
        Message::Remove(key) => {
            let key = key.copy()?;
            Ok(remove(scene, table, keeper, key))
        }
        Message::RemoveBefore { before, key } => {
            if session.spoken < 3 {
                return session.refuse(alloc, table);
            }
            let key = key.copy()?;
            Ok(remove_before(scene, table, keeper, *before, key))
        }
        Message::GetTimestamp => {
            if session.spoken < 3 {
                return session.refuse(alloc, table);
            }
            Ok(time(scene))
        }
        Message::Get {
            start,
            file: _,
            key,
        } => {
            if session.spoken < 1 {
                return session.refuse(alloc, table);
            }
            get(session, table, keeper, *start, key, scene)
        }
        Message::Put { file: _, key } => {
            if session.spoken < 1 {
                return session.refuse(alloc, table);
            }
            put(session, alloc, table, keeper, key, scene)
        }
        _ => session.refuse(alloc, table),
    }
}

/// VERSION: the greatest version that both speak.
fn agree(session: &mut SessionState, n: u64) -> Step
    ensures says { result ≡ record { kind = EntryKind.Talk None; reply = Some (Message.Version (min n session.old.place.version)); close = false } }
    ensures session { session.new ≡ record { place = session.old.place; spoken = min n session.old.place.version; doing = session.old.doing } }
    ensures fits { (number : ℕ) → IsNumberedStep number result }
{
    session.spoken = n.min(session.place.version as u64);
    Step::says(
        EntryKind::Talk { job: None },
        Message::Version(session.spoken),
    )
}
