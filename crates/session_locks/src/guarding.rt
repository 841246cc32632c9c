//! A session that guards a hold.
ghost use Rattle.std.specs.Prelude.{◌≡◌, ◌+◌, ◌<◌, ◌^◌, All, true, false, Some, None, IfOk, is_some};
ghost use Rattle.annex_base.specs.declared.kinds.Call.{Call};
ghost use Rattle.content_lock.specs.Stored.{Agrees};
ghost use Rattle.session_state.specs.Answers.{LeavesContents, contents_after};
ghost use Rattle.session_state.specs.Phases.{IsGuarding};
ghost use Rattle.session_state.specs.SessionCalls.{Makes, MakesStep};
ghost use Rattle.session_state.specs.Stepping.{Goes, IsAt, IsStep, guards_key, moment_of};

use crate::granting;
use annex_base::{Call, NoMemory};
use annex_key::Key;
use content_lock::{LockTable, Share};
use object_store::Keeper;
use p2p_wire::Message;
use run_data::EntryKind;
use session_state::{Doing, Incoming, Scene, SessionState, Step, begin};
use std::alloc::Global;
use std::mem;

/// LOCKCONTENT: the session guards the key where it was granted.
pub fn lock<K: Keeper>(
    session: &mut SessionState,
    table: &mut LockTable,
    keeper: &mut K,
    key: &Key,
    scene: Scene,
) -> Result<Step, NoMemory>
    requires at { IsAt scene session.old table.old }
    requires agrees { Agrees (K.records keeper.old) table.old.holds }
    requires early { scene.clock + 600000 < 2 ^ 62 }
    requires fresh { All (λ h. h.number < scene.number) table.old.holds }
    requires waits { session.old.doing ≡ Doing.Waits }
    ensures goes { Goes scene (Incoming.Message (Message.LockContent key.now))
        (moment_of session.old table.old (K.contents keeper.old) (K.parts keeper.old) (K.records keeper.old) (K.faults keeper.old))
        (moment_of session.new table.new (K.contents keeper.new) (K.parts keeper.new) (K.records keeper.new) (K.faults keeper.new)) result }
    ensures files { K.files keeper.new ≡ K.files keeper.old }
    ensures told { is_some (K.contents keeper.new) ≡ is_some (K.contents keeper.old) }
    ensures calls { Makes scene (Incoming.Message (Message.LockContent key.now)) session.old table.old (K.contents keeper.old) (K.parts keeper.old) (K.failing keeper.old) (K.failing keeper.new) result }
    ensures contents { IfOk result (λ step. K.contents keeper.new ≡ contents_after (K.contents keeper.old) (K.parts keeper.old) step.kind) }
{
    let key = key.copy()?;
    let (step, share) = granting::lock(scene, table, keeper, key)?;
    match share {
        None => Ok(step),
        Some(share) => {
            begin(&mut session.doing, Doing::Guards { share });
            Ok(step)
        }
    }
}

/// The answer to a message, of a session that guards: only the key's UNLOCKCONTENT is expected.
pub fn guarded<K: Keeper>(
    session: &mut SessionState,
    alloc: Global,
    table: &mut LockTable,
    keeper: &mut K,
    message: &Message,
    scene: Scene,
) -> Result<Step, NoMemory>
    requires at { IsAt scene session.old table.old }
    requires agrees { Agrees (K.records keeper.old) table.old.holds }
    requires phase { IsGuarding session.old.doing }
    ensures goes { Goes scene (Incoming.Message message.now)
        (moment_of session.old table.old (K.contents keeper.old) (K.parts keeper.old) (K.records keeper.old) (K.faults keeper.old))
        (moment_of session.new table.new (K.contents keeper.new) (K.parts keeper.new) (K.records keeper.new) (K.faults keeper.new)) result }
    ensures files { K.files keeper.new ≡ K.files keeper.old }
    ensures told { is_some (K.contents keeper.new) ≡ is_some (K.contents keeper.old) }
    ensures calls { Makes scene (Incoming.Message message.now) session.old table.old (K.contents keeper.old) (K.parts keeper.old) (K.failing keeper.old) (K.failing keeper.new) result }
    ensures contents { IfOk result (λ step. K.contents keeper.new ≡ contents_after (K.contents keeper.old) (K.parts keeper.old) step.kind) }
{
    match message {
        Message::Error(_) => Ok(session.give_up(table)),
        Message::UnlockContent(key) => {
            if !guards(&session.doing, key) {
                return session.refuse(alloc, table);
            }
            let key = key.copy()?;
            Ok(unlock(session, table, keeper, key, scene))
        }
        _ => session.refuse(alloc, table),
    }
}

/// UNLOCKCONTENT of the key that it guards. A hold that can't be released is kept.
fn unlock<K: Keeper>(
    session: &mut SessionState,
    table: &mut LockTable,
    keeper: &mut K,
    key: Key,
    scene: Scene,
) -> Step
    requires at { IsAt scene session.old table.old }
    requires agrees { Agrees (K.records keeper.old) table.old.holds }
    requires guards { guards_key session.old.doing key ≡ true }
    ensures goes { IsStep scene (Incoming.Message (Message.UnlockContent key))
        (moment_of session.old table.old (K.contents keeper.old) (K.parts keeper.old) (K.records keeper.old) (K.faults keeper.old))
        (moment_of session.new table.new (K.contents keeper.new) (K.parts keeper.new) (K.records keeper.new) (K.faults keeper.new)) result }
    ensures files { K.files keeper.new ≡ K.files keeper.old }
    ensures told { is_some (K.contents keeper.new) ≡ is_some (K.contents keeper.old) }
    ensures calls { MakesStep scene (Incoming.Message (Message.UnlockContent key)) session.old table.old (K.contents keeper.old) (K.parts keeper.old) (K.failing keeper.old) (K.failing keeper.new) result }
    ensures leaves { LeavesContents result.kind }
    ensures contents { K.contents keeper.new ≡ K.contents keeper.old }
{
    let share = unguard(&mut session.doing);
    let hold = share.number();
    match table.release(keeper, share) {
        Ok(()) => Step::silent(EntryKind::Release { hold, key }),
        Err(share) => {
            table.abandon(share);
            Step::silent(EntryKind::Fault {
                call: Call::Unhold,
                by: scene.owner(),
            })
        }
    }
}

/// Whether the session guards this key.
fn guards(doing: &Doing, key: &Key) -> bool
    ensures { result ≡ guards_key doing.now key.now }
{
    match doing {
        Doing::Guards { share } => key == share.key(),
        _ => false,
    }
}

/// The share that a session guards, which it does no more.
fn unguard(doing: &mut Doing) -> Share
    requires { IsGuarding doing.old }
    ensures guards { doing.old ≡ Doing.Guards result }
    ensures waits { doing.new ≡ Doing.Waits }
{
    match mem::replace(doing, Doing::Waits) {
        Doing::Guards { share } => share,
        _ => unreachable!(),
    }
}
