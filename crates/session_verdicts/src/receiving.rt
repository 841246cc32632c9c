//! A session that has all bytes of a part, and hears whether they are good.
ghost use Rattle.std.specs.Prelude.{◌≡◌, ◌<◌, true, None, IfOk, is_some};
ghost use Rattle.content_lock.specs.Stored.{Agrees};
ghost use Rattle.session_state.specs.Answers.{contents_after};
ghost use Rattle.session_state.specs.Phases.{IsTook};
ghost use Rattle.session_state.specs.SessionCalls.{Makes};
ghost use Rattle.session_state.specs.Stepping.{Goes, IsAt, moment_of};

use crate::verdict;
use annex_base::NoMemory;
use content_lock::LockTable;
use object_store::Keeper;
use p2p_wire::Message;
use run_data::EntryKind;
use session_state::{Doing, Incoming, Scene, SessionState, Step};
use std::alloc::Global;

/// The answer to a message, of a session that has all bytes of a part: whether they are good.
pub fn received<K: Keeper>(
    session: &mut SessionState,
    alloc: Global,
    table: &mut LockTable,
    keeper: &mut K,
    message: &Message,
    scene: Scene,
) -> Result<Step, NoMemory>
    requires at { IsAt scene session.old table.old }
    requires agrees { Agrees (K.records keeper.old) table.old.holds }
    requires phase { IsTook session.old.doing }
    ensures goes { Goes scene (Incoming.Message message.now)
        (moment_of session.old table.old (K.contents keeper.old) (K.parts keeper.old) (K.records keeper.old) (K.faults keeper.old))
        (moment_of session.new table.new (K.contents keeper.new) (K.parts keeper.new) (K.records keeper.new) (K.faults keeper.new)) result }
    ensures files { K.files keeper.new ≡ K.files keeper.old }
    ensures told { is_some (K.parts keeper.old) ≡ true → is_some (K.contents keeper.new) ≡ is_some (K.contents keeper.old) }
    ensures calls { Makes scene (Incoming.Message message.now) session.old table.old (K.contents keeper.old) (K.parts keeper.old) (K.failing keeper.old) (K.failing keeper.new) result }
    ensures contents { IfOk result (λ step. K.contents keeper.new ≡ contents_after (K.contents keeper.old) (K.parts keeper.old) step.kind) }
{
    match message {
        Message::Error(_) => Ok(session.give_up(table)),
        Message::Valid => verify(session, alloc, table, keeper, scene),
        Message::Invalid => {
            session.let_go(table);
            Ok(Step::says(EntryKind::Talk { job: None }, Message::Failure))
        }
        _ => session.refuse(alloc, table),
    }
}

/// VALID.
fn verify<K: Keeper>(
    session: &mut SessionState,
    alloc: Global,
    table: &mut LockTable,
    keeper: &mut K,
    scene: Scene,
) -> Result<Step, NoMemory>
    requires at { IsAt scene session.old table.old }
    requires agrees { Agrees (K.records keeper.old) table.old.holds }
    ensures goes { Goes scene (Incoming.Message Message.Valid)
        (moment_of session.old table.old (K.contents keeper.old) (K.parts keeper.old) (K.records keeper.old) (K.faults keeper.old))
        (moment_of session.new table.new (K.contents keeper.new) (K.parts keeper.new) (K.records keeper.new) (K.faults keeper.new)) result }
    ensures files { K.files keeper.new ≡ K.files keeper.old }
    ensures told { is_some (K.parts keeper.old) ≡ true → is_some (K.contents keeper.new) ≡ is_some (K.contents keeper.old) }
    ensures calls { Makes scene (Incoming.Message Message.Valid) session.old table.old (K.contents keeper.old) (K.parts keeper.old) (K.failing keeper.old) (K.failing keeper.new) result }
    ensures contents { IfOk result (λ step. K.contents keeper.new ≡ contents_after (K.contents keeper.old) (K.parts keeper.old) step.kind) }
{
    let Doing::Took(taken) = &session.doing else {
        return session.refuse(alloc, table);
    };
    let step = verdict::verify(scene, alloc, keeper, taken)?;
    session.let_go(table);
    Ok(step)
}
