//! One session among those of a repository serves.
ghost use Rattle.std.specs.Prelude.{◌≡◌, ◌≤◌, ◌+◌, ◌<◌, ◌^◌, ℕ, List, All, true, Some, IfOk, OnErr, is_some};
ghost use Rattle.content_lock.specs.Stored.{Agrees};
ghost use Rattle.content_lock.specs.Tokens.{Owns};
ghost use Rattle.node_ends.specs.Ends.{link_at};
ghost use Rattle.object_store.specs.Stores.{AreSmallParts};
ghost use Rattle.p2p_server.specs.Stepping.{moment_of};
ghost use Rattle.p2p_server.specs.Talking.{HasFillOf, share_of};
ghost use Rattle.node_sessions.specs.Moments.{MakesAmong, MakesSo, Serves, ServesAmong};
ghost use Rattle.node_sessions.specs.Sessions.{HaveEnds, OwnAll, end_of, owner_of};
ghost use Rattle.node_sessions.specs.Turns.{IsFirstAt, turn_at};

use crate::answer::answer;
use crate::giving::give;
use crate::served::Served;
use crate::turn::{First, Turn, id_at};
use annex_base::NoMemory;
use content_lock::LockTable;
use node_ends::Ends;
use object_store::Keeper;
use p2p_server::Session;
use std::alloc::Global;

/// A session does what it has to do.
fn act<K: Keeper>(
    session: &mut Session,
    turn: Turn,
    alloc: Global,
    ends: &Ends,
    table: &mut LockTable,
    keeper: &mut K,
    clock: u64,
    number: u64,
) -> Result<Served, NoMemory>
    requires agrees { Agrees (K.records keeper.old) table.old.holds }
    requires early { clock + 600000 < 2 ^ 62 }
    requires fresh { All (λ h. h.number < number) table.old.holds }
    requires owns { Owns (owner_of session.old) (share_of session.old) table.old.holds }
    requires fills { HasFillOf table.old session.old }
    requires there { is_some (link_at ends.now (end_of session.old)) ≡ true }
    requires turn { turn_at ends.now session.old ≡ Some turn }
    ensures serves { IfOk result (λ v. Serves ends.now clock number
        (moment_of session.old table.old (K.contents keeper.old) (K.parts keeper.old) (K.records keeper.old) (K.faults keeper.old))
        (moment_of session.new table.new (K.contents keeper.new) (K.parts keeper.new) (K.records keeper.new) (K.faults keeper.new)) v) }
    ensures calls { IfOk result (λ v. MakesSo ends.now clock number
        (moment_of session.old table.old (K.contents keeper.old) (K.parts keeper.old) (K.records keeper.old) (K.faults keeper.old)) v (K.failing keeper.old) (K.failing keeper.new)) }
    ensures err { OnErr result ((session.new ≡ session.old) × (table.new ≡ table.old)) }
    ensures err_contents { OnErr result (K.contents keeper.new ≡ K.contents keeper.old) }
    ensures err_parts { OnErr result (K.parts keeper.new ≡ K.parts keeper.old) }
    ensures err_records { OnErr result (K.records keeper.new ≡ K.records keeper.old) }
    ensures err_failing { OnErr result (K.failing keeper.new ≡ K.failing keeper.old) }
    ensures small { AreSmallParts (K.parts keeper.old) → AreSmallParts (K.parts keeper.new) }
    ensures files { K.files keeper.new ≡ K.files keeper.old }
    ensures told { is_some (K.parts keeper.old) ≡ true → is_some (K.contents keeper.new) ≡ is_some (K.contents keeper.old) }
    ensures later { K.faults keeper.old ≤ K.faults keeper.new }
{
    match turn {
        Turn::Takes => {
            let place = session.place();
            let id = id_at(&place);
            match ends.waiting(id) {
                Some(frame) => answer(session, alloc, frame, table, keeper, clock, number),
                None => unreachable!(),
            }
        }
        Turn::Gives => give(session, alloc, keeper),
    }
}

/// The first that has something to do does it.
pub(crate) fn serve<K: Keeper>(
    sessions: &mut Vec<Session>,
    first: First,
    alloc: Global,
    ends: &Ends,
    table: &mut LockTable,
    keeper: &mut K,
    clock: u64,
    number: u64,
) -> Result<Served, NoMemory>
    requires agrees { Agrees (K.records keeper.old) table.old.holds }
    requires early { clock + 600000 < 2 ^ 62 }
    requires fresh { All (λ h. h.number < number) table.old.holds }
    requires owns { OwnAll table.old sessions.old.items }
    requires there { HaveEnds ends.now sessions.old.items }
    requires first { IsFirstAt ends.now sessions.old.items first }
    ensures serves { IfOk result (λ v. ServesAmong ends.now clock number first.at sessions.old.items sessions.new.items table.old table.new
        (K.contents keeper.old) (K.contents keeper.new) (K.parts keeper.old) (K.parts keeper.new) (K.records keeper.old) (K.records keeper.new) (K.faults keeper.old) (K.faults keeper.new) v) }
    ensures calls { IfOk result (λ v. MakesAmong ends.now clock number first.at sessions.old.items table.old
        (K.contents keeper.old) (K.parts keeper.old) (K.records keeper.old) (K.faults keeper.old) v (K.failing keeper.old) (K.failing keeper.new)) }
    ensures err { OnErr result ((sessions.new.items ≡ sessions.old.items) × (table.new ≡ table.old)) }
    ensures err_contents { OnErr result (K.contents keeper.new ≡ K.contents keeper.old) }
    ensures err_parts { OnErr result (K.parts keeper.new ≡ K.parts keeper.old) }
    ensures err_records { OnErr result (K.records keeper.new ≡ K.records keeper.old) }
    ensures err_failing { OnErr result (K.failing keeper.new ≡ K.failing keeper.old) }
    ensures small { AreSmallParts (K.parts keeper.old) → AreSmallParts (K.parts keeper.new) }
    ensures files { K.files keeper.new ≡ K.files keeper.old }
    ensures told { is_some (K.parts keeper.old) ≡ true → is_some (K.contents keeper.new) ≡ is_some (K.contents keeper.old) }
    ensures later { K.faults keeper.old ≤ K.faults keeper.new }
{
    let session = &mut sessions[first.at];
    act(
        session, first.turn, alloc, ends, table, keeper, clock, number,
    )
}
