//! The end of a remote drop, with what becomes of its own share.
ghost use Rattle.std.specs.Prelude.{◌≡◌, ◌<◌, ℕ, true, false, None, Some, IfOk, map};
ghost use Rattle.std.specs.declared.option.Option.{Option};
ghost use Rattle.annex_base.specs.declared.kinds.Call.{Call};
ghost use Rattle.node_model.specs.Knows.{Reading};
ghost use Rattle.node_model.specs.Rows.{is_lost_ordered, same_owner};
ghost use Rattle.content_lock.specs.Tokens.{HasShare, Owns, ShareView};
ghost use Rattle.content_lock.specs.Rows.{AreAfter};
ghost use Rattle.content_lock.specs.Stored.{Agrees, label_of};
ghost use Rattle.drop_phases.specs.Apart.{StaysApart};
ghost use Rattle.drop_phases.specs.Doing.{HasToken};
ghost use Rattle.drop_phases.specs.Leaving.{store};
ghost use Rattle.drop_phases.specs.Begun.{CanStand, HasGone};
ghost use Rattle.drop_phases.specs.Feeding.{FitsRemote, HasNoBar, IsBare};
ghost use Rattle.remote_requests.specs.Remote.{DidRemote, EndsSo, FailsToRelease, unreleased_phase};
ghost use Rattle.drop_phases.specs.Sides.{IsNumbered};
ghost use Rattle.drop_phases.specs.Calling.{MakesEnd};

use annex_base::{Call, NoMemory};
use content_lock::{LockTable, Share};
use drop_phases::{Here, Output, Phase, Time, Token, Worker, ending, quietly};
use object_store::Keeper;
use run_data::{By, DropRefusal, EntryKind, Outcome};
use std::alloc::Global;

/// The end of a job: its own share is released, or abandoned where an order was lost.
pub fn finish<K: Keeper, H: Here>(
    worker: &mut Worker,
    alloc: Global,
    here: &H,
    table: &mut LockTable,
    keeper: &mut K,
    time: Time,
    outcome: Outcome,
) -> Result<Output, NoMemory>
    requires bare { HasNoBar worker.old.token }
    requires owns { HasToken worker.old.number worker.old.job.key worker.old.token table.old }
    requires agrees { Agrees (K.records keeper.old) table.old.holds }
    ensures did { DidRemote table.old table.new (store (K.contents keeper.old) (K.records keeper.old) (K.faults keeper.old)) (store (K.contents keeper.new) (K.records keeper.new) (K.faults keeper.new)) worker.old worker.new
        (EndsSo (H.reading here.now) (H.ends here.now) time table.old table.new worker.old worker.new outcome) result }
    ensures begun { IfOk result (λ out. (r : Reading) → CanStand r worker.old.phase → FitsRemote worker.old.phase worker.old.token → HasGone r worker.old worker.new out) }
    ensures apart { IfOk result (λ out. (target : ℕ) → StaysApart target worker.old worker.new out) }
    ensures ended { IsBare worker.old.token → IfOk result (λ out. out.ended ≡ true) }
    ensures numbered { IfOk result (λ out. (n : ℕ) → IsNumbered n out.kind) }
    ensures calls { MakesEnd table.old worker.old outcome (K.failing keeper.old) (K.failing keeper.new) result }
    ensures parts { K.parts keeper.new ≡ K.parts keeper.old }
    ensures files { K.files keeper.new ≡ K.files keeper.old }
{
    let lost = is_lost(&outcome);
    let sends = worker.partings(alloc, here, lost)?;
    match worker.take_token() {
        Token::Nothing => Ok(ending(worker.number(), outcome, sends)),
        Token::Share(share) => {
            if lost {
                table.abandon(share);
                return Ok(ending(worker.number(), outcome, sends));
            }
            match table.release(keeper, share) {
                Ok(()) => Ok(ending(worker.number(), outcome, sends)),
                Err(share) => Ok(unreleased(worker, alloc, table, share, time)),
            }
        }
        Token::Bar(_bar) => unreachable!(),
    }
}

/// The share couldn't be released: it is kept until its end, and the job ends next, as it would have.
fn unreleased(
    worker: &mut Worker,
    alloc: Global,
    table: &mut LockTable,
    share: Share,
    time: Time,
) -> Output
    requires given { HasShare table.old.holds share }
    ensures does { FailsToRelease time worker.old worker.new result }
    ensures after { Owns share.owner (Some share) table.old.holds → AreAfter (EntryKind.Fault Call.Unhold share.owner) table.old table.new }
    ensures owns { Owns share.owner (Some share) table.old.holds → Owns share.owner None table.new.holds }
    ensures others { (by : By) (other : Option ShareView) → same_owner share.owner by ≡ false → Owns by other table.old.holds → Owns by other table.new.holds }
    ensures labels { map label_of table.new.holds ≡ map label_of table.old.holds }
{
    table.abandon(share);
    worker.go_to(unreleased_phase(worker.phase(), time));
    let by = By::Job(worker.number());
    let call = Call::Unhold;
    quietly(alloc, EntryKind::Fault { call, by })
}

/// Where the job stands then: a drop whose locks had expired at this time keeps the time.
fn unreleased_phase(phase: Phase, time: Time) -> Phase
    ensures { result ≡ unreleased_phase time phase }
{
    match phase {
        Phase::AsksTime => Phase::Late { time },
        phase => phase,
    }
}

/// Whether the job ends without the answer to an order that it sent.
fn is_lost(outcome: &Outcome) -> bool
    ensures { result ≡ is_lost_ordered outcome.now }
{
    match outcome {
        Outcome::Refused(DropRefusal::Lost { ordered }) => *ordered,
        _ => false,
    }
}
