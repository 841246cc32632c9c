//! To which peers the next step may send more than a Close.
ghost use Rattle.std.specs.Prelude.{◌≡◌, ℕ, Some, None, IfOk};
ghost use Rattle.object_store.specs.Stores.{Contents};
ghost use Rattle.node_model.specs.SetUp.{SetUp};
ghost use Rattle.node_model.specs.State.{State};
ghost use Rattle.node_model.specs.Look.{Look};
ghost use Rattle.node_model.specs.Jobs.{Work, partner};
ghost use Rattle.node_model.specs.JobStep.{turn_of};
ghost use Rattle.node_model.specs.Turns.{needs};
ghost use Rattle.content_lock.specs.Rows.{Rows};
ghost use Rattle.drop_phases.specs.Working.{phase_as, sight};
ghost use Rattle.annex_base.specs.Lists.{Each};
ghost use Rattle.drop_phases.specs.Begun.{IsOther};
ghost use Rattle.drop_phases.specs.Sides.{FitsSide, HasTarget, HearsOwn, side_in};
ghost use Rattle.drop_worker.specs.States.{IsSight, HaveState};

use annex_base::NoMemory;
use drop_phases::{Here, Phase, Time, Worker};
use local_drops::needed;
use remote_requests::needed_remotely;
use std::alloc::Global;

/// The peers to which the next step of a drop may send more than a Close, for some answers of its store and its table, where
/// it awaits no frame.
pub fn sends_to<H: Here>(
    worker: &Worker,
    alloc: Global,
    here: &H,
    time: Time,
) -> Result<Vec<u32>, NoMemory>
    requires target { HasTarget (side_in worker.now) worker.now.job.peer (H.reading here.now) }
    requires own { (worker.now.phase ≡ Phase.Fresh → ⊥) → HearsOwn (side_in worker.now) (H.reading here.now) worker.now }
    requires fits { FitsSide (side_in worker.now) worker.now.phase worker.now.token }
    requires awaits { partner worker.now.job.peer (phase_as worker.now.phase) ≡ None }
    ensures does { IfOk result (λ peers. (number : ℕ) (rows : Rows) (contents : Contents) (s : SetUp) (st : State) (k : Look) (v : Work)
        → IsSight (sight (H.reading here.now) (H.ends here.now) time number) s st k worker.now v → HaveState rows contents st → peers.items ≡ needs (turn_of s st k v) v.phase) }
    ensures others { IfOk result (λ peers. Each (IsOther (H.reading here.now)) peers.items) }
{
    match worker.target() {
        None => needed(worker, alloc, here, time),
        Some(target) => needed_remotely(worker, alloc, here, target),
    }
}
