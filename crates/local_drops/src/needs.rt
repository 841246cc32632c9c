//! To which peers the next step of a local drop may send more than a Close.
ghost use Rattle.std.specs.Prelude.{◌≡◌, ℕ, List, Bool, None, IfOk};
ghost use Rattle.std.specs.declared.option.Option.{Option};
ghost use Rattle.annex_base.specs.declared.kinds.Call.{Call};
ghost use Rattle.drop_proof.specs.declared.rule.Side.TheVariants as sides;
ghost use Rattle.node_model.specs.Jobs.{Drops, drop_side, partner};
ghost use Rattle.node_model.specs.Turns.{needs, next_needs};
ghost use Rattle.content_lock.specs.Rows.{Rows};
ghost use Rattle.drop_phases.specs.Working.{Rest, phase_as, sight, turn_in};
ghost use Rattle.annex_base.specs.Lists.{Each};
ghost use Rattle.drop_phases.specs.Begun.{IsOther};
ghost use Rattle.drop_phases.specs.Feeding.{FitsLocal};

use annex_base::NoMemory;
use drop_judging::{Verdict, gather, judge, locked, others, single};
use drop_phases::{Here, Phase, Time, Worker};
use drop_proof::Side;
use std::alloc::Global;

/// The peers, in the words of a turn.
pub fn needed<H: Here>(
    worker: &Worker,
    alloc: Global,
    here: &H,
    time: Time,
) -> Result<Vec<u32>, NoMemory>
    requires local { drop_side worker.now.job.kind worker.now.job.peer ≡ sides.Local }
    requires fits { FitsLocal worker.now.phase worker.now.token }
    requires awaits { partner worker.now.job.peer (phase_as worker.now.phase) ≡ None }
    ensures does { IfOk result (λ peers. (number : ℕ) (rows : Rows) (p : List ℕ → Bool) (fails : Option Call) (rest : Rest) → peers.items ≡ needs (turn_in (sight (H.reading here.now) (H.ends here.now) time number) rows p fails rest worker.now) (phase_as worker.now.phase)) }
    ensures others { IfOk result (λ peers. Each (IsOther (H.reading here.now)) peers.items) }
{
    match worker.phase() {
        Phase::Fresh => Ok(Vec::new(alloc)),
        Phase::Next => judged(worker, alloc, here, time),
        Phase::Removed | Phase::Ends(_) => locked(worker, alloc, here),
        _ => unreachable!(),
    }
}

/// Where a job is to judge.
fn judged<H: Here>(
    worker: &Worker,
    alloc: Global,
    here: &H,
    time: Time,
) -> Result<Vec<u32>, NoMemory>
    requires local { drop_side worker.now.job.kind worker.now.job.peer ≡ sides.Local }
    ensures does { IfOk result (λ peers. (number : ℕ) (rows : Rows) (p : List ℕ → Bool) (fails : Option Call) (rest : Rest) → peers.items ≡ next_needs (turn_in (sight (H.reading here.now) (H.ends here.now) time number) rows p fails rest worker.now) Drops) }
    ensures others { IfOk result (λ peers. Each (IsOther (H.reading here.now)) peers.items) }
{
    let candidates = others(alloc, here)?;
    let items = gather(worker, alloc, here, Side::Local, &candidates)?;
    match judge(worker, here, time, &candidates, &items) {
        Verdict::Asks(peer) => single(alloc, peer),
        Verdict::Removes => Ok(Vec::new(alloc)),
        Verdict::Late { end: _, clock: _ } => locked(worker, alloc, here),
        Verdict::Lacks => locked(worker, alloc, here),
    }
}
