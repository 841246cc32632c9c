//! To which peers the next step of a remote drop may send more than a Close.
ghost use Rattle.std.specs.Prelude.{◌≡◌, [], ◌∷◌, ℕ, List, Bool, None, Some, IfOk};
ghost use Rattle.std.specs.declared.option.Option.{Option};
ghost use Rattle.annex_base.specs.declared.kinds.Call.{Call};
ghost use Rattle.node_model.specs.Jobs.{Drops};
ghost use Rattle.node_model.specs.Turns.{needs, next_needs};
ghost use Rattle.content_lock.specs.Rows.{Rows};
ghost use Rattle.drop_phases.specs.Working.{Rest, phase_as, sight, turn_in};
ghost use Rattle.drop_phases.specs.Leaving.{stands_on};
ghost use Rattle.drop_judging.specs.Judging.{others_in};
ghost use Rattle.remote_requests.specs.Remote.{IsRemote, owed_at_end, target_room};
ghost use Rattle.annex_base.specs.Lists.{Each};
ghost use Rattle.drop_phases.specs.Begun.{IsOther};
ghost use Rattle.drop_phases.specs.Sides.{HearsOwn};
ghost use Rattle.drop_proof.specs.declared.rule.Side.TheVariants as sides;

use crate::knowing::{candidates, first_end};
use annex_base::NoMemory;
use drop_judging::{gather, locked, next, single};
use drop_phases::{Ending, Here, Phase, Worker};
use drop_proof::{Judged, Side, judge};
use std::alloc::Global;

/// The peers, in the words of a turn.
pub fn needed_remotely<H: Here>(
    worker: &Worker,
    alloc: Global,
    here: &H,
    target: u32,
) -> Result<Vec<u32>, NoMemory>
    requires remote { IsRemote target worker.now }
    requires other { IsOther (H.reading here.now) target }
    requires own { (worker.now.phase ≡ Phase.Fresh → ⊥) → HearsOwn sides.Remote (H.reading here.now) worker.now }
    requires awaits { stands_on worker.now ≡ None }
    ensures does { IfOk result (λ peers. (time number : ℕ) (rows : Rows) (p : List ℕ → Bool) (fails : Option Call) (rest : Rest)
        → peers.items ≡ needs (turn_in (sight (H.reading here.now) (H.ends here.now) time number) rows p fails rest worker.now) (phase_as worker.now.phase)) }
    ensures others { IfOk result (λ peers. Each (IsOther (H.reading here.now)) peers.items) }
{
    match worker.phase() {
        Phase::Fresh => Ok(Vec::new(alloc)),
        Phase::Next => judged_remotely(worker, alloc, here, target),
        Phase::Removed | Phase::Denied | Phase::Late { time: _ } | Phase::Ends(_) => {
            owed_at_end(worker, alloc, here)
        }
        _ => unreachable!(),
    }
}

/// Where a job is to end: those that it has locks of, unless it lost an order.
fn owed_at_end<H: Here>(worker: &Worker, alloc: Global, here: &H) -> Result<Vec<u32>, NoMemory>
    ensures { IfOk result (λ peers. peers.items ≡ owed_at_end (H.reading here.now) (H.ends here.now) worker.now) }
{
    match worker.phase() {
        Phase::Ends(Ending::Lost { ordered: true }) => Ok(Vec::new(alloc)),
        _ => locked(worker, alloc, here),
    }
}

/// Where a job is to judge.
fn judged_remotely<H: Here>(
    worker: &Worker,
    alloc: Global,
    here: &H,
    target: u32,
) -> Result<Vec<u32>, NoMemory>
    requires remote { IsRemote target worker.now }
    requires other { IsOther (H.reading here.now) target }
    requires own { HearsOwn sides.Remote (H.reading here.now) worker.now }
    ensures does { IfOk result (λ peers. (time number : ℕ) (rows : Rows) (p : List ℕ → Bool) (fails : Option Call) (rest : Rest)
        → peers.items ≡ next_needs (turn_in (sight (H.reading here.now) (H.ends here.now) time number) rows p fails rest worker.now) Drops) }
    ensures others { IfOk result (λ peers. Each (IsOther (H.reading here.now)) peers.items) }
{
    let candidates = candidates(alloc, here, target)?;
    let items = gather(worker, alloc, here, Side::Remote, &candidates)?;
    let end = first_end(&items);
    match judge(&items, here.need(), Side::Remote) {
        Judged::Enough { end: _ } => target_room(worker, alloc, here, target, end),
        Judged::Lacking { .. } => match next(worker, here, &candidates) {
            Some(peer) => single(alloc, peer),
            None => locked(worker, alloc, here),
        },
    }
}

/// The target, unless its connection is open and its protocol too old for the end of the locks.
fn target_room<H: Here>(
    worker: &Worker,
    alloc: Global,
    here: &H,
    target: u32,
    end: Option<u64>,
) -> Result<Vec<u32>, NoMemory>
    ensures { IfOk result (λ peers. peers.items ≡ target_room (H.ends here.now) worker.now target end) }
{
    match end {
        None => single(alloc, target),
        Some(_) => {
            if here.is_open(target, worker.slot()) && worker.version() < 3 {
                return Ok(Vec::new(alloc));
            }
            single(alloc, target)
        }
    }
}
