//! A drop goes on: it asks a candidate, or judges.
ghost use Rattle.std.specs.Prelude.{◌≡◌, true, false, None, IfOk};
ghost use Rattle.node_model.specs.Jobs.{Drops, side_of};
ghost use Rattle.node_model.specs.Requests.{goes_to};
ghost use Rattle.node_model.specs.SetUp.{SetUp};
ghost use Rattle.node_model.specs.State.{State};
ghost use Rattle.node_model.specs.Turns.{judges, next_step};
ghost use Rattle.drop_makes.specs.Knowings.{drop_in};
ghost use Rattle.step_judging.specs.Rules.{effect_of};
ghost use Rattle.step_judging.specs.Same.{same_effect};

use annex_base::NoMemory;
use drop_makes::Knowing;
use drop_proof::Side;
use state_jobs::Part;
use std::alloc::Global;

/// The first request of a drop to a peer, or the opening of the connection.
fn drop_goes_to(known: &Knowing, peer: u32) -> Result<bool, NoMemory>
    requires { known.now.turn.now.work.now.part ≡ Part.Drops }
    ensures { IfOk result (λ b. (s : SetUp) (st : State) → b ≡ same_effect (goes_to (drop_in known.now.turn.now known.now.logs.now s st) peer) (effect_of known.now.turn.now.told.now)) }
{
    let turn = known.turn;
    if turn.is_open(peer) {
        known.asks_copy(turn.work.version, None, peer)
    } else {
        Ok(turn.opens_to(peer))
    }
}

/// It knows enough: its own content goes, or the target is asked.
fn acts(known: &Knowing) -> Result<bool, NoMemory>
    requires { known.now.turn.now.work.now.part ≡ Part.Drops }
    ensures { IfOk result (λ b. (s : SetUp) (st : State) → b ≡ same_effect (judges (drop_in known.now.turn.now known.now.logs.now s st) true None (side_of (drop_in known.now.turn.now known.now.logs.now s st).w)) (effect_of known.now.turn.now.told.now)) }
{
    let turn = known.turn;
    match turn.side() {
        Side::Local => Ok(known.removes()),
        Side::Remote => drop_goes_to(known, turn.target()),
    }
}

/// It lacks evidence: its next candidate is asked, or it ends.
fn asks_next(alloc: Global, known: &Knowing, next: Option<u32>) -> Result<bool, NoMemory>
    requires { known.now.turn.now.work.now.part ≡ Part.Drops }
    ensures { IfOk result (λ b. (s : SetUp) (st : State) → b ≡ same_effect (judges (drop_in known.now.turn.now known.now.logs.now s st) false next (side_of (drop_in known.now.turn.now known.now.logs.now s st).w)) (effect_of known.now.turn.now.told.now)) }
{
    match next {
        Some(peer) => drop_goes_to(known, peer),
        None => known.lacks(alloc),
    }
}

/// Whether the entry is the step of a drop that asks its next candidate, or judges.
pub(crate) fn judges(alloc: Global, known: &Knowing) -> Result<bool, NoMemory>
    requires { known.now.turn.now.work.now.part ≡ Part.Drops }
    ensures { IfOk result (λ b. (s : SetUp) (st : State) → b ≡ same_effect (next_step (drop_in known.now.turn.now known.now.logs.now s st) Drops) (effect_of known.now.turn.now.told.now)) }
{
    if known.enough() {
        acts(known)
    } else {
        asks_next(alloc, known, known.next())
    }
}
