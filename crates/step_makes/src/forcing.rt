//! Whether a job has a step whatever is at hand and wherever there is room.
ghost use Rattle.std.specs.Prelude.{◌≡◌, ◌&&◌, nat_lt, option_to_list, true, false};
ghost use Rattle.std.specs.Option.{option_copied};
ghost use Rattle.node_model.specs.DropStep.{first_end};
ghost use Rattle.drop_proof.specs.declared.rule.Side.TheVariants.{Local};
ghost use Rattle.node_model.specs.JobStep as steps;
ghost use Rattle.node_model.specs.JobStep.{end_needs};
ghost use Rattle.node_model.specs.Jobs.{Drops, partner, side_of};
ghost use Rattle.node_model.specs.Knows.{next_by};
ghost use Rattle.node_model.specs.Rows.{is_lost_ordered};
ghost use Rattle.node_model.specs.SetUp.{SetUp};
ghost use Rattle.node_model.specs.State.{State};
ghost use Rattle.node_model.specs.Turns.{judge_needs, needs, next_needs, outcome_of, peer_needs, target_needs};
ghost use Rattle.drop_makes.specs.Knowings.{drop_in};
ghost use Rattle.job_makes.specs.Turns.{turn_in};
ghost use Rattle.state_jobs.specs.Phases.{ending_of, part_of, phase_of};
ghost use Rattle.step_judging.specs.Rules.{is_nil};
ghost use Rattle.step_judging.specs.Told.{is_forced};
ghost use Rattle.step_makes.specs.Knowledge.{CanJudge, IsReadBy};

use crate::known::partner;
use drop_makes::Knowing;
use drop_proof::Side;
use job_makes::Turn;
use state_jobs::{Ending, Part, Phase};
use transfer_makes::next_source;

fn lists_none(peer: Option<u32>) -> bool
    ensures { result ≡ is_nil (option_to_list peer) }
{
    peer.is_none()
}

/// The first step of this part needs no room.
fn needs_no_peer(turn: &Turn, part: Part) -> bool
    ensures { (s : SetUp) (st : State) → result ≡ is_nil (peer_needs (turn_in turn.now s st) (part_of part)) }
{
    match part {
        Part::Gets => lists_none(next_source(turn)),
        Part::Puts => lists_none(turn.work.what.peer),
        Part::Drops => true,
    }
}

fn is_old(version: u64) -> bool
    ensures { result ≡ nat_lt version 3 }
{
    version < 3
}

fn both(one: bool, other: bool) -> bool
    ensures { result ≡ (one && other) }
{
    one && other
}

/// The target is open, and its version too old for a deadline.
fn is_too_old(turn: &Turn, end: u128) -> bool
    ensures { (s : SetUp) (st : State) → result ≡ is_nil (target_needs (turn_in turn.now s st) (Some end)) }
{
    both(turn.is_open(turn.target()), is_old(turn.work.version))
}

/// The target of the drop is asked nothing: there is a lock, and its version is too old for a deadline.
fn needs_no_target(known: &Knowing) -> bool
    ensures { (s : SetUp) (st : State) → result ≡ is_nil (target_needs (drop_in known.now.turn.now known.now.logs.now s st) (first_end (drop_in known.now.turn.now known.now.logs.now s st))) }
{
    match known.first_end() {
        Some(end) => is_too_old(known.turn, end),
        None => false,
    }
}

fn removes_freely(known: &Knowing) -> bool
    ensures { (s : SetUp) (st : State) → result ≡ is_nil (judge_needs (drop_in known.now.turn.now known.now.logs.now s st) true None Local) }
{
    if known.in_time() {
        true
    } else {
        known.turn.owes_none()
    }
}

fn acts_freely(known: &Knowing) -> bool
    ensures { (s : SetUp) (st : State) → result ≡ is_nil (judge_needs (drop_in known.now.turn.now known.now.logs.now s st) true None (side_of (drop_in known.now.turn.now known.now.logs.now s st).w)) }
{
    match known.turn.side() {
        Side::Local => removes_freely(known),
        Side::Remote => needs_no_target(known),
    }
}

fn lacks_freely(known: &Knowing) -> bool
    ensures { (s : SetUp) (st : State) → result ≡ is_nil (judge_needs (drop_in known.now.turn.now known.now.logs.now s st) false (next_by (drop_in known.now.turn.now known.now.logs.now s st).read (drop_in known.now.turn.now known.now.logs.now s st).w) (side_of (drop_in known.now.turn.now known.now.logs.now s st).w)) }
{
    if lists_none(known.next()) {
        known.turn.owes_none()
    } else {
        false
    }
}

/// A drop that judges needs no room.
fn judges_freely(known: &Knowing) -> bool
    ensures { (s : SetUp) (st : State) → result ≡ is_nil (next_needs (drop_in known.now.turn.now known.now.logs.now s st) Drops) }
{
    if known.enough() {
        acts_freely(known)
    } else {
        lacks_freely(known)
    }
}

/// By what a drop judges.
fn judging_by<'b>(turn: &Turn, judging: Option<&'b Knowing<'b>>) -> &'b Knowing<'b>
    requires judge { CanJudge turn.now (option_copied judging) }
    requires part { turn.now.work.now.part ≡ Part.Drops }
    requires phase { turn.now.work.now.phase ≡ Phase.Next }
    ensures { option_copied judging.entry ≡ Some result.now }
{
    match judging {
        Some(known) => known,
        None => unreachable!(),
    }
}

fn drop_goes_freely(turn: &Turn, judging: Option<&Knowing>) -> bool
    requires judge { CanJudge turn.now (option_copied judging) }
    requires part { turn.now.work.now.part ≡ Part.Drops }
    requires phase { turn.now.work.now.phase ≡ Phase.Next }
    ensures { (s : SetUp) (st : State) → IsReadBy turn.now (option_copied judging.entry) s st → result ≡ is_nil (next_needs (turn_in turn.now s st) (part_of turn.now.work.now.part)) }
{
    let known = judging_by(turn, judging);
    judges_freely(known)
}

fn goes_freely(turn: &Turn, judging: Option<&Knowing>) -> bool
    requires judge { CanJudge turn.now (option_copied judging) }
    requires phase { turn.now.work.now.phase ≡ Phase.Next }
    ensures { (s : SetUp) (st : State) → IsReadBy turn.now (option_copied judging.entry) s st → result ≡ is_nil (next_needs (turn_in turn.now s st) (part_of turn.now.work.now.part)) }
{
    match turn.work.part {
        Part::Drops => drop_goes_freely(turn, judging),
        _ => needs_no_peer(turn, turn.work.part),
    }
}

fn is_lost(ending: Ending) -> bool
    ensures { result ≡ is_lost_ordered (ending_of ending) }
{
    match ending {
        Ending::Lost { ordered } => ordered,
        _ => false,
    }
}

/// The job that is to end has lost the answer to an order.
fn loses(phase: Phase) -> bool
    ensures { (t : steps.Turn) → result ≡ is_lost_ordered (outcome_of t (phase_of phase)) }
{
    match phase {
        Phase::Ends(ending) => is_lost(ending),
        _ => false,
    }
}

/// Its end needs no room.
fn ends_freely(turn: &Turn) -> bool
    ensures { (s : SetUp) (st : State) → result ≡ is_nil (end_needs (turn_in turn.now s st) (outcome_of (turn_in turn.now s st) (phase_of turn.now.work.now.phase))) }
{
    turn.ends_freely(loses(turn.work.phase))
}

/// Its next step needs no room.
fn needs_none(turn: &Turn, judging: Option<&Knowing>) -> bool
    requires { CanJudge turn.now (option_copied judging) }
    ensures { (s : SetUp) (st : State) → IsReadBy turn.now (option_copied judging.entry) s st → result ≡ is_nil (needs (turn_in turn.now s st) (phase_of turn.now.work.now.phase)) }
{
    match turn.work.phase {
        Phase::Fresh => needs_no_peer(turn, turn.work.part),
        Phase::Next => goes_freely(turn, judging),
        Phase::PutsBytes { .. } => false,
        Phase::PutsWord { .. } => false,
        _ => ends_freely(turn),
    }
}

/// Whether the job has a step whatever is at hand and wherever there is room.
pub(crate) fn is_forced(turn: &Turn, judging: Option<&Knowing>) -> bool
    requires { CanJudge turn.now (option_copied judging) }
    ensures { (s : SetUp) (st : State) → IsReadBy turn.now (option_copied judging.entry) s st
        → result ≡ is_forced (turn_in turn.now s st) (partner turn.now.work.now.what.peer (phase_of turn.now.work.now.phase)) }
{
    match partner(turn.work.what.peer, turn.work.phase) {
        Some(peer) => !turn.is_open(peer),
        None => needs_none(turn, judging),
    }
}
