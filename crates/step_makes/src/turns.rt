//! The step of a job, by where it stands.
ghost use Rattle.std.specs.Prelude.{◌≡◌, ◌&&◌, if◌then◌else◌, true, IfOk};
ghost use Rattle.std.specs.Option.{option_copied};
ghost use Rattle.node_model.specs.Ends.{is_opening, may_take, takes_at};
ghost use Rattle.node_model.specs.JobStep.{end_with};
ghost use Rattle.node_model.specs.Jobs.{job_end, partner};
ghost use Rattle.node_model.specs.Look.{waiting_frame};
ghost use Rattle.node_model.specs.SetUp.{SetUp};
ghost use Rattle.node_model.specs.State.{State};
ghost use Rattle.node_model.specs.Turns.{awaits, by_partner, goes_on, is_awaiting, with_partner};
ghost use Rattle.job_makes.specs.Turns.{turn_in};
ghost use Rattle.state_jobs.specs.Phases.{phase_of};
ghost use Rattle.step_effects.specs.Sendings.{name_of};
ghost use Rattle.step_judging.specs.Rules.{effect_of, is_effect};
ghost use Rattle.step_makes.specs.Knowledge.{HasRoom, IsReadBy, IsTurnOf, KnowsEnough};

use crate::known::partner;
use crate::steps::goes;
use crate::taking::takes_frame;
use annex_base::NoMemory;
use drop_makes::Knowing;
use job_makes::Turn;
use run_data::{FrameText, FrameView};
use state_ends::Standing;
use state_jobs::Phase;
use std::alloc::Global;
use step_effects::EndAt;

fn is_opening(body: &FrameText) -> bool
    ensures { result ≡ is_opening body.now }
{
    matches!(body, FrameText::Opening)
}

/// Whether an end that stands so may take the frame.
fn may_take(was: &Standing, frame: &FrameView) -> bool
    ensures { result ≡ may_take was.now frame.now }
{
    let epoch = u128::from(frame.epoch);
    if is_opening(&frame.body) {
        !was.opened && was.epoch < epoch
    } else {
        was.opened && epoch == was.epoch
    }
}

/// Whether the frame goes to this end.
fn takes_at(at: &EndAt, frame: &FrameView) -> bool
    ensures { result ≡ takes_at (name_of at.now) frame.now }
{
    frame.peer == at.peer && frame.slot == at.slot && at.client != frame.up
}

/// Whether it waits there.
fn waits_at(at: &EndAt, frame: &FrameView) -> bool
    ensures { result ≡ (takes_at (name_of at.now) frame.now && may_take at.now.was frame.now) }
{
    takes_at(at, frame) && may_take(&at.was, frame)
}

fn if_waits(frame: &FrameView, yes: bool) -> Option<&FrameView>
    ensures { option_copied result ≡ (if yes then Some frame.now else None) }
{
    if yes { Some(frame) } else { None }
}

/// The frame that waits for the job at its end of the connection with a peer.
fn waiting_frame<'a>(turn: &Turn<'a>, peer: u32) -> Option<&'a FrameView>
    ensures { (s : SetUp) (st : State) → option_copied result ≡ waiting_frame (end_with (turn_in turn.now s st) peer) (turn_in turn.now s st).look (job_end (turn_in turn.now s st).w peer) }
{
    let at = turn.at(peer);
    match &turn.told.taken {
        Some(frame) => if_waits(frame, waits_at(&at, frame)),
        None => None,
    }
}

fn goes_on(alloc: Global, turn: &Turn, knowing: Option<&Knowing>) -> Result<bool, NoMemory>
    requires { KnowsEnough turn.now (option_copied knowing) }
    ensures { IfOk result (λ b. (s : SetUp) (st : State) → IsTurnOf turn.now s st → HasRoom turn.now → IsReadBy turn.now (option_copied knowing.entry) s st
        → b ≡ is_effect (goes_on (turn_in turn.now s st)) (effect_of turn.now.told.now)) }
{
    goes(alloc, turn, knowing)
}

/// The job awaits a frame of a peer.
fn awaits(
    alloc: Global,
    turn: &Turn,
    knowing: Option<&Knowing>,
    peer: u32,
    waiting: Option<&FrameView>,
) -> Result<bool, NoMemory>
    requires { KnowsEnough turn.now (option_copied knowing) }
    ensures { IfOk result (λ b. (s : SetUp) (st : State) → HasRoom turn.now → IsReadBy turn.now (option_copied knowing.entry) s st
        → b ≡ is_effect (awaits (turn_in turn.now s st) peer (option_copied waiting.entry)) (effect_of turn.now.told.now)) }
{
    match waiting {
        Some(frame) => takes_frame(alloc, turn, knowing, frame, peer),
        None => Ok(false),
    }
}

fn is_awaiting(phase: Phase) -> bool
    ensures { result ≡ is_awaiting (phase_of phase) }
{
    !matches!(phase, Phase::PutsBytes { .. } | Phase::PutsWord { .. })
}

fn on_open(
    alloc: Global,
    turn: &Turn,
    knowing: Option<&Knowing>,
    peer: u32,
) -> Result<bool, NoMemory>
    requires { KnowsEnough turn.now (option_copied knowing) }
    ensures { IfOk result (λ b. (s : SetUp) (st : State) → IsTurnOf turn.now s st → HasRoom turn.now → IsReadBy turn.now (option_copied knowing.entry) s st
        → b ≡ is_effect (with_partner (turn_in turn.now s st) peer true) (effect_of turn.now.told.now)) }
{
    if is_awaiting(turn.work.phase) {
        let waiting = waiting_frame(turn, peer);
        awaits(alloc, turn, knowing, peer, waiting)
    } else {
        goes_on(alloc, turn, knowing)
    }
}

/// The job stands on its connection with a peer.
fn with_partner(
    alloc: Global,
    turn: &Turn,
    knowing: Option<&Knowing>,
    peer: u32,
) -> Result<bool, NoMemory>
    requires { KnowsEnough turn.now (option_copied knowing) }
    ensures { IfOk result (λ b. (s : SetUp) (st : State) → IsTurnOf turn.now s st → HasRoom turn.now → IsReadBy turn.now (option_copied knowing.entry) s st
        → b ≡ is_effect (with_partner (turn_in turn.now s st) peer (end_with (turn_in turn.now s st) peer).opened) (effect_of turn.now.told.now)) }
{
    if turn.is_open(peer) {
        on_open(alloc, turn, knowing, peer)
    } else {
        Ok(turn.quietly(turn.talks(), None))
    }
}

/// Whether the entry is the step of the job.
pub(crate) fn by_partner(
    alloc: Global,
    turn: &Turn,
    knowing: Option<&Knowing>,
) -> Result<bool, NoMemory>
    requires { KnowsEnough turn.now (option_copied knowing) }
    ensures { IfOk result (λ b. (s : SetUp) (st : State) → IsTurnOf turn.now s st → HasRoom turn.now → IsReadBy turn.now (option_copied knowing.entry) s st
        → b ≡ is_effect (by_partner (turn_in turn.now s st) (partner turn.now.work.now.what.peer (phase_of turn.now.work.now.phase))) (effect_of turn.now.told.now)) }
{
    match partner(turn.work.what.peer, turn.work.phase) {
        Some(peer) => with_partner(alloc, turn, knowing, peer),
        None => goes_on(alloc, turn, knowing),
    }
}
