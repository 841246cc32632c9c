//! What the step of a job knows of the logs.
ghost use Rattle.std.specs.Prelude.{◌≡◌, true, Some};
ghost use Rattle.std.specs.Option.{option_copied};
ghost use Rattle.node_model.specs.Jobs.{Drops, Gets, partner};
ghost use Rattle.state_jobs.specs.Phases.{part_of, phase_of};
ghost use Rattle.step_makes.specs.Knowledge.{KnowsEnough, is_judging, reads_logs};

use drop_makes::Knowing;
use job_makes::Turn;
use state_jobs::{Part, Phase};

fn ends_by_logs(phase: Phase) -> bool
    ensures { result ≡ reads_logs Gets (phase_of phase) }
{
    matches!(phase, Phase::Removed | Phase::Late { .. })
}

/// Whether the step of a job that is at this reads the logs.
pub(crate) fn reads_logs(part: Part, phase: Phase) -> bool
    ensures { result ≡ reads_logs (part_of part) (phase_of phase) }
{
    match part {
        Part::Gets => ends_by_logs(phase),
        Part::Puts => ends_by_logs(phase),
        Part::Drops => true,
    }
}

fn is_next(phase: Phase) -> bool
    ensures { result ≡ is_judging Drops (phase_of phase) }
{
    matches!(phase, Phase::Next)
}

/// Whether it judges by them where it needs room.
pub(crate) fn is_judging(part: Part, phase: Phase) -> bool
    ensures { result ≡ is_judging (part_of part) (phase_of phase) }
{
    match part {
        Part::Gets => false,
        Part::Puts => false,
        Part::Drops => is_next(phase),
    }
}

/// What is known, where the step reads the logs.
pub(crate) fn known<'b>(turn: &Turn, knowing: Option<&'b Knowing<'b>>) -> &'b Knowing<'b>
    requires enough { KnowsEnough turn.now (option_copied knowing) }
    requires reads { reads_logs (part_of turn.now.work.now.part) (phase_of turn.now.work.now.phase) ≡ true }
    ensures { option_copied knowing.entry ≡ Some result.now }
{
    match knowing {
        Some(known) => known,
        None => unreachable!(),
    }
}

/// The peer on whose connection a job with this peer stands.
pub(crate) fn partner(target: Option<u32>, phase: Phase) -> Option<u32>
    ensures { result ≡ partner target (phase_of phase) }
{
    match phase {
        Phase::Opens { peer }
        | Phase::Greets { peer }
        | Phase::GetsData { peer, .. }
        | Phase::GetsBytes { peer, .. }
        | Phase::GetsWord { peer, .. }
        | Phase::PutsOffer { peer }
        | Phase::PutsBytes { peer, .. }
        | Phase::PutsWord { peer, .. }
        | Phase::PutsAnswer { peer, .. }
        | Phase::AsksLock { peer, .. }
        | Phase::AsksLook { peer } => Some(peer),
        Phase::AsksTime | Phase::Orders => target,
        _ => None,
    }
}
