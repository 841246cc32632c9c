//! Whether an entry is the end of a job whose outcome is known before.
ghost use Rattle.std.specs.Prelude.{◌≡◌};
ghost use Rattle.std.specs.Option.{option_copied};
ghost use Rattle.run_data.specs.declared.job.DropRefusal.TheVariants as refusals;
ghost use Rattle.run_data.specs.declared.job.Outcome.TheVariants.{Refused};
ghost use Rattle.node_model.specs.JobStep.{ends};
ghost use Rattle.node_model.specs.SetUp.{SetUp};
ghost use Rattle.node_model.specs.State.{State};
ghost use Rattle.job_makes.specs.Turns.{turn_in};
ghost use Rattle.state_jobs.specs.Phases.{ending_of};
ghost use Rattle.step_effects.specs.Outcomes.{outcome_told};
ghost use Rattle.step_judging.specs.Rules.{effect_of};
ghost use Rattle.step_judging.specs.Same.{same_effect};

use job_makes::Turn;
use run_data::{DropRefusal, Outcome, TransferRefusal};
use state_jobs::Ending;

fn is_old_protocol(told: Option<&Outcome>, version: u64) -> bool
    ensures { result ≡ outcome_told (Refused (refusals.OldProtocol version)) (option_copied told.entry) }
{
    match told {
        Some(Outcome::Refused(DropRefusal::OldProtocol { version: other })) => {
            version == u64::from(*other)
        }
        _ => false,
    }
}

/// The target's protocol knows no deadlines.
fn ends_old(turn: &Turn, version: u64) -> bool
    ensures { (s : SetUp) (st : State) → result ≡ same_effect (ends (turn_in turn.now s st) None (Refused (refusals.OldProtocol version))) (effect_of turn.now.told.now) }
{
    let outcome_is = is_old_protocol(turn.ended(), version);
    turn.ends(None, outcome_is, false)
}

fn ends_refused(turn: &Turn, refusal: DropRefusal) -> bool
    ensures { (s : SetUp) (st : State) → result ≡ same_effect (ends (turn_in turn.now s st) None (Refused refusal)) (effect_of turn.now.told.now) }
{
    turn.ends_as(None, &Outcome::Refused(refusal))
}

/// A get or a copy, or the transfer of a move, is refused.
pub(crate) fn ends_untransferred(turn: &Turn, refusal: TransferRefusal) -> bool
    ensures { (s : SetUp) (st : State) → result ≡ same_effect (ends (turn_in turn.now s st) None (Outcome.TransferRefused refusal)) (effect_of turn.now.told.now) }
{
    turn.ends_as(None, &Outcome::TransferRefused(refusal))
}

fn ends_got(turn: &Turn, source: Option<u32>, start: Option<u64>) -> bool
    ensures { (s : SetUp) (st : State) → result ≡ same_effect (ends (turn_in turn.now s st) None (Outcome.Got source start)) (effect_of turn.now.told.now) }
{
    turn.ends_as(None, &Outcome::Got { source, start })
}

/// Whether the entry is the end of the job with this outcome.
pub(crate) fn ends_as(turn: &Turn, ending: Ending) -> bool
    ensures { (s : SetUp) (st : State) → result ≡ same_effect (ends (turn_in turn.now s st) None (ending_of ending)) (effect_of turn.now.told.now) }
{
    match ending {
        Ending::Here => ends_got(turn, None, None),
        Ending::Got { source, start } => ends_got(turn, Some(source), Some(start)),
        Ending::Copied { start } => turn.ends_as(None, &Outcome::Copied { start }),
        Ending::Lost { ordered } => ends_refused(turn, DropRefusal::Lost { ordered }),
        Ending::OldProtocol { version } => ends_old(turn, version),
        Ending::DropFault => ends_refused(turn, DropRefusal::StoreFault),
        Ending::TransferFault => ends_untransferred(turn, TransferRefusal::StoreFault),
        Ending::Closed => ends_untransferred(turn, TransferRefusal::Closed),
        Ending::Busy => ends_untransferred(turn, TransferRefusal::Busy),
        Ending::Rejected => ends_untransferred(turn, TransferRefusal::Rejected),
    }
}
