//! The laws of what a turn finds. Each is the contract of a function that does nothing.

ghost use Rattle.std.specs.Prelude.{◌≡◌, ℕ, Option, Some, None};
ghost use Rattle.annex_base.specs.declared.kinds.Word.{Word};
ghost use Rattle.node_model.specs.Look.{Look, Effect};
ghost use Rattle.node_model.specs.SetUp.{SetUp};
ghost use Rattle.node_model.specs.State.{State};
ghost use Rattle.node_model.specs.Step.{step};
ghost use Rattle.driver_model.specs.Driver.{Driver, DriverInput, set_up_of, state_at};
ghost use Rattle.driver_model.specs.Finding.{MakesStep, after_step, driver_at_turn};
ghost use Rattle.driver_model.specs.Turning.{plain_look, turn};
ghost use Rattle.driver_model.specs.WordsRead.{AgreeWhereRead};

use node_model::steps_tell_their_calls;
use step_facts::steps_name_their_jobs;

/// A step doesn't change with the words beside what a job was told, but for those that the end of a job reads: where it ends no
/// job, all other words give the same step; where it ends one, all that are the same of a repository which refused a look, and of
/// the target that answered an order (own).
pub fn words_where_unseen()
    ensures { (s : SetUp) (st : State) (k : Look) (words : ℕ → Option Word)
        → ((m : Effect) → step s st k ≡ Some m → AgreeWhereRead s st m k.words words) → step s st k ≡ step s st (record k { words = words }) }
{}

/// A turn of the driver, told from the step that its repository makes. Where no step is ready with the driver's frames, the turn only
/// drops old frames. Where the repository makes a step at a look that is the driver's for it, and fails in it at the first call that is
/// to fail, the turn adds this step's entry. So a program that makes the step needs no probe for its part, words and failing call (own).
pub fn turns_are_found()
    ensures idle { (g : DriverInput) (r : ℕ) (d : Driver) → step (set_up_of g d r) (state_at g d r) (plain_look (set_up_of g d r) (driver_at_turn g r d)) ≡ None
        → turn g r d ≡ driver_at_turn g r d }
    ensures moved { (g : DriverInput) (r : ℕ) (d : Driver) (m : Effect) → MakesStep g r d m → turn g r d ≡ after_step g r d m }
{
    // A law: an entry names the job of its step, so looks that differ in part and words find steps of one job.
    steps_name_their_jobs();
    // A law: the calls that a step makes.
    steps_tell_their_calls();
}
