//! Laws of what is due for a text, each the contract of a function that does nothing.

ghost use Rattle.std.specs.Prelude.{◌≡◌, ℕ, true, List};
ghost use Rattle.script_commands.specs.declared.command.Command.{Command};
ghost use Rattle.driver_model.specs.Limits.{limited_run};
ghost use Rattle.driver_script.specs.Inputs.{driver_input_of};
ghost use Rattle.driver_script.specs.Script.{IsScript};
ghost use Rattle.script_answers.specs.declared.status.Status.{Status};
ghost use Rattle.script_answers.specs.Top.{HasGoodRun, IsDue, MeetsEntries};
ghost use Rattle.script_answers.specs.Storms.{KeepsStormKeys};
ghost use Rattle.storm_script.specs.Storm.{storm_text};

use driver_model::cut_runs_have_a_full_history;
use driver_script::{scripts_are_built_or_not, scripts_may_be_driven, scripts_run_or_miss_a_form};
use kept_copies::storms_keep_all_their_keys;
use storm_reading::storms_say_their_commands;

/// Where the run of a script is cut, some repository has a full history in it, or a line comes to a close of more ends than there are places
/// left: the `full` of a cut report follows from the rest of it (own).
pub fn cut_script_runs_have_a_full_history()
    ensures { (bytes : List ℕ) (script : List Command) → IsScript bytes script
        → (limited_run (driver_input_of script) script).is_cut ≡ true → MeetsEntries script (limited_run (driver_input_of script) script).run }
{
    // Laws: a cut run has a full history, or a close lacked places, where each line is one of a run, as those of a script are.
    cut_runs_have_a_full_history();
    scripts_may_be_driven();
}

/// For every text of a source one status and one text to write are due (own).
pub fn one_answer_is_due_for_every_text()
    ensures some { (bytes : List ℕ) → (status : Status) × (text : List ℕ) × IsDue bytes status text }
    ensures one { (bytes text more : List ℕ) (status other : Status) → IsDue bytes status text → IsDue bytes other more
        → (status ≡ other) × (text ≡ more) }
{
    // Laws: a script can be driven or misses a part, not both; where its run is cut, a history is full.
    scripts_run_or_miss_a_form();
    scripts_are_built_or_not();
    cut_script_runs_have_a_full_history();
}

/// Where the run of a storm's script is good, some repository has each of its keys at the end (own).
pub fn good_storms_keep_their_keys()
    ensures { (number jobs : ℕ) → HasGoodRun (storm_text number jobs) → KeepsStormKeys number jobs }
{
    // Laws: a storm's text is a script of its commands, each line of a script is one of a run, and a storm's run keeps its keys.
    storms_say_their_commands();
    scripts_may_be_driven();
    storms_keep_all_their_keys();
}
