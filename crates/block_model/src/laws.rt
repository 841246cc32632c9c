//! The laws of blocks. Each is the contract of a function that does nothing.

ghost use Rattle.std.specs.Prelude.{List};
ghost use Rattle.annex_base.specs.Lists.{Each};
ghost use Rattle.run_data.specs.Repos.{IsSetUp};
ghost use Rattle.run_data.specs.declared.run.Run.{Run};
ghost use Rattle.run_model.specs.Causes.{HasCauses};
ghost use Rattle.run_model.specs.Run.{IsRun};
ghost use Rattle.run_model.specs.Safety.{IsSafe};
ghost use Rattle.race_core.specs.Copies.{KeepsCopies};
ghost use Rattle.driver_model.specs.Driver.{Driver, DriverInput};
ghost use Rattle.script_commands.specs.declared.command.Agendum.{Agendum};
ghost use Rattle.script_commands.specs.declared.command.Command.{Command};
ghost use Rattle.driver_model.specs.Scripts.{HasBoundedPast, IsOne};
ghost use Rattle.driver_model.specs.Sound.{StaysSound};
ghost use Rattle.block_model.specs.Blocks.{HasBegun};
ghost use Rattle.block_model.specs.Leading.{IsRunOf, LineLeads};
ghost use Rattle.block_model.specs.Stopping.{IsStoppedRunOf};

use annex_key::key_texts_have_no_fault;
use cause_laws::refusals_have_causes;
use growth_laws::runs_grow;
use node_model::steps_tell_their_calls;
use race_core::runs_keep_copies;
use run_data::files_have_their_paths;
use run_laws::{frames_go_to_others, runs_are_safe};
use step_facts::{
    own_entries_suit_their_ends, running_jobs_stay_the_same, steps_find_their_cause,
    steps_name_their_jobs, steps_take_what_is_at_hand,
};
use union_merge::{differences_make_the_union, unions_have_the_lines_of_both};

/// Each run that a script may have, its blocks made side by side in any way, is a run, where the script's lines are right and the run
/// stays within its bounds. So it keeps the last copies, is safe, and each refused job has its cause there (git-annex-mincopies;
/// causes are own). A block that has only begun leaves the driver sound, and so does each whole line.
pub fn runs_of_scripts_are_runs()
    ensures run { (g : DriverInput) (lines : List Command) (run : Run) → Each IsSetUp g.repos → Each (IsOne g) lines
        → (x : IsRunOf g lines run) → HasBoundedPast x.driver → IsRun run }
    ensures copies { (g : DriverInput) (lines : List Command) (run : Run) → Each IsSetUp g.repos → Each (IsOne g) lines
        → (x : IsRunOf g lines run) → HasBoundedPast x.driver → KeepsCopies run }
    ensures safe { (g : DriverInput) (lines : List Command) (run : Run) → Each IsSetUp g.repos → Each (IsOne g) lines
        → (x : IsRunOf g lines run) → HasBoundedPast x.driver → IsSafe run }
    ensures causes { (g : DriverInput) (lines : List Command) (run : Run) → Each IsSetUp g.repos → Each (IsOne g) lines
        → (x : IsRunOf g lines run) → HasBoundedPast x.driver → HasCauses run }
    ensures begun { (g : DriverInput) (xs : List Agendum) (d after : Driver) → HasBegun g xs d after → StaysSound g d after }
    ensures line { (g : DriverInput) (line : Command) (d after : Driver) → IsOne g line → LineLeads g line d after → StaysSound g d after }
{
    // Laws of a step: what it found, takes and names, and that its entry suits its ends and goes to others.
    steps_find_their_cause();
    own_entries_suit_their_ends();
    steps_take_what_is_at_hand();
    steps_name_their_jobs();
    steps_tell_their_calls();
    frames_go_to_others();
    // A law: a running job keeps the key that was asked of it.
    running_jobs_stay_the_same();
    // Laws: a run grows by each such entry, keeps the last copies, is safe, and has the cause of each refusal.
    runs_grow();
    runs_keep_copies();
    runs_are_safe();
    refusals_have_causes();
    // Laws: a file is read off its path, what its log lacks is a set of lines, and a text without a fault is a key's.
    files_have_their_paths();
    unions_have_the_lines_of_both();
    differences_make_the_union();
    key_texts_have_no_fault();
}

/// So is each run that a script may have where a line comes to a full history, in a block or behind it (git-annex-mincopies; the limit
/// and causes are own).
pub fn stopped_runs_are_runs()
    ensures run { (g : DriverInput) (lines : List Command) (run : Run) → Each IsSetUp g.repos → Each (IsOne g) lines
        → (x : IsStoppedRunOf g lines run) → HasBoundedPast x.driver → IsRun run }
    ensures copies { (g : DriverInput) (lines : List Command) (run : Run) → Each IsSetUp g.repos → Each (IsOne g) lines
        → (x : IsStoppedRunOf g lines run) → HasBoundedPast x.driver → KeepsCopies run }
    ensures safe { (g : DriverInput) (lines : List Command) (run : Run) → Each IsSetUp g.repos → Each (IsOne g) lines
        → (x : IsStoppedRunOf g lines run) → HasBoundedPast x.driver → IsSafe run }
    ensures causes { (g : DriverInput) (lines : List Command) (run : Run) → Each IsSetUp g.repos → Each (IsOne g) lines
        → (x : IsStoppedRunOf g lines run) → HasBoundedPast x.driver → HasCauses run }
{
    // Laws of a step: what it found, takes and names, and that its entry suits its ends and goes to others.
    steps_find_their_cause();
    own_entries_suit_their_ends();
    steps_take_what_is_at_hand();
    steps_name_their_jobs();
    steps_tell_their_calls();
    frames_go_to_others();
    // A law: a running job keeps the key that was asked of it.
    running_jobs_stay_the_same();
    // Laws: a run grows by each such entry, keeps the last copies, is safe, and has the cause of each refusal.
    runs_grow();
    runs_keep_copies();
    runs_are_safe();
    refusals_have_causes();
    // Laws: a file is read off its path, what its log lacks is a set of lines, and a text without a fault is a key's.
    files_have_their_paths();
    unions_have_the_lines_of_both();
    differences_make_the_union();
    key_texts_have_no_fault();
}
