//! The laws. Each is the contract of a function that does nothing.

ghost use Rattle.std.specs.Prelude.{◌≡◌, ℕ, List};
ghost use Rattle.run_data.specs.declared.entry.Entry.{Entry};
ghost use Rattle.run_data.specs.declared.run.Run.{Run};
ghost use Rattle.run_model.specs.Logs.{lines_of_file, settings_of};
ghost use Rattle.run_model.specs.Safety.{IsSafe};
ghost use Rattle.past_facts.specs.Lawful.{IsLawful};
ghost use Rattle.trust_groups.specs.Settings.{settings};

use log_lines::{compaction_keeps_the_reading, readings_depend_on_the_set};
use run_data::paths_tell_their_kind;
use trust_groups::equal_lines_read_alike;
use union_merge::{files_are_changed_alone, unions_have_the_lines_of_both};

/// Each lawful run is safe (git-annex-mincopies).
pub fn lawful_runs_are_safe()
    ensures { (run : Run) → IsLawful run → IsSafe run }
{}

/// What the lines that a repository keeps say is what all lines say that were ever added to its logs, whatever the entries
/// are: a compaction, whenever it comes, changes nothing that a drop reads (git-annex internals: branch files).
pub fn kept_lines_read_as_all()
    ensures { (past : List Entry) (r : ℕ) → settings (lines_of_file past r) ≡ settings_of past r }
{
    // laws, for the proof, entry by entry: it changes one file, which goes on to read as all lines ever added to it
    readings_depend_on_the_set();
    compaction_keeps_the_reading();
    unions_have_the_lines_of_both();
    files_are_changed_alone();
    paths_tell_their_kind();
    equal_lines_read_alike();
}
