//! The law of merges. It is the contract of a function that does nothing.

ghost use Rattle.std.specs.Prelude.{◌≡◌, ◌≢◌, ℕ, true, false, List};
ghost use Rattle.annex_base.specs.declared.kinds.Call.TheVariants as calls;
ghost use Rattle.union_merge.specs.Branch.{lines_at, merge_by_path};
ghost use Rattle.union_merge.specs.LineSet.{union};
ghost use Rattle.run_model.specs.Logs.{branch};
ghost use Rattle.run_model.specs.Run.{IsRun};
ghost use Rattle.driver_model.specs.Driver.{Driver, DriverInput, fails_at};
ghost use Rattle.driver_model.specs.Driving.{run_with};
ghost use Rattle.driver_model.specs.ScriptSteps.{merges};

use crate::laws::runs_log_lines;
use run_data::files_have_their_paths;
use union_merge::{
    files_are_changed_alone, merges_by_path_have_the_lines_of_both, unions_have_the_lines_of_both,
};

/// A merge leaves, path by path, the union of the lines of both branches, where the driver's entries are a run. It adds to each file
/// those lines of the other branch's file that it lacks. Every other branch stays as it was; and where the store fails, each branch
/// does (git-annex internals: branch files, which merge by union).
pub fn merges_leave_the_union()
    ensures union { (g : DriverInput) (r other : ℕ) (d : Driver) → IsRun (run_with g d) → fails_at d r calls.PutFile ≡ false
        → (path : List ℕ) → lines_at (branch (merges r other d).past r) path ≡ union (lines_at (branch d.past r) path) (lines_at (branch d.past other) path) }
    ensures files { (r other : ℕ) (d : Driver) → fails_at d r calls.PutFile ≡ false
        → branch (merges r other d).past r ≡ merge_by_path (branch d.past r) (branch d.past other) }
    ensures failed { (r other q : ℕ) (d : Driver) → fails_at d r calls.PutFile ≡ true → branch (merges r other d).past q ≡ branch d.past q }
    ensures others { (r other q : ℕ) (d : Driver) → q ≢ r → branch (merges r other d).past q ≡ branch d.past q }
{
    // Laws: the files of a run are read off their paths and are sets of lines; their merge has the lines of both.
    runs_log_lines();
    files_have_their_paths();
    files_are_changed_alone();
    unions_have_the_lines_of_both();
    merges_by_path_have_the_lines_of_both();
}
