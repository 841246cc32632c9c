//! The laws of the last copy, for the runs of scripts. Each is the contract of a function that does nothing.

ghost use Rattle.std.specs.Prelude.{◌≡◌, ℕ, ◌*◌, ◌≤◌, true, false, List, ◌++◌, length};
ghost use Rattle.std.specs.List.{list_all};
ghost use Rattle.annex_base.specs.Lists.{Each};
ghost use Rattle.run_data.specs.Histories.{most_entries};
ghost use Rattle.run_data.specs.Repos.{IsSetUp};
ghost use Rattle.run_model.specs.Run.{IsRun};
ghost use Rattle.run_model.specs.Safety.{copies_at};
ghost use Rattle.script_commands.specs.declared.command.Command.{Command};
ghost use Rattle.driver_model.specs.Driver.{DriverInput};
ghost use Rattle.driver_model.specs.Driving.{driver_after, run_of};
ghost use Rattle.driver_model.specs.Limits.{driver_at_cut, limited_run};
ghost use Rattle.driver_model.specs.Scripts.{HasBoundedPast, IsOne};
ghost use Rattle.kept_copies.specs.Scripts.{KeepsAll, have_content, have_contents, prepares, trusts_nobody};
ghost use Rattle.kept_copies.specs.Trusting.{TrustsNobody};

use crate::copies::a_copy_stays_where_nobody_is_trusted;
use driver_model::{driven_runs_are_runs, drivers_only_add, limited_runs_are_runs};
use run_data::{files_have_their_paths, paths_tell_their_kind};
use step_facts::steps_find_their_cause;

/// Nobody is trusted in the run of a script of which no line writes into a trust log: what a merge or a sync writes is what
/// another repository has, and what a step of a repository writes is a line of a location log (own).
pub fn scripts_trust_only_by_their_lines()
    ensures whole { (g : DriverInput) (lines : List Command) → Each (IsOne g) lines → trusts_nobody lines ≡ true
        → TrustsNobody (run_of g lines) }
    ensures limited { (g : DriverInput) (lines : List Command) → Each (IsOne g) lines → trusts_nobody lines ≡ true
        → TrustsNobody (limited_run g lines).run }
{
    // A law: what a step found tells which log its entry writes.
    steps_find_their_cause();
    // Laws: a file is read off its path, and no other log stands at the path of a trust log.
    files_have_their_paths();
    paths_tell_their_kind();
}

/// A copy of each content stays in the run of a script that trusts nobody: once some repository has it, at each later place some
/// repository has it, and so at the end; so it is in the run up to where a line meets a full history (git-annex-mincopies,
/// git-annex trust).
pub fn scripts_keep_a_copy_where_nobody_is_trusted()
    ensures whole { (g : DriverInput) (lines : List Command) (key : List ℕ) (place later : ℕ) → Each IsSetUp g.repos → Each (IsOne g) lines
        → HasBoundedPast (driver_after g lines) → trusts_nobody lines ≡ true → place ≤ later
        → 1 ≤ copies_at (run_of g lines) key place → 1 ≤ copies_at (run_of g lines) key later }
    ensures limited { (g : DriverInput) (lines : List Command) (key : List ℕ) (place later : ℕ) → Each IsSetUp g.repos → Each (IsOne g) lines
        → HasBoundedPast (driver_at_cut g lines) → trusts_nobody lines ≡ true → place ≤ later
        → 1 ≤ copies_at (limited_run g lines).run key place → 1 ≤ copies_at (limited_run g lines).run key later }
{
    // Laws: it is a run, in which nobody is trusted, so a copy stays.
    driven_runs_are_runs();
    limited_runs_are_runs();
    scripts_trust_only_by_their_lines();
    a_copy_stays_where_nobody_is_trusted();
}

/// A content that the first lines of a script put in place has a copy at the end of its run, where no line of the script writes
/// into a trust log. The first lines are those that declare repositories, give keys their paths and put contents in place
/// (git-annex-mincopies, git-annex trust).
pub fn contents_put_first_keep_a_copy()
    ensures { (g : DriverInput) (first rest : List Command) (key : List ℕ) → Each IsSetUp g.repos → Each (IsOne g) (first ++ rest)
        → HasBoundedPast (driver_after g (first ++ rest)) → trusts_nobody (first ++ rest) ≡ true → have_content first key ≡ true
        → 1 ≤ copies_at (run_of g (first ++ rest)) key (length (run_of g (first ++ rest)).entries) }
{
    // Laws: a copy stays in the run of such a script, whose lines leave the entries before them as they are.
    scripts_keep_a_copy_where_nobody_is_trusted();
    drivers_only_add();
}

/// So has each of several contents, where the run is one of repositories (laws `driven_runs_are_runs` and `limited_runs_are_runs`
/// of `driver_model`); also in the run up to where a line meets a full history, if none of the first lines does. None does where
/// they are at most half as many as the entries that a history has room for, since each of them makes at most two
/// (git-annex-mincopies, git-annex trust).
pub fn all_contents_put_first_keep_a_copy()
    ensures whole { (g : DriverInput) (first rest : List Command) (keys : List (List ℕ)) → Each (IsOne g) (first ++ rest)
        → IsRun (run_of g (first ++ rest)) → trusts_nobody (first ++ rest) ≡ true → have_contents first keys ≡ true
        → KeepsAll (run_of g (first ++ rest)) keys }
    ensures limited { (g : DriverInput) (first rest : List Command) (keys : List (List ℕ)) → Each (IsOne g) (first ++ rest)
        → IsRun (limited_run g (first ++ rest)).run → trusts_nobody (first ++ rest) ≡ true → have_contents first keys ≡ true
        → (limited_run g first).is_cut ≡ false → KeepsAll (limited_run g (first ++ rest)).run keys }
    ensures uncut { (g : DriverInput) (first : List Command) → list_all prepares first ≡ true → 2 * length first ≤ most_entries
        → (limited_run g first).is_cut ≡ false }
{
    // Laws: nobody is trusted in the run of such a script, so a copy stays; and lines leave the entries before them as they are.
    scripts_trust_only_by_their_lines();
    a_copy_stays_where_nobody_is_trusted();
    drivers_only_add();
}
