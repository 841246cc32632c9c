//! The laws. Each is the contract of a function that does nothing.

ghost use Rattle.std.specs.Prelude.{List};
ghost use Rattle.annex_base.specs.Lists.{Each};
ghost use Rattle.run_data.specs.Repos.{IsSetUp};
ghost use Rattle.run_model.specs.Causes.{HasCauses};
ghost use Rattle.run_model.specs.Safety.{IsSafe};
ghost use Rattle.driver_model.specs.Driver.{DriverInput};
ghost use Rattle.driver_model.specs.Driving.{driver_after, run_of};
ghost use Rattle.driver_model.specs.Limits.{driver_at_cut, limited_run};
ghost use Rattle.script_commands.specs.declared.command.Command.{Command};
ghost use Rattle.driver_model.specs.Scripts.{HasBoundedPast, IsOne};

use cause_laws::refusals_have_causes;
use driver_model::{driven_runs_are_runs, limited_runs_are_runs};
use run_laws::runs_are_safe;

/// What the driver makes of a script, where the script's lines are right and the run stays within its bounds, is safe, and each
/// refused job has its cause there (git-annex-mincopies; causes are own).
pub fn driven_runs_are_safe()
    ensures safe { (g : DriverInput) (lines : List Command) → Each IsSetUp g.repos → Each (IsOne g) lines → HasBoundedPast (driver_after g lines)
        → IsSafe (run_of g lines) }
    ensures causes { (g : DriverInput) (lines : List Command) → Each IsSetUp g.repos → Each (IsOne g) lines → HasBoundedPast (driver_after g lines)
        → HasCauses (run_of g lines) }
{
    // Laws: it is a run, and a run is safe and has the cause of each refusal.
    driven_runs_are_runs();
    runs_are_safe();
    refusals_have_causes();
}

/// So is the run of a script up to where a line meets a full history, or comes to a close of more ends than there are places left.
pub fn limited_runs_are_safe()
    ensures safe { (g : DriverInput) (lines : List Command) → Each IsSetUp g.repos → Each (IsOne g) lines → HasBoundedPast (driver_at_cut g lines)
        → IsSafe (limited_run g lines).run }
    ensures causes { (g : DriverInput) (lines : List Command) → Each IsSetUp g.repos → Each (IsOne g) lines → HasBoundedPast (driver_at_cut g lines)
        → HasCauses (limited_run g lines).run }
{
    // Laws: it is a run, and a run is safe and has the cause of each refusal.
    limited_runs_are_runs();
    runs_are_safe();
    refusals_have_causes();
}
