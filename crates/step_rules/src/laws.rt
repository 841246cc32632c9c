//! The laws of starts of runs. Each is the contract of a function that does nothing.
ghost use Rattle.std.specs.Prelude.{◌≡◌, ◌<◌, ◌≤◌, ◌+◌, ℕ, List, length, reverse, slice_get, None, Some};
ghost use Rattle.run_data.specs.declared.entry.Entry.{Entry};
ghost use Rattle.run_data.specs.declared.run.Run.{Run};
ghost use Rattle.run_model.specs.Run.{IsRun, set_up};
ghost use Rattle.step_judging.specs.Rules.{broken_rule};
ghost use Rattle.step_judging.specs.Verdicts.{Broken, verdict};
ghost use Rattle.step_rules.specs.Runs.{start_of};

use growth_laws::{jobs_keep_their_paths, runs_grow};
use step_judging::runs_break_no_rule;

/// An entry of a run breaks no rule after the start of the run before it, of which nothing else is known (own).
pub fn starts_of_runs_break_no_rule()
    ensures { (run : Run) (place : ℕ) (e : Entry) → IsRun run → slice_get run.entries place ≡ Some e
        → broken_rule (set_up (start_of run place)) (reverse (start_of run place).entries) e ≡ None }
{
    // Laws, for the proof: each start of a run is one, in which the jobs have the paths that they have in the whole.
    runs_grow();
    runs_break_no_rule();
    jobs_keep_their_paths();
}

/// A list of entries isn't a run where one of them breaks a rule after the start before it (own).
pub fn runs_end_where_a_rule_is_broken()
    ensures { (run : Run) (place : ℕ) (e : Entry) (b : Broken) → slice_get run.entries place ≡ Some e
        → verdict (set_up (start_of run place)) (reverse (start_of run place).entries) e ≡ Some b → IsRun run → ⊥ }
{
    // A law, for the proof.
    starts_of_runs_break_no_rule();
}
