//! Whether the entries of a run up to a place are permitted.
ghost use Rattle.std.specs.Prelude.{◌≡◌, ◌<◌, ◌+◌, ◌^◌, length, IfErr, OnOk};
ghost use Rattle.annex_base.specs.Lists.{Each};
ghost use Rattle.run_data.specs.Repos.{IsSetUp};
ghost use Rattle.run_model.specs.Run.{IsRun};
ghost use Rattle.step_rules.specs.Allowed.{TellsFirst};
ghost use Rattle.step_rules.specs.Runs.{start_of};
ghost use Rattle.step_rules.specs.States.{IsAfter};
ghost use Rattle.step_rules.specs.Trees.{AreInOrder};

use crate::run_state::RunState;
use crate::wanted::Wanted;
use run_data::Run;
use std::alloc::Global;

/// Whether each entry of the run up to this place is permitted after those before it; else it tells the rule that the first one breaks
/// that isn't, and the row that this one found (own).
pub fn step_allowed(alloc: Global, run: &Run, place: usize) -> Result<(), Wanted>
    requires there { place < length run.now.entries }
    requires few { length run.now.entries < 2 ^ 55 }
    requires sent { Each (λ e. length e.sent + 1 < 2 ^ 64) run.now.entries }
    requires many { length run.now.repos < 2 ^ 32 }
    requires set_up { Each IsSetUp run.now.repos }
    requires tree { AreInOrder 0 run.now.tree }
    ensures ok { OnOk result (IsRun (start_of run.now (place + 1))) }
    ensures wanted { IfErr result (TellsFirst run.now place) }
{
    let mut state = RunState::start(alloc, run)?;
    let (entries, _) = run.entries.as_slice().split_at(place + 1);
    for entry in entries {
        state.take(entry)?;
    }
    Ok(())
}
