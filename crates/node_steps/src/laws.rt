//! A law of parts that stand beside a ledger.
ghost use Rattle.node_parts.specs.Parts.{PartsView};
ghost use Rattle.node_parts.specs.Sound.{AreSound};
ghost use Rattle.node_steps.specs.Kept.{KeepsDirect};

use node_parts::{direct_entries_leave_rows, parts_stay, tables_fill_as_states};

/// Sound parts stay those of a state after an entry of the script, or of a line that is owed.
pub fn direct_entries_keep_parts()
    ensures { (p : PartsView) → AreSound p → KeepsDirect p }
{
    // Laws, for the proof: that the parts stay, that the holds and bars do, and which keys are filled.
    parts_stay();
    direct_entries_leave_rows();
    tables_fill_as_states();
}
