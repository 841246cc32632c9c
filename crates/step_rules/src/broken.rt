//! The first of the rules that an entry breaks.
ghost use Rattle.std.specs.Prelude.{◌≡◌, ◌∷◌, [], ℕ, Bool, Option, false, option_map};
ghost use Rattle.run_data.specs.declared.entry.Entry.{Entry};
ghost use Rattle.step_judging.specs.Carried.{is_ordered_by};
ghost use Rattle.step_judging.specs.Rules.{first_broken, needs_row, only_waits};
ghost use Rattle.node_model.specs.After.{first_state};
ghost use Rattle.node_model.specs.SetUp.{SetUp};
ghost use Rattle.p2p_wire.specs.declared.message.Message.{Message};
ghost use Rattle.state_checks.specs.Moments.{moment_of};

use run_data::Entry;
use state_checks::{Moment, is_ordered, needs_no_row, only_waits};

/// The rule that an entry breaks that is no repository's.
pub(crate) fn broken_wait(newest: Option<Moment>, entry: &Entry) -> Option<u32>
    ensures { (was : Option Entry) → option_map moment_of was ≡ newest → result ≡ first_broken ((1, is_ordered_by was entry.now) ∷ (3, only_waits entry.now) ∷ []) }
{
    if !is_ordered(newest, entry) {
        return Some(1);
    }
    if !only_waits(entry) {
        return Some(3);
    }
    None
}

/// The rule that an entry breaks whose repository isn't one of the run.
pub(crate) fn broken_unknown(newest: Option<Moment>, entry: &Entry) -> Option<u32>
    ensures { (was : Option Entry) (s : SetUp) (clock : ℕ) (told : Option Message) (fourth : Bool) → option_map moment_of was ≡ newest
        → result ≡ first_broken ((1, is_ordered_by was entry.now) ∷ (2, needs_row (first_state s) clock told entry.now.kind) ∷ (3, false) ∷ (4, fourth) ∷ []) }
{
    if !is_ordered(newest, entry) {
        return Some(1);
    }
    if !needs_no_row(&entry.kind) {
        return Some(2);
    }
    Some(3)
}
