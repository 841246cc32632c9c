//! The laws of states and steps. Each is the contract of a function that does nothing.

ghost use Rattle.std.specs.Prelude.{◌≡◌, ℕ, List, filter, reverse};
ghost use Rattle.run_data.specs.declared.entry.Entry.{Entry};
ghost use Rattle.run_data.specs.declared.run.Run.{Run};
ghost use Rattle.node_model.specs.After.{AgreesAtDrops, states};
ghost use Rattle.node_model.specs.Look.{Look};
ghost use Rattle.node_model.specs.SetUp.{SetUp};
ghost use Rattle.node_model.specs.Step.{step};
ghost use Rattle.run_model.specs.Past.{is_of};
ghost use Rattle.run_model.specs.Run.{IsRun, OwnPast, OwnRun, set_up};
ghost use Rattle.run_laws.specs.Sound.{IsSeated, IsSound};
ghost use Rattle.run_model.specs.States.{state_of};

use log_lines::{compaction_keeps_the_reading, readings_depend_on_the_set};
use p2p_wire::sent_messages_are_read;
use run_data::paths_tell_their_kind;
use trust_groups::equal_lines_read_alike;
use union_merge::{files_are_changed_alone, unions_have_the_lines_of_both};

/// The state that a repository carries over its own entries, one after the other, agrees in all that a step reads with what
/// the entries so far say of it, and so it makes the same step: in each run, and for each past whose own entries are a
/// repository's own part (own).
pub fn carried_states_agree()
    ensures states { (run : Run) (r : ℕ) → IsRun run
        → AgreesAtDrops (state_of (set_up run r) (reverse run.entries)) (states (set_up run r) (filter (is_of r) (reverse run.entries))) }
    ensures steps { (run : Run) (r : ℕ) (k : Look) → IsRun run
        → step (set_up run r) (state_of (set_up run r) (reverse run.entries)) k
        ≡ step (set_up run r) (states (set_up run r) (filter (is_of r) (reverse run.entries))) k }
    ensures own_states { (s : SetUp) (past : List Entry) → OwnPast s past
        → AgreesAtDrops (state_of s past) (states s (filter (is_of s.number) past)) }
    ensures own_steps { (s : SetUp) (past : List Entry) (k : Look) → OwnPast s past
        → step s (state_of s past) k ≡ step s (states s (filter (is_of s.number) past)) k }
{
    // laws, for the proof: messages are read from their lines, and a file reads as all lines ever added to it
    sent_messages_are_read();
    readings_depend_on_the_set();
    compaction_keeps_the_reading();
    unions_have_the_lines_of_both();
    files_are_changed_alone();
    paths_tell_their_kind();
    equal_lines_read_alike();
}

/// In the state of a repository after its own entries, jobs of one number are one, each the one in its slot; the hold that a session
/// guards is open; and a local drop that is under way has its bar (own).
pub fn states_are_sound()
    ensures sound { (s : SetUp) (past : List Entry) → OwnRun s past → IsSound (state_of s past) }
    ensures seated { (s : SetUp) (past : List Entry) → OwnRun s past → IsSeated (state_of s past) }
{}
