//! The laws of each step of the driver. Each is the contract of a function that does nothing.

ghost use Rattle.std.specs.Prelude.{◌≡◌, ◌≢◌, ◌+◌, ℕ, List, None, Some};
ghost use Rattle.annex_base.specs.declared.kinds.Call.{Call};
ghost use Rattle.annex_base.specs.Lists.{Each};
ghost use Rattle.annex_key.specs.KeyText.{IsKeyText};
ghost use Rattle.log_lines.specs.declared.entry.LogKind.{LogKind};
ghost use Rattle.log_lines.specs.declared.entry.LogKind.TheVariants.{Location};
ghost use Rattle.log_lines.specs.declared.entry.Topic.{Topic};
ghost use Rattle.log_lines.specs.declared.entry.Value.{Value};
ghost use Rattle.log_lines.specs.LineText.{line_text};
ghost use Rattle.run_data.specs.declared.entry.LogFile.{LogFile};
ghost use Rattle.run_data.specs.declared.job.Job.{Job};
ghost use Rattle.run_data.specs.Files.{HasPath, kind_of};
ghost use Rattle.run_data.specs.Repos.{IsSetUp};
ghost use Rattle.run_model.specs.Past.{now};
ghost use Rattle.union_merge.specs.LineSet.{IsLine};
ghost use Rattle.driver_model.specs.Driver.{Driver, DriverInput, at_first};
ghost use Rattle.driver_model.specs.Driving.{does, turns, with_mark};
ghost use Rattle.script_commands.specs.declared.command.Agendum.{Agendum};
ghost use Rattle.script_commands.specs.declared.command.Command.{Command};
ghost use Rattle.driver_model.specs.Lines.{waited_by};
ghost use Rattle.driver_model.specs.Rounds.{blocks, round, settles};
ghost use Rattle.driver_model.specs.Scripts.{IsContent, IsJob, IsKnown, IsOne, IsOther, IsPlainTopic, IsPlainValue};
ghost use Rattle.driver_model.specs.ScriptSteps.{begins, closes, compacts, crashes, enters, has, merges, sets, sets_part, waits, will_fail, writes};
ghost use Rattle.driver_model.specs.Sound.{IsSound, OnlyAdds, StaysSound};
ghost use Rattle.driver_model.specs.Syncs.{carries_out, drops_spared, each_merges, merges_each, shares_logs, transfers};
ghost use Rattle.driver_model.specs.Turning.{turn};
ghost use Rattle.wanted_rules.specs.declared.action.Action.{Action};

use annex_key::key_texts_have_no_fault;
use growth_laws::runs_grow;
use node_model::steps_tell_their_calls;
use run_data::files_have_their_paths;
use run_laws::frames_go_to_others;
use step_facts::{
    own_entries_suit_their_ends, running_jobs_stay_the_same, steps_find_their_cause,
    steps_name_their_jobs, steps_take_what_is_at_hand,
};
use union_merge::{differences_make_the_union, unions_have_the_lines_of_both};

/// The driver is sound at first, and each of its steps keeps it so, where the step is one of the script's and stays within the
/// bounds of a run; so does each whole line. Without a condition of its own are steps that make no entry of a repository (own).
pub fn drivers_stay_sound()
    ensures first { (g : DriverInput) → Each IsSetUp g.repos → IsSound g at_first }
    ensures turn { (g : DriverInput) (r : ℕ) (d : Driver) → IsKnown g r → StaysSound g d (turn g r d) }
    ensures has { (g : DriverInput) (r : ℕ) (key bytes : List ℕ) (d : Driver) → IsKnown g r → IsContent key bytes
        → StaysSound g d (has g r key bytes d) }
    ensures part { (g : DriverInput) (r : ℕ) (key bytes : List ℕ) (d : Driver) → IsKnown g r → StaysSound g d (sets_part g r key bytes d) }
    ensures sets { (g : DriverInput) (r : ℕ) (kind : LogKind) (topic : Topic) (value : Value) (d : Driver) → IsKnown g r → kind ≢ Location
        → IsPlainTopic topic → IsPlainValue value → StaysSound g d (sets g r kind topic value d) }
    ensures writes { (g : DriverInput) (r : ℕ) (file : LogFile) (line : List ℕ) (d : Driver) → IsKnown g r → HasPath file
        → kind_of file ≢ None → IsLine line → StaysSound g d (writes r file line d) }
    ensures merges { (g : DriverInput) (r other : ℕ) (d : Driver) → IsKnown g r → StaysSound g d (merges r other d) }
    ensures compacts { (g : DriverInput) (r : ℕ) (d : Driver) → IsKnown g r → StaysSound g d (compacts r d) }
    ensures begins { (g : DriverInput) (r : ℕ) (job : Job) (d : Driver) → IsKnown g r → IsJob g r job → StaysSound g d (begins r job d) }
    ensures closes { (g : DriverInput) (r other : ℕ) (d : Driver) → IsKnown g r → IsOther g r other → StaysSound g d (closes g r other d) }
    ensures crashes { (g : DriverInput) (r clock : ℕ) (d : Driver) → IsKnown g r → StaysSound g d (crashes g r clock d) }
    ensures waits { (g : DriverInput) (milliseconds : ℕ) (d : Driver) → StaysSound g d (waits milliseconds d) }
    ensures enters { (g : DriverInput) (path key : List ℕ) (d : Driver) → IsKeyText key → StaysSound g d (enters path key d) }
    ensures will_fail { (g : DriverInput) (r : ℕ) (call : Call) (d : Driver) → StaysSound g d (will_fail r call d) }
    ensures mark { (g : DriverInput) (d : Driver) → StaysSound g d (with_mark d) }
    ensures line { (g : DriverInput) (line : Command) (d : Driver) → IsOne g line → StaysSound g d (does g line d) }
{
    // Laws of a step: what it found, takes and names, and that its entry suits its ends and goes to others.
    steps_find_their_cause();
    own_entries_suit_their_ends();
    steps_take_what_is_at_hand();
    steps_name_their_jobs();
    // A law: the calls that a step makes.
    steps_tell_their_calls();
    frames_go_to_others();
    // A law: a running job keeps the key that was asked of it.
    running_jobs_stay_the_same();
    // A law: a run begins without entries, and grows by each such entry, mark and change of the tree.
    runs_grow();
    // Laws: a file is read off its path, what its log lacks is a set of lines, and a text without a fault is a key's.
    files_have_their_paths();
    unions_have_the_lines_of_both();
    differences_make_the_union();
    key_texts_have_no_fault();
}

/// Each step of the driver leaves the entries that it finds as they are, in their places: it only adds entries behind them. So
/// do turns, rounds, settlings, blocks and what a sync is made of, and each whole line (own).
pub fn drivers_only_add()
    ensures turn { (g : DriverInput) (r : ℕ) (d : Driver) → OnlyAdds d (turn g r d) }
    ensures has { (g : DriverInput) (r : ℕ) (key bytes : List ℕ) (d : Driver) → OnlyAdds d (has g r key bytes d) }
    ensures part { (g : DriverInput) (r : ℕ) (key bytes : List ℕ) (d : Driver) → OnlyAdds d (sets_part g r key bytes d) }
    ensures sets { (g : DriverInput) (r : ℕ) (kind : LogKind) (topic : Topic) (value : Value) (d : Driver)
        → OnlyAdds d (sets g r kind topic value d) }
    ensures writes { (r : ℕ) (file : LogFile) (line : List ℕ) (d : Driver) → OnlyAdds d (writes r file line d) }
    ensures merges { (r other : ℕ) (d : Driver) → OnlyAdds d (merges r other d) }
    ensures compacts { (r : ℕ) (d : Driver) → OnlyAdds d (compacts r d) }
    ensures begins { (r : ℕ) (job : Job) (d : Driver) → OnlyAdds d (begins r job d) }
    ensures closes { (g : DriverInput) (r other : ℕ) (d : Driver) → OnlyAdds d (closes g r other d) }
    ensures crashes { (g : DriverInput) (r clock : ℕ) (d : Driver) → OnlyAdds d (crashes g r clock d) }
    ensures waits { (milliseconds : ℕ) (d : Driver) → OnlyAdds d (waits milliseconds d) }
    ensures enters { (path key : List ℕ) (d : Driver) → OnlyAdds d (enters path key d) }
    ensures will_fail { (r : ℕ) (call : Call) (d : Driver) → OnlyAdds d (will_fail r call d) }
    ensures mark { (d : Driver) → OnlyAdds d (with_mark d) }
    ensures turns { (g : DriverInput) (r n : ℕ) (d : Driver) → OnlyAdds d (turns g r n d) }
    ensures round { (g : DriverInput) (d : Driver) → OnlyAdds d (round g d) }
    ensures settles { (g : DriverInput) (d : Driver) → OnlyAdds d (settles g d) }
    ensures blocks { (g : DriverInput) (lines : List Agendum) (d : Driver) → OnlyAdds d (blocks g lines d) }
    ensures merges_each { (r : ℕ) (others : List ℕ) (d : Driver) → OnlyAdds d (merges_each r others d) }
    ensures each_merges { (r : ℕ) (others : List ℕ) (d : Driver) → OnlyAdds d (each_merges r others d) }
    ensures carries { (g : DriverInput) (r : ℕ) (actions : List Action) (d : Driver) → OnlyAdds d (carries_out g r actions d) }
    ensures shares { (g : DriverInput) (r : ℕ) (d : Driver) → OnlyAdds d (shares_logs g r d) }
    ensures transfers { (g : DriverInput) (r : ℕ) (d : Driver) → OnlyAdds d (transfers g r d) }
    ensures drops { (g : DriverInput) (r : ℕ) (d : Driver) → OnlyAdds d (drops_spared g r d) }
    ensures line { (g : DriverInput) (line : Command) (d : Driver) → OnlyAdds d (does g line d) }
{}

/// The line of a setting is one line, and isn't empty, where what is set is written without a newline (own).
pub fn settings_are_lines()
    ensures { (kind : LogKind) (topic : Topic) (time : ℕ) (value : Value) → IsPlainTopic topic → IsPlainValue value
        → IsLine (line_text kind (record { topic = topic; stamp = Some time; value = value })) }
{}

/// No line takes time but one that waits (own).
pub fn only_waits_take_time()
    ensures { (g : DriverInput) (line : Command) (d : Driver) → now (does g line d).past ≡ now d.past + waited_by line }
{}
