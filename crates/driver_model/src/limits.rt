//! The laws of a driver whose repositories make at most 100,000 entries each. Each is the contract of a function that does nothing.

ghost use Rattle.std.specs.Prelude.{◌≡◌, ◌⊎◌, ℕ, ◌<◌, ◌≤◌, true, false, List, ◌++◌, length, reverse};
ghost use Rattle.annex_base.specs.Lists.{Each};
ghost use Rattle.log_lines.specs.declared.entry.LogKind.{LogKind};
ghost use Rattle.log_lines.specs.declared.entry.Topic.{Topic};
ghost use Rattle.log_lines.specs.declared.entry.Value.{Value};
ghost use Rattle.union_merge.specs.Branch.{Files};
ghost use Rattle.run_data.specs.Histories.{most_entries};
ghost use Rattle.run_data.specs.declared.entry.Entry.{Entry};
ghost use Rattle.run_data.specs.declared.entry.LogFile.{LogFile};
ghost use Rattle.run_data.specs.declared.job.Job.{Job};
ghost use Rattle.run_data.specs.declared.run.Run.{Run};
ghost use Rattle.run_model.specs.Logs.{branch};
ghost use Rattle.driver_model.specs.Driver.{Driver, DriverInput, drops_part, puts_part};
ghost use Rattle.driver_model.specs.Driving.{does, run_of};
ghost use Rattle.driver_model.specs.Limits.{AddsOwn, HasFull, LacksPlaces, StopsAtFull, count_of, is_too_long, limited_run, names_path, within_limit};
ghost use Rattle.script_commands.specs.declared.command.Command.{Command};
ghost use Rattle.driver_model.specs.Scripts.{IsContent, IsKnown, IsOne};
ghost use Rattle.driver_model.specs.ScriptSteps.{begins, compacts_files, gets_content, has, is_busy, merges_files, sets, sets_part, writes};
ghost use Rattle.driver_model.specs.Sound.{OnlyAdds, StaysSound};
ghost use Rattle.driver_model.specs.Turning.{turn};

use annex_key::key_texts_have_no_fault;
use growth_laws::runs_grow;
use node_model::steps_tell_their_calls;
use run_data::files_have_their_paths;
use run_laws::frames_go_to_others;
use step_facts::{
    own_entries_suit_their_ends, running_jobs_stay_the_same, steps_find_their_cause,
    steps_name_their_jobs, steps_take_what_is_at_hand,
};
use union_merge::{differences_make_the_union, unions_have_the_lines_of_both};

/// Each step of the driver that one repository makes adds entries of that repository alone, in front of the past (own).
pub fn steps_add_own_entries()
    ensures turn { (g : DriverInput) (r : ℕ) (d : Driver) → AddsOwn r d (turn g r d) }
    ensures has { (g : DriverInput) (r : ℕ) (key bytes : List ℕ) (d : Driver) → AddsOwn r d (has g r key bytes d) }
    ensures part { (g : DriverInput) (r : ℕ) (key bytes : List ℕ) (d : Driver) → AddsOwn r d (sets_part g r key bytes d) }
    ensures writes { (r : ℕ) (file : LogFile) (line : List ℕ) (d : Driver) → AddsOwn r d (writes r file line d) }
    ensures sets { (g : DriverInput) (r : ℕ) (kind : LogKind) (topic : Topic) (value : Value) (d : Driver)
        → AddsOwn r d (sets g r kind topic value d) }
    ensures merges { (r : ℕ) (files : Files) (d : Driver) → AddsOwn r d (merges_files r files d) }
    ensures compacts { (r : ℕ) (files : Files) (d : Driver) → AddsOwn r d (compacts_files r files d) }
    ensures begins { (r : ℕ) (job : Job) (d : Driver) → AddsOwn r d (begins r job d) }
{}

/// The driver is sound also where it has gone over some files of a merge or a compaction, or has a content and no line yet that
/// says so (own).
pub fn starts_of_steps_stay_sound()
    ensures merges { (g : DriverInput) (r other : ℕ) (done left : Files) (d : Driver) → IsKnown g r → branch d.past other ≡ done ++ left
        → StaysSound g d (merges_files r done d) }
    ensures compacts { (g : DriverInput) (r : ℕ) (done left : Files) (d : Driver) → IsKnown g r → branch d.past r ≡ done ++ left
        → StaysSound g d (compacts_files r done d) }
    ensures content { (g : DriverInput) (r : ℕ) (key bytes : List ℕ) (d : Driver) → IsKnown g r → IsContent key bytes
        → is_busy g d r key ≡ false → StaysSound g d (gets_content r key bytes (puts_part r key bytes (drops_part r key d))) }
{
    // Laws: what a step found, and that its entry suits its ends.
    steps_find_their_cause();
    own_entries_suit_their_ends();
    // The shared lemmas take these along, for turns.
    steps_take_what_is_at_hand();
    steps_name_their_jobs();
    // A law: the calls that a step makes.
    steps_tell_their_calls();
    // Laws: frames go to others, a running job keeps its key, and a run grows by each such entry.
    frames_go_to_others();
    running_jobs_stay_the_same();
    runs_grow();
    // Laws: a file is read off its path, what its log lacks is a set of lines, and a text without a fault is a key's.
    files_have_their_paths();
    unions_have_the_lines_of_both();
    differences_make_the_union();
    key_texts_have_no_fault();
}

/// A past in which no repository has made more than 100,000 entries isn't too long. Where a step comes to an entry of a
/// repository whose history is full by then, the past is too long, also after all that follows it, and as far as it is within the
/// limit it is the run up to that entry; nothing that a repository with a full history adds is within the limit. No line changes
/// the marks before it, and none the tree but one that names a path. Where no line meets a full history the run is whole (own).
pub fn runs_are_cut_where_histories_are_full()
    ensures cut { (g : DriverInput) (r : ℕ) (after : Driver) (run : Run) → StopsAtFull g r after run → is_too_long g after.past ≡ true }
    ensures entries { (g : DriverInput) (r : ℕ) (after : Driver) (run : Run) → StopsAtFull g r after run
        → reverse (within_limit g after.past) ≡ run.entries }
    ensures later { (g : DriverInput) (r : ℕ) (mid after : Driver) (run : Run) → StopsAtFull g r mid run → OnlyAdds mid after
        → StopsAtFull g r after run }
    ensures asks { (g : DriverInput) (r : ℕ) (d after : Driver) → r < length g.repos → AddsOwn r d after → count_of d.past r ≡ most_entries
        → ((q : ℕ) → count_of d.past q ≤ most_entries) → within_limit g after.past ≡ d.past }
    ensures few { (g : DriverInput) (past : List Entry) → ((q : ℕ) → q < length g.repos → count_of past q ≤ most_entries)
        → is_too_long g past ≡ false }
    ensures marks { (g : DriverInput) (line : Command) (d : Driver) → (does g line d).marks ≡ d.marks }
    ensures tree { (g : DriverInput) (line : Command) (d : Driver) → names_path line ≡ false → (does g line d).tree ≡ d.tree }
    ensures step { (g : DriverInput) (r : ℕ) (d : Driver) → (turn g r d).tree ≡ d.tree }
    ensures whole { (g : DriverInput) (lines : List Command) → (limited_run g lines).is_cut ≡ false
        → (limited_run g lines).run ≡ run_of g lines }
{}

/// Where a script's run is cut, some repository has a full history in it, or a line comes to a close of more ends than there are places
/// left in the history of its repository, and closes none (own).
pub fn cut_runs_have_a_full_history()
    ensures { (g : DriverInput) (lines : List Command) → Each (IsOne g) lines → (limited_run g lines).is_cut ≡ true
        → HasFull g (reverse (limited_run g lines).run.entries) ⊎ LacksPlaces g lines (reverse (limited_run g lines).run.entries) }
{}
