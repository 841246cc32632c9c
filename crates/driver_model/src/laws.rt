//! The laws of driven runs. Each is the contract of a function that does nothing.

ghost use Rattle.std.specs.Prelude.{◌≡◌, ◌≢◌, ℕ, ◌+◌, ◌*◌, ◌^◌, ◌<◌, ◌≤◌, true, false, List, ◌∷◌, Some, None, length, map, take};
ghost use Rattle.annex_base.specs.Lists.{Each};
ghost use Rattle.run_data.specs.Repos.{IsSetUp};
ghost use Rattle.run_data.specs.declared.entry.Entry.{Entry};
ghost use Rattle.run_data.specs.declared.entry.FrameView.{FrameView};
ghost use Rattle.run_data.specs.declared.run.Run.{Run};
ghost use Rattle.node_model.specs.AnyTime.{all_ends};
ghost use Rattle.node_model.specs.Ends.{EndName};
ghost use Rattle.node_model.specs.Jobs.{Work, job_end};
ghost use Rattle.node_model.specs.Look.{Look, Effect};
ghost use Rattle.node_model.specs.SetUp.{SetUp, others};
ghost use Rattle.node_model.specs.Step.{step};
ghost use Rattle.run_model.specs.Past.{begun_count, is_of};
ghost use Rattle.run_model.specs.Run.{IsRun};
ghost use Rattle.run_model.specs.States.{end_at, works};
ghost use Rattle.run_laws.specs.Jobs.{AnswersAsked, AreJobs};
ghost use Rattle.driver_model.specs.Apart.{AreApart};
ghost use Rattle.driver_model.specs.Driver.{Driver, DriverInput, has_room, without_old_flights, set_up_of, state_at};
ghost use Rattle.driver_model.specs.Driving.{driver_after, run_of};
ghost use Rattle.driver_model.specs.Limits.{driver_at_cut, is_too_long, limited_run};
ghost use Rattle.script_commands.specs.declared.command.Command.{Command};
ghost use Rattle.driver_model.specs.Logged.{LogsWell};
ghost use Rattle.driver_model.specs.Rounds.{AfterRounds, is_settled, most_rounds, rounds};
ghost use Rattle.driver_model.specs.Scripts.{HasBoundedPast, IsKnown, IsOne};
ghost use Rattle.driver_model.specs.Sound.{IsSound};
ghost use Rattle.driver_model.specs.Turning.{plain_look, turn};

use annex_key::key_texts_have_no_fault;
use growth_laws::runs_grow;
use node_model::steps_tell_their_calls;
use run_data::files_have_their_paths;
use run_laws::{frames_go_to_others, jobs_hear_nobody_twice, kept_words_were_asked};
use step_facts::{
    own_entries_suit_their_ends, running_jobs_stay_the_same, steps_find_their_cause,
    steps_name_their_jobs, steps_take_what_is_at_hand,
};
use union_merge::{differences_make_the_union, unions_have_the_lines_of_both};

/// What the driver makes of a script is a run, where the script's lines are right and the run stays within its bounds; and so
/// is each start of it, by which a driver ends that meets a full history (own).
pub fn driven_runs_are_runs()
    ensures run { (g : DriverInput) (lines : List Command) → Each IsSetUp g.repos → Each (IsOne g) lines → HasBoundedPast (driver_after g lines)
        → IsRun (run_of g lines) }
    ensures start { (g : DriverInput) (lines : List Command) (place : ℕ) → Each IsSetUp g.repos → Each (IsOne g) lines → HasBoundedPast (driver_after g lines)
        → place ≤ length (run_of g lines).entries → IsRun (record (run_of g lines) { entries = take place (run_of g lines).entries }) }
{
    // Laws of a step: what it found, takes and names, and that its entry suits its ends and goes to others.
    steps_find_their_cause();
    own_entries_suit_their_ends();
    steps_take_what_is_at_hand();
    steps_name_their_jobs();
    // A law: the calls that a step makes.
    steps_tell_their_calls();
    frames_go_to_others();
    // A law: a running job keeps the key that was asked of it.
    running_jobs_stay_the_same();
    // A law: a run grows by each such entry.
    runs_grow();
    // Laws: a file is read off its path, what its log lacks is a set of lines, and a text without a fault is a key's.
    files_have_their_paths();
    unions_have_the_lines_of_both();
    differences_make_the_union();
    key_texts_have_no_fault();
}

/// So is the run of a script up to where a line meets a full history, or comes to a close of more ends than there are places left: it
/// is a run, with the changes of the tree that this line makes.
pub fn limited_runs_are_runs()
    ensures { (g : DriverInput) (lines : List Command) → Each IsSetUp g.repos → Each (IsOne g) lines → HasBoundedPast (driver_at_cut g lines)
        → IsRun (limited_run g lines).run }
{
    // Laws of a step: what it found, takes and names, and that its entry suits its ends and goes to others.
    steps_find_their_cause();
    own_entries_suit_their_ends();
    steps_take_what_is_at_hand();
    steps_name_their_jobs();
    // A law: the calls that a step makes.
    steps_tell_their_calls();
    frames_go_to_others();
    // A law: a running job keeps the key that was asked of it.
    running_jobs_stay_the_same();
    // Law: a run grows by each such entry.
    runs_grow();
    // Laws: a file is read off its path, what its log lacks is a set of lines, and a text without a fault is a key's.
    files_have_their_paths();
    unions_have_the_lines_of_both();
    differences_make_the_union();
    key_texts_have_no_fault();
}

/// The lines that an entry of a run adds to a log are in order, each once, and the file has a path and a kind (own).
pub fn runs_log_lines()
    ensures { (run : Run) → IsRun run → Each (λ e. LogsWell e.kind e.lines) run.entries }
{
    // A law: what a step found tells the lines of its entry, and its key.
    steps_find_their_cause();
    // The shared lemmas take these along, for other facts.
    own_entries_suit_their_ends();
    steps_take_what_is_at_hand();
    steps_name_their_jobs();
    // A law: the calls that a step makes.
    steps_tell_their_calls();
    frames_go_to_others();
    // A law: a running job keeps the key that was asked of it.
    running_jobs_stay_the_same();
    // The shared lemmas take these along, for other facts.
    runs_grow();
    files_have_their_paths();
    unions_have_the_lines_of_both();
    differences_make_the_union();
    // A law: a text without a fault is a key's, so its log has a path.
    key_texts_have_no_fault();
}

/// A settling that adds fewer than 2,000,000 entries ends with two rounds that add none, so the bound on its rounds isn't met. So
/// does each settling of at most sixteen repositories that leaves none with more than 100,000 entries: it adds entries of these
/// repositories alone. And a turn that adds none found no step ready, with the first frame at each end at hand (own).
pub fn settlings_come_to_rest()
    ensures settled { (g : DriverInput) (x : AfterRounds) (bound : ℕ) → bound ≡ most_rounds
        → length (rounds g bound x).driver.past < length x.driver.past + 2000000 → is_settled (rounds g bound x) ≡ true }
    ensures limited { (g : DriverInput) (x : AfterRounds) (bound : ℕ) → bound ≡ most_rounds → length g.repos ≤ 16
        → is_too_long g (rounds g bound x).driver.past ≡ false → is_settled (rounds g bound x) ≡ true }
    ensures idle { (g : DriverInput) (r : ℕ) (d : Driver) → length (turn g r d).past ≡ length d.past
        → step (set_up_of g d r) (state_at g d r) (plain_look (set_up_of g d r) (without_old_flights (state_at g d r) r d)) ≡ None }
{
    // A law: an entry names the job of its step, so looks that differ in part and words find a step alike.
    steps_name_their_jobs();
    // A law: the calls that a step makes.
    steps_tell_their_calls();
}

/// Where the driver is sound, each end has sent at most twice as many frames since it was opened as there are entries, and its opening
/// has at most twice that number too: an entry sends at most two frames at an end, and takes no opening but one that was sent (own).
pub fn ends_have_small_numbers()
    ensures sent { (g : DriverInput) (d : Driver) (r : ℕ) (a : EndName) → IsSound g d → (end_at d.past r a).sent ≤ 2 * length d.past }
    ensures epoch { (g : DriverInput) (d : Driver) (r : ℕ) (a : EndName) → IsSound g d → (end_at d.past r a).epoch ≤ 2 * length d.past }
{
    // Laws: what a step found tells what it sends, and its entry suits its ends.
    steps_find_their_cause();
    own_entries_suit_their_ends();
}

/// The ends of a repository's connections are apart: each is listed once. So are the ends of a job's connections with each other
/// repository (own).
pub fn ends_are_apart()
    ensures all { (s : SetUp) → AreApart (all_ends s) }
    ensures job { (s : SetUp) (w : Work) → AreApart (map (job_end w) (others s)) }
{}

/// Where the driver is sound: the running jobs of a repository are as `AreJobs` says, with the numbers of their beginnings; each step that it may make sends to and takes
/// from other repositories alone, so its ends at itself have room for good; and an answer that a job takes with the newest entry,
/// where the word beside it is kept, comes of an entry that was asked for a word (own).
pub fn sound_drivers_keep_their_jobs()
    ensures jobs { (g : DriverInput) (d : Driver) (r : ℕ) → IsSound g d → AreJobs (works d.past r) }
    ensures numbers { (g : DriverInput) (d : Driver) (r : ℕ) → IsSound g d → Each (λ w. w.number ≤ begun_count d.past r) (works d.past r) }
    ensures sends { (g : DriverInput) (d : Driver) (r : ℕ) (k : Look) (m : Effect) → IsSound g d → IsKnown g r → k.part < 2 ^ 62
        → step (set_up_of g d r) (state_at g d r) k ≡ Some m → Each (λ f. f.peer ≢ r) m.sent }
    ensures takes { (g : DriverInput) (d : Driver) (r : ℕ) (k : Look) (m : Effect) (f : FrameView) → IsSound g d → IsKnown g r → k.part < 2 ^ 62
        → step (set_up_of g d r) (state_at g d r) k ≡ Some m → m.taken ≡ Some f → f.peer ≢ r }
    ensures room { (g : DriverInput) (d : Driver) (r : ℕ) (a : EndName) → IsSound g d → a.peer ≡ r → has_room r d.flights a ≡ true }
    ensures asked { (g : DriverInput) (d : Driver) (past : List Entry) (e : Entry) (r : ℕ) → IsSound g d → d.past ≡ e ∷ past → is_of r e ≡ true
        → AnswersAsked past r e }
{
    // Laws: what holds of the jobs, frames and words of a run, which the entries of a sound driver are.
    jobs_hear_nobody_twice();
    frames_go_to_others();
    kept_words_were_asked();
}
