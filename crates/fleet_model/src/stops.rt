//! The law of fleets that meet a full history. It is the contract of a function that does nothing.
ghost use Rattle.std.specs.Prelude.{◌≡◌, ◌<◌, ◌≤◌, ◌^◌, ℕ, true, List, [], ◌∷◌, length, slice_get, Some, None};
ghost use Rattle.std.specs.Map.{keys_of};
ghost use Rattle.log_lines.specs.LineText.{line_text};
ghost use Rattle.log_lines.specs.declared.entry.LogKind.{LogKind};
ghost use Rattle.log_lines.specs.declared.entry.Topic.{Topic};
ghost use Rattle.log_lines.specs.declared.entry.Value.{Value};
ghost use Rattle.run_data.specs.Histories.{most_entries};
ghost use Rattle.run_data.specs.declared.entry.LogFile.{LogFile};
ghost use Rattle.run_data.specs.declared.entry.LogFile.TheVariants.{Of};
ghost use Rattle.run_data.specs.declared.job.Job.{Job};
ghost use Rattle.joined_nodes.specs.Parts.{AreParts};
ghost use Rattle.driver_model.specs.Driver.{Driver, DriverInput, set_up_of};
ghost use Rattle.driver_model.specs.Limits.{StopsAtFull, count_of, within_limit};
ghost use Rattle.driver_model.specs.Scripts.{IsContent};
ghost use Rattle.driver_model.specs.ScriptSteps.{begins, compacts, crashes, has, merges, sets, sets_part, writes};
ghost use Rattle.driver_model.specs.Turning.{turn};
ghost use Rattle.joined_nodes.specs.Calls.{MeetsFull, MeetsFullBehind, lacks_of, lacks_some, shrinks_at};
ghost use Rattle.joined_nodes.specs.Logs.{stamped_by};
ghost use Rattle.joined_nodes.specs.Nodes.{IsState, NodeView, state_of, told_of};
ghost use Rattle.joined_nodes.specs.Stored.{StoreView};
ghost use Rattle.joined_nodes.specs.Turning.{HasStep};
ghost use Rattle.joined_nodes.specs.Walks.{compact_files, merge_files};
ghost use Rattle.fleet_model.specs.Fleets.{FleetView, HasCome};
ghost use Rattle.fleet_model.specs.Steps.{OneGoesOn, with_newest};
ghost use Rattle.fleet_model.specs.Stopping.{OthersAreFew};
ghost use Rattle.fleet_model.specs.Turns.{StandsWell};

use driver_model::{
    drivers_stay_sound, runs_are_cut_where_histories_are_full, settlings_come_to_rest,
    sound_drivers_keep_their_jobs, starts_of_steps_stay_sound, steps_add_own_entries,
    turns_are_found,
};
use growth_laws::jobs_keep_their_paths;
use link_flights::{
    dropped_ends_keep_their_flights, heard_words_are_told, looks_see_the_flights, steps_are_posted,
    turns_keep_all_ends, words_stay_with_frames,
};
use node_ends::ends_are_there;
use run_laws::carried_states_agree;
use step_facts::steps_find_their_cause;

/// Where the history of a node is full, the driver of scripts comes to an entry of it, and the fleet's run has all entries before that
/// one (own).
pub fn fleets_stop_at_full_histories<K>()
    ensures turn { (tells : K → StoreView) (g : DriverInput) (d : Driver) (r : ℕ) (n : NodeView K) (was : FleetView K) → HasCome tells g d was → slice_get was.nodes r ≡ Some n → OthersAreFew r was.nodes
        → StandsWell g d r n → length n.history ≡ most_entries → HasStep (with_newest d n) (set_up_of g d r) → StopsAtFull g r (turn g r d) was.run }
    ensures job { (tells : K → StoreView) (g : DriverInput) (d : Driver) (r : ℕ) (n : NodeView K) (was : FleetView K) → HasCome tells g d was → slice_get was.nodes r ≡ Some n → OthersAreFew r was.nodes
        → (job : Job) → AreParts (set_up_of g d r) (state_of (set_up_of g d r) n.history) n.parts → length n.history ≡ most_entries → length n.parts.jobs.running < 4
        → StopsAtFull g r (begins r job d) was.run }
    ensures crash { (tells : K → StoreView) (g : DriverInput) (d : Driver) (r : ℕ) (n : NodeView K) (was : FleetView K) → HasCome tells g d was → slice_get was.nodes r ≡ Some n → OthersAreFew r was.nodes
        → (clock : ℕ) → length n.history ≡ most_entries → StopsAtFull g r (crashes g r clock d) was.run }
    ensures line { (tells : K → StoreView) (g : DriverInput) (d : Driver) (r : ℕ) (n : NodeView K) (was : FleetView K) → HasCome tells g d was → slice_get was.nodes r ≡ Some n → OthersAreFew r was.nodes
        → (file : LogFile) (line : List ℕ) → length n.history ≡ most_entries → lacks_some n file (line ∷ []) ≡ true → StopsAtFull g r (writes r file line d) was.run }
    ensures setting { (tells : K → StoreView) (g : DriverInput) (d : Driver) (r : ℕ) (n : NodeView K) (was : FleetView K) → HasCome tells g d was → slice_get was.nodes r ≡ Some n → OthersAreFew r was.nodes
        → (kind : LogKind) (topic : Topic) (value : Value) → length n.history ≡ most_entries
        → lacks_some n (Of kind) (line_text kind (stamped_by (with_newest d n) kind None (record { topic = topic; stamp = None; value = value })) ∷ []) ≡ true
        → StopsAtFull g r (sets g r kind topic value d) was.run }
    ensures asked { (tells : K → StoreView) (g : DriverInput) (d : Driver) (r : ℕ) (n : NodeView K) (was : FleetView K) → HasCome tells g d was → slice_get was.nodes r ≡ Some n → OthersAreFew r was.nodes
        → (key bytes : List ℕ) → length n.history ≡ most_entries → (count_of d.past r ≡ most_entries) × (within_limit g (has g r key bytes d).past ≡ d.past) }
    ensures part { (tells : K → StoreView) (g : DriverInput) (d : Driver) (r : ℕ) (n : NodeView K) (was : FleetView K) → HasCome tells g d was → slice_get was.nodes r ≡ Some n → OthersAreFew r was.nodes
        → (key bytes : List ℕ) → length n.history ≡ most_entries → (count_of d.past r ≡ most_entries) × (within_limit g (sets_part g r key bytes d).past ≡ d.past) }
    ensures merge { (tells : K → StoreView) (g : DriverInput) (d : Driver) (r : ℕ) (n m : NodeView K) (was after : FleetView K) → HasCome tells g d was → OneGoesOn r n m was after → OthersAreFew r was.nodes
        → m.time ≤ 1000000000000 → m.count < 2 ^ 62 → (other : ℕ) (o : NodeView K) → slice_get was.nodes other ≡ Some o
        → MeetsFull (merge_files (with_newest d n)) lacks_of o.branch (tells n.keeper).failing (tells m.keeper).failing (with_newest d n) m → StopsAtFull g r (merges r other d) after.run }
    ensures compact { (tells : K → StoreView) (g : DriverInput) (d : Driver) (r : ℕ) (n m : NodeView K) (was after : FleetView K) → HasCome tells g d was → OneGoesOn r n m was after → OthersAreFew r was.nodes
        → m.time ≤ 1000000000000 → m.count < 2 ^ 62
        → MeetsFull (compact_files (with_newest d n)) shrinks_at (keys_of n.branch) (tells n.keeper).failing (tells m.keeper).failing (with_newest d n) m → StopsAtFull g r (compacts r d) after.run }
    ensures content { (tells : K → StoreView) (g : DriverInput) (d : Driver) (r : ℕ) (n m : NodeView K) (was after : FleetView K) → HasCome tells g d was → OneGoesOn r n m was after → OthersAreFew r was.nodes
        → m.time ≤ 1000000000000 → m.count < 2 ^ 62 → (key bytes : List ℕ) → IsContent key bytes
        → IsState (set_up_of g d r) n.parts n.branch n.owed (told_of (tells n.keeper).contents (tells n.keeper).parts) (state_of (set_up_of g d r) n.history)
        → MeetsFullBehind key bytes (tells n.keeper).contents (tells n.keeper).failing (tells m.keeper).failing (with_newest d n) m → length bytes < 2 ^ 62
        → StopsAtFull g r (has g r key bytes d) after.run }
{
    // Laws: steps add own entries, a full history none within the limit; starts are sound; an idle turn found no step.
    steps_add_own_entries();
    starts_of_steps_stay_sound();
    runs_are_cut_where_histories_are_full();
    settlings_come_to_rest();
    // Laws of a turn: the node's state, frames and room are the driver's. The lemmas take the others along.
    carried_states_agree();
    steps_find_their_cause();
    looks_see_the_flights();
    dropped_ends_keep_their_flights();
    turns_keep_all_ends();
    steps_are_posted();
    words_stay_with_frames();
    heard_words_are_told();
    jobs_keep_their_paths();
    ends_are_there();
    turns_are_found();
    drivers_stay_sound();
    sound_drivers_keep_their_jobs();
}
