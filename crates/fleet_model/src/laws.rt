//! The laws of fleets. Each is the contract of a function that does nothing.
ghost use Rattle.std.specs.Prelude.{◌≡◌, ◌+◌, ◌<◌, ◌≤◌, ◌^◌, ℕ, suc, false, true, List, [], ◌∷◌, ◌++◌, length, map, slice_get, Option, Some, None};
ghost use Rattle.std.specs.List.{range_with_len};
ghost use Rattle.std.specs.Map.{keys_of};
ghost use Rattle.std.specs.Option.{option_map};
ghost use Rattle.annex_base.specs.Lists.{Each};
ghost use Rattle.annex_base.specs.declared.kinds.Call.{Call};
ghost use Rattle.annex_base.specs.declared.kinds.Call.TheVariants as calls;
ghost use Rattle.log_lines.specs.LineText.{line_text};
ghost use Rattle.log_lines.specs.declared.entry.LogKind.{LogKind};
ghost use Rattle.log_lines.specs.declared.entry.Topic.{Topic};
ghost use Rattle.log_lines.specs.declared.entry.Value.{Value};
ghost use Rattle.object_store.specs.Calls.{one_more};
ghost use Rattle.object_store.specs.Stores.{AreSmallParts};
ghost use Rattle.link_ring.specs.Ends.{after_drop};
ghost use Rattle.run_data.specs.declared.entry.EntryKind.TheVariants as kinds;
ghost use Rattle.run_data.specs.declared.entry.LogFile.{LogFile};
ghost use Rattle.run_data.specs.declared.entry.LogFile.TheVariants.{Of};
ghost use Rattle.run_data.specs.declared.job.Job.{Job};
ghost use Rattle.run_model.specs.Past.{begun_count, now};
ghost use Rattle.run_model.specs.Run.{tree_at};
ghost use Rattle.annex_key.specs.Tree.{paths_of};
ghost use Rattle.run_model.specs.States.{works};
ghost use Rattle.joined_nodes.specs.Parts.{AreParts};
ghost use Rattle.joined_nodes.specs.Beginning.{Begins};
ghost use Rattle.driver_model.specs.Driver.{Driver, DriverInput, at_first, newest_count, set_up_of};
ghost use Rattle.driver_model.specs.Driving.{run_with, turns, with_mark};
ghost use Rattle.driver_model.specs.Rounds.{AfterRounds, after_round, is_settled, most_rounds, round, settles, turns_of};
ghost use Rattle.driver_model.specs.ScriptSteps.{begins, compacts, enters, has, merges, sets, sets_part, waits, will_fail, writes};
ghost use Rattle.driver_model.specs.Sound.{IsSound, StaysSound};
ghost use Rattle.driver_model.specs.Turning.{turn};
ghost use Rattle.content_lock.specs.CallsMade.{MakesCalls};
ghost use Rattle.joined_nodes.specs.Calls.{IsDoneBy, StopsAt, to_compact, to_log, to_merge, to_place, to_place_part};
ghost use Rattle.joined_nodes.specs.Logs.{stamped_by};
ghost use Rattle.joined_nodes.specs.Nodes.{IsState, NodeView, state_of, told_of, with_entry};
ghost use Rattle.joined_nodes.specs.Placing.{IsPlaced};
ghost use Rattle.joined_nodes.specs.Refusals.{RefusesSo};
ghost use Rattle.joined_nodes.specs.Stored.{StoreView};
ghost use Rattle.joined_nodes.specs.Turning.{Adds, IsIdle, StepsBy};
ghost use Rattle.joined_nodes.specs.Walks.{compact_files, merge_files, over};
ghost use Rattle.node_past.specs.declared.refused.NodeRefused.TheVariants as refusals;
ghost use Rattle.node_model.specs.Step.{step};
ghost use Rattle.joined_nodes.specs.Joined.{AreNew, AreNodes};
ghost use Rattle.fleet_model.specs.Fleets.{FleetView, HasCome};
ghost use Rattle.fleet_model.specs.Matches.{DecidesMatches};
ghost use Rattle.fleet_model.specs.Settling.{goes_rounds, power, before_rounds};
ghost use Rattle.fleet_model.specs.Steps.{HasLogged, OneGoesOn, OneTurns, StaysStored, with_newest, with_links};
ghost use Rattle.fleet_model.specs.Stores.{IsStoreOf};
ghost use Rattle.fleet_model.specs.Turns.{IsWhole, StandsWell};

use driver_model::{drivers_stay_sound, sound_drivers_keep_their_jobs, turns_are_found};
use growth_laws::jobs_keep_their_paths;
use link_flights::{
    dropped_ends_keep_their_flights, ends_begin_without_flights, ends_in_flight_are_carried,
    heard_words_are_told, looks_see_the_flights, steps_are_posted, turns_keep_all_ends,
    words_stay_with_frames,
};
use node_ends::ends_are_there;
use run_laws::carried_states_agree;
use step_facts::steps_find_their_cause;

/// A fleet of new nodes, each over an empty store of which nothing is to fail, has come to where the driver is at first (own).
pub fn fleets_begin<K>()
    ensures { (tells : K → StoreView) (g : DriverInput) (keepers : List K) (f : FleetView K) → AreNew g.repos keepers f.nodes → length keepers ≡ length g.repos
        → ((r : ℕ) (keeper : K) → slice_get keepers r ≡ Some keeper → IsStoreOf at_first r (tells keeper)) → f.run ≡ run_with g at_first → IsSound g at_first
        → HasCome tells g at_first f }
{
    // Laws: at first the ends are as the flights tell, and the words beside frames and of jobs as the past has them.
    ends_begin_without_flights();
    words_stay_with_frames();
    heard_words_are_told();
}

/// A fleet that has come to where the driver is comes to where the driver is after a line of a script, once one of its nodes, told of
/// the newest entry, did what the line says; or time passed, a path was named, or a line was marked as done (own).
pub fn fleets_do_lines<K>()
    ensures line { (tells : K → StoreView) (g : DriverInput) (d : Driver) (r : ℕ) (n m : NodeView K) (was after : FleetView K) (file : LogFile) (line : List ℕ) (failed : Option Call)
        → HasCome tells g d was → OneGoesOn r n m was after → StaysStored (tells n.keeper) (tells m.keeper)
        → MakesCalls (to_log n file (line ∷ [])) failed (tells n.keeper).failing (tells m.keeper).failing → HasLogged file (line ∷ []) failed (with_newest d n) m
        → m.time ≤ 1000000000000 → m.count < 2 ^ 62 → StaysSound g d (writes r file line d) → HasCome tells g (writes r file line d) after }
    ensures setting { (tells : K → StoreView) (g : DriverInput) (d : Driver) (r : ℕ) (n m : NodeView K) (was after : FleetView K) (kind : LogKind) (topic : Topic) (value : Value) (failed : Option Call)
        → HasCome tells g d was → OneGoesOn r n m was after → StaysStored (tells n.keeper) (tells m.keeper)
        → MakesCalls (to_log n (Of kind) (line_text kind (stamped_by (with_newest d n) kind None (record { topic = topic; stamp = None; value = value })) ∷ [])) failed (tells n.keeper).failing (tells m.keeper).failing
        → HasLogged (Of kind) (line_text kind (stamped_by (with_newest d n) kind None (record { topic = topic; stamp = None; value = value })) ∷ []) failed (with_newest d n) m
        → m.time ≤ 1000000000000 → m.count < 2 ^ 62 → StaysSound g d (sets g r kind topic value d) → HasCome tells g (sets g r kind topic value d) after }
    ensures merge { (tells : K → StoreView) (g : DriverInput) (d : Driver) (r other : ℕ) (n m o : NodeView K) (was after : FleetView K) (failed : Option Call)
        → HasCome tells g d was → OneGoesOn r n m was after → slice_get was.nodes other ≡ Some o → StaysStored (tells n.keeper) (tells m.keeper)
        → MakesCalls (to_merge n o.branch) failed (tells n.keeper).failing (tells m.keeper).failing
        → (failed ≡ None → m ≡ over m.keeper (merge_files (with_newest d n) o.branch)) → ((call : Call) → failed ≡ Some call → RefusesSo refusals.StoreFault calls.PutFile (with_newest d n) m)
        → m.time ≤ 1000000000000 → m.count < 2 ^ 62 → StaysSound g d (merges r other d) → HasCome tells g (merges r other d) after }
    ensures compact { (tells : K → StoreView) (g : DriverInput) (d : Driver) (r : ℕ) (n m : NodeView K) (was after : FleetView K) (failed : Option Call)
        → HasCome tells g d was → OneGoesOn r n m was after → StaysStored (tells n.keeper) (tells m.keeper)
        → MakesCalls (to_compact n) failed (tells n.keeper).failing (tells m.keeper).failing
        → (failed ≡ None → m ≡ over m.keeper (compact_files (with_newest d n) (keys_of n.branch))) → ((call : Call) → failed ≡ Some call → RefusesSo refusals.StoreFault calls.PutFile (with_newest d n) m)
        → m.time ≤ 1000000000000 → m.count < 2 ^ 62 → StaysSound g d (compacts r d) → HasCome tells g (compacts r d) after }
    ensures content { (tells : K → StoreView) (g : DriverInput) (d : Driver) (r : ℕ) (n m : NodeView K) (was after : FleetView K) (key bytes : List ℕ) → HasCome tells g d was → OneGoesOn r n m was after
        → IsState (set_up_of g d r) n.parts n.branch n.owed (told_of (tells n.keeper).contents (tells n.keeper).parts) (state_of (set_up_of g d r) n.history)
        → IsPlaced key bytes (tells n.keeper).contents (tells n.keeper).parts (tells m.keeper).contents (with_newest d n) m
        → IsDoneBy to_place key [] n.parts.table (tells n.keeper).contents (tells n.keeper).parts (tells m.keeper).parts (tells n.keeper).failing (tells m.keeper).failing
        → length bytes < 2 ^ 62 → m.time ≤ 1000000000000 → m.count < 2 ^ 62 → StaysSound g d (has g r key bytes d) → HasCome tells g (has g r key bytes d) after }
    ensures content_stops { (tells : K → StoreView) (g : DriverInput) (d : Driver) (r : ℕ) (n m : NodeView K) (was after : FleetView K) (key bytes : List ℕ) → HasCome tells g d was → OneGoesOn r n m was after
        → IsState (set_up_of g d r) n.parts n.branch n.owed (told_of (tells n.keeper).contents (tells n.keeper).parts) (state_of (set_up_of g d r) n.history)
        → StopsAt to_place key bytes (tells n.keeper).contents (tells m.keeper).contents (tells n.keeper).parts (tells m.keeper).parts (tells n.keeper).failing (tells m.keeper).failing refusals.StoreFault (with_newest d n) m
        → length bytes < 2 ^ 62 → m.time ≤ 1000000000000 → m.count < 2 ^ 62 → StaysSound g d (has g r key bytes d) → HasCome tells g (has g r key bytes d) after }
    ensures part { (tells : K → StoreView) (g : DriverInput) (d : Driver) (r : ℕ) (n m : NodeView K) (was after : FleetView K) (key bytes : List ℕ) → HasCome tells g d was → OneGoesOn r n m was after
        → IsState (set_up_of g d r) n.parts n.branch n.owed (told_of (tells n.keeper).contents (tells n.keeper).parts) (state_of (set_up_of g d r) n.history)
        → m ≡ over m.keeper (with_newest d n) → (tells m.keeper).contents ≡ (tells n.keeper).contents
        → IsDoneBy to_place_part key bytes n.parts.table (tells n.keeper).contents (tells n.keeper).parts (tells m.keeper).parts (tells n.keeper).failing (tells m.keeper).failing
        → length bytes < 2 ^ 62 → m.time ≤ 1000000000000 → m.count < 2 ^ 62 → StaysSound g d (sets_part g r key bytes d) → HasCome tells g (sets_part g r key bytes d) after }
    ensures part_stops { (tells : K → StoreView) (g : DriverInput) (d : Driver) (r : ℕ) (n m : NodeView K) (was after : FleetView K) (key bytes : List ℕ) → HasCome tells g d was → OneGoesOn r n m was after
        → IsState (set_up_of g d r) n.parts n.branch n.owed (told_of (tells n.keeper).contents (tells n.keeper).parts) (state_of (set_up_of g d r) n.history)
        → StopsAt to_place_part key bytes (tells n.keeper).contents (tells m.keeper).contents (tells n.keeper).parts (tells m.keeper).parts (tells n.keeper).failing (tells m.keeper).failing refusals.StoreFault (with_newest d n) m
        → length bytes < 2 ^ 62 → m.time ≤ 1000000000000 → m.count < 2 ^ 62 → StaysSound g d (sets_part g r key bytes d) → HasCome tells g (sets_part g r key bytes d) after }
    ensures job { (tells : K → StoreView) (g : DriverInput) (d : Driver) (r : ℕ) (n m : NodeView K) (was after : FleetView K) (number : ℕ) (job : Job) (paths : List (List ℕ)) → HasCome tells g d was → OneGoesOn r n m was after
        → paths ≡ paths_of (tree_at d.tree (length d.past)) job.key → AreParts (set_up_of g d r) (state_of (set_up_of g d r) n.history) n.parts → number ≡ n.parts.jobs.begun + 1 → length n.parts.jobs.running < 4
        → Begins n.parts.jobs job paths m.parts.jobs → m ≡ record (with_entry (with_newest d n) n.keeper n.branch (kinds.Begin number job) []) { parts = record n.parts { jobs = m.parts.jobs } }
        → m.time ≤ 1000000000000 → m.count < 2 ^ 62 → StaysSound g d (begins r job d) → HasCome tells g (begins r job d) after }
    ensures no_slot { (tells : K → StoreView) (g : DriverInput) (d : Driver) (r : ℕ) (n m : NodeView K) (was after : FleetView K) (job : Job) → HasCome tells g d was → OneGoesOn r n m was after
        → AreParts (set_up_of g d r) (state_of (set_up_of g d r) n.history) n.parts → 4 ≤ length n.parts.jobs.running → m ≡ with_newest d n
        → m.time ≤ 1000000000000 → m.count < 2 ^ 62 → StaysSound g d (begins r job d) → HasCome tells g (begins r job d) after }
    ensures fail { (tells : K → StoreView) (g : DriverInput) (d : Driver) (r : ℕ) (call : Call) (n m : NodeView K) (was after : FleetView K) → HasCome tells g d was → OneGoesOn r n m was after
        → m ≡ record n { keeper = m.keeper } → (tells m.keeper).contents ≡ (tells n.keeper).contents → (tells m.keeper).parts ≡ (tells n.keeper).parts
        → (tells m.keeper).failing ≡ option_map (one_more call) (tells n.keeper).failing → StaysSound g d (will_fail r call d) → HasCome tells g (will_fail r call d) after }
    ensures wait { (tells : K → StoreView) (g : DriverInput) (d : Driver) (milliseconds : ℕ) (f f' : FleetView K) → f'.nodes ≡ f.nodes
        → f'.run ≡ record f.run { entries = f.run.entries ++ record { time = now d.past + milliseconds; count = newest_count d.past + 1; repo = None; kind = kinds.Wait milliseconds; taken = None; sent = []; lines = [] } ∷ [] }
        → now d.past + milliseconds ≤ 1000000000000 → newest_count d.past + 1 < 2 ^ 62 → StaysSound g d (waits milliseconds d) → HasCome tells g d f → HasCome tells g (waits milliseconds d) f' }
    ensures entered { (tells : K → StoreView) (g : DriverInput) (d : Driver) (path key : List ℕ) (f f' : FleetView K) → f'.nodes ≡ f.nodes
        → f'.run ≡ record f.run { tree = f.run.tree ++ record { place = length f.run.entries; path = path; key = key } ∷ [] } → StaysSound g d (enters path key d)
        → HasCome tells g d f → HasCome tells g (enters path key d) f' }
    ensures mark { (tells : K → StoreView) (g : DriverInput) (d : Driver) (f f' : FleetView K) → f'.nodes ≡ f.nodes → f'.run ≡ record f.run { marks = f.run.marks ++ length f.run.entries ∷ [] }
        → StaysSound g d (with_mark d) → HasCome tells g d f → HasCome tells g (with_mark d) f' }
{
    // Laws: an entry of a script keeps the words beside frames, and those that jobs were told, as the past has them.
    words_stay_with_frames();
    heard_words_are_told();
    // A law: the paths of a job's key are those of its beginning.
    jobs_keep_their_paths();
    // Laws: a node's state agrees with the driver's, whose jobs have the numbers of their beginnings.
    carried_states_agree();
    sound_drivers_keep_their_jobs();
}

/// A fleet that has come to where the driver is comes to where the driver is after a turn, once a node, told of the newest entry, made
/// a turn and frames were carried between it and all others (own).
pub fn fleets_take_turns<K>()
    ensures moved { (tells : K → StoreView) (g : DriverInput) (d : Driver) (r : ℕ) (n m : NodeView K) (was after : FleetView K)
        → DecidesMatches g → HasCome tells g d was → OneTurns r n m was after → StandsWell g d r n
        → Adds (map after_drop n.parts.links) (tells n.keeper) (tells m.keeper) (with_newest d n) m → StepsBy step (tells n.keeper) (tells m.keeper) (with_newest d n) m
        → (AreSmallParts (tells n.keeper).parts → AreSmallParts (tells m.keeper).parts) → IsWhole tells m → m.time ≤ 1000000000000 → m.count < 2 ^ 62 → HasCome tells g (turn g r d) after }
    ensures idle { (tells : K → StoreView) (g : DriverInput) (d : Driver) (r : ℕ) (n m : NodeView K) (was after : FleetView K)
        → HasCome tells g d was → OneTurns r n m was after → StandsWell g d r n
        → m ≡ with_links (with_newest d n) (map after_drop n.parts.links) → IsIdle (with_newest d n) (set_up_of g d r) → HasCome tells g (turn g r d) after }
{
    // Laws: a node's state agrees with the driver's, and what a step found says what it changes.
    carried_states_agree();
    steps_find_their_cause();
    // Laws: a node's look sees the flights, and after the turn all ends are as the flights tell.
    looks_see_the_flights();
    dropped_ends_keep_their_flights();
    turns_keep_all_ends();
    steps_are_posted();
    // Laws: the words beside frames, and those that jobs were told, stay those of the past, and so do the paths of jobs.
    words_stay_with_frames();
    heard_words_are_told();
    jobs_keep_their_paths();
    // Laws: all ends are listed; the driver's turn is the step that the node makes, and leaves it sound, with its jobs.
    ends_are_there();
    turns_are_found();
    drivers_stay_sound();
    sound_drivers_keep_their_jobs();
}

/// A fleet that has come to where the driver is comes to where the driver is after a turn, once a node, told of the newest entry, had no
/// step ready and no frame to drop: no frame need be carried (own).
pub fn fleets_rest<K>()
    ensures { (tells : K → StoreView) (g : DriverInput) (d : Driver) (r : ℕ) (n m : NodeView K) (was after : FleetView K)
        → HasCome tells g d was → OneGoesOn r n m was after → AreNodes was.nodes → StandsWell g d r n → map after_drop n.parts.links ≡ n.parts.links
        → m ≡ with_newest d n → IsIdle (with_newest d n) (set_up_of g d r) → HasCome tells g (turn g r d) after }
{
    // Laws: to carry frames changes no end that is as the flights tell, and an idle turn comes to where the driver is.
    ends_in_flight_are_carried();
    fleets_take_turns::<K>();
}

/// The driver settles by rounds one behind the other, until it is settled, or until there were as many as there may be; and a round is
/// a turn of each repository, in order of number (own).
pub fn fleets_settle()
    ensures early { (g : DriverInput) (d : Driver) (n : ℕ) → n ≤ power most_rounds → is_settled (goes_rounds g n (before_rounds d)) ≡ true → settles g d ≡ (goes_rounds g n (before_rounds d)).driver }
    ensures most { (g : DriverInput) (d : Driver) → settles g d ≡ (goes_rounds g (power most_rounds) (before_rounds d)).driver }
    ensures round { (g : DriverInput) (n : ℕ) (x : AfterRounds) → is_settled (goes_rounds g n x) ≡ false → goes_rounds g (suc n) x ≡ after_round (goes_rounds g n x) (round g (goes_rounds g n x).driver) }
    ensures turn { (g : DriverInput) (n : ℕ) (d : Driver) → turns_of g (range_with_len 0 (suc n)) d ≡ turn g n (turns_of g (range_with_len 0 n) d) }
    ensures turns { (g : DriverInput) (r n : ℕ) (d : Driver) → turns g r (suc n) d ≡ turn g r (turns g r n d) }
{}
