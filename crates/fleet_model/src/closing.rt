//! The law of fleets that close ends of connections. It is the contract of a function that does nothing.
ghost use Rattle.std.specs.Prelude.{◌≡◌, ◌<◌, ◌≤◌, ◌^◌, ℕ, true, false, slice_get, Some};
ghost use Rattle.joined_nodes.specs.Closing as closings;
ghost use Rattle.joined_nodes.specs.Closing.{ClosesEach, ends_to};
ghost use Rattle.joined_nodes.specs.Joined.{AreNodes};
ghost use Rattle.joined_nodes.specs.Nodes.{NodeView, state_of, told_of};
ghost use Rattle.joined_nodes.specs.Parts.{AreParts};
ghost use Rattle.joined_nodes.specs.Stored.{StoreView};
ghost use Rattle.driver_model.specs.Driver.{Driver, DriverInput, set_up_of};
ghost use Rattle.driver_model.specs.Scripts.{IsOther};
ghost use Rattle.driver_model.specs.ScriptSteps.{closes, lacks_places};
ghost use Rattle.driver_model.specs.Sound.{StaysSound};
ghost use Rattle.fleet_model.specs.Fleets.{FleetView, HasCome};
ghost use Rattle.fleet_model.specs.Steps.{OneTurns, with_newest};
ghost use Rattle.fleet_model.specs.Turns.{StandsWell};

use growth_laws::jobs_keep_their_paths;
use link_flights::{
    ends_in_flight_are_carried, heard_words_are_told, steps_send_in_order, turns_keep_all_ends,
    words_stay_with_frames,
};
use node_ends::ends_are_there;
use run_laws::carried_states_agree;

/// A fleet that has come to where the driver is comes to where the driver is after a close, once a node, told of the newest entry, closed
/// its ends of the connections with another, and frames were carried between it and all others. A node lacks places for that exactly
/// where its repository does, and then the driver closes none (own).
pub fn fleets_close<K>()
    ensures closes { (tells : K → StoreView) (g : DriverInput) (d : Driver) (r other : ℕ) (n m : NodeView K) (was after : FleetView K)
        → HasCome tells g d was → OneTurns r n m was after → AreNodes was.nodes → StandsWell g d r n → IsOther g r other → closings.lacks_places n other ≡ false
        → ClosesEach (told_of (tells n.keeper).contents (tells n.keeper).parts) (ends_to other) (with_newest d n) m
        → m.time ≤ 1000000000000 → m.count < 2 ^ 62 → StaysSound g d (closes g r other d) → HasCome tells g (closes g r other d) after }
    ensures places { (tells : K → StoreView) (g : DriverInput) (d : Driver) (r other : ℕ) (n : NodeView K) (was : FleetView K) → HasCome tells g d was → slice_get was.nodes r ≡ Some n
        → AreParts (set_up_of g d r) (state_of (set_up_of g d r) n.history) n.parts → IsOther g r other → lacks_places d.past r other ≡ closings.lacks_places n other }
    ensures none { (tells : K → StoreView) (g : DriverInput) (d : Driver) (r other : ℕ) (n : NodeView K) (was : FleetView K) → HasCome tells g d was → slice_get was.nodes r ≡ Some n
        → AreParts (set_up_of g d r) (state_of (set_up_of g d r) n.history) n.parts → IsOther g r other → closings.lacks_places n other ≡ true
        → (lacks_places d.past r other ≡ true) × (closes g r other d ≡ d) }
{
    // A law: a node's state agrees with the driver's.
    carried_states_agree();
    // Laws: all ends are listed; a Close is what an end sends next, and leaves all ends as the flights tell, where frames are carried.
    ends_are_there();
    steps_send_in_order();
    turns_keep_all_ends();
    ends_in_flight_are_carried();
    // Laws: the words beside frames, and those that jobs were told, stay those of the past, and so do the paths of jobs.
    words_stay_with_frames();
    heard_words_are_told();
    jobs_keep_their_paths();
}
