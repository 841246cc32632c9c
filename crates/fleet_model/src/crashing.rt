//! The law of fleets of which a node crashes. It is the contract of a function that does nothing.
ghost use Rattle.std.specs.Prelude.{◌<◌, ◌≤◌, ◌^◌, ℕ};
ghost use Rattle.joined_nodes.specs.Crashing.{Crashes};
ghost use Rattle.joined_nodes.specs.Nodes.{NodeView, told_of};
ghost use Rattle.joined_nodes.specs.Stored.{StoreView};
ghost use Rattle.driver_model.specs.Driver.{Driver, DriverInput};
ghost use Rattle.driver_model.specs.ScriptSteps.{crashes};
ghost use Rattle.driver_model.specs.Sound.{StaysSound};
ghost use Rattle.fleet_model.specs.Fleets.{FleetView, HasCome};
ghost use Rattle.fleet_model.specs.Steps.{OneTurns, with_newest};
ghost use Rattle.fleet_model.specs.Turns.{StandsWell};

use growth_laws::jobs_keep_their_paths;
use link_flights::{
    heard_words_are_told, steps_send_in_order, turns_keep_all_ends, words_stay_with_frames,
};
use node_ends::ends_are_there;
use run_laws::carried_states_agree;

/// A fleet that has come to where the driver is comes to where the driver is after a crash, once a node, told of the newest entry,
/// crashed, with its clock set to this, and frames were carried between it and all others (own).
pub fn fleets_crash<K>()
    ensures { (tells : K → StoreView) (g : DriverInput) (d : Driver) (r clock : ℕ) (n m : NodeView K) (was after : FleetView K)
        → HasCome tells g d was → OneTurns r n m was after → StandsWell g d r n
        → Crashes (told_of (tells n.keeper).contents (tells n.keeper).parts) clock (with_newest d n) m → clock ≤ 100000000000
        → m.time ≤ 1000000000000 → m.count < 2 ^ 62 → StaysSound g d (crashes g r clock d) → HasCome tells g (crashes g r clock d) after }
{
    // A law: a node's state agrees with the driver's.
    carried_states_agree();
    // Laws: each end that is listed is at another repository; the Closes of a crash are what the ends send next, and leave all ends as the
    // flights tell, where frames are carried.
    ends_are_there();
    steps_send_in_order();
    turns_keep_all_ends();
    // Laws: the words beside frames, and those that jobs were told, stay those of the past, and so do the paths of jobs.
    words_stay_with_frames();
    heard_words_are_told();
    jobs_keep_their_paths();
}
