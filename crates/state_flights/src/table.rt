//! The frames on their way in one direction, by opening.
ghost use Rattle.std.specs.Prelude.{◌≡◌, ◌<◌, ◌≤◌, ◌+◌, ◌∷◌, [], true, if◌then◌else◌, OnOk};
ghost use Rattle.indexmap.specs.IndexMap.{spare};
ghost use Rattle.step_judging.specs.Carried.{first_word, flight_sent, flight_took, is_first};
ghost use Rattle.state_flights.specs.Tables.{flight_at, flight_of, no_flight, room_at, room_of, waiting_frame};
ghost use Rattle.state_flights.specs.Ways.{same_opening};
ghost use Rattle.state_flights.specs.declared.opening.Opening.{Opening};

use crate::flight::{Flight, Waiting};
use crate::opening::Opening;
use annex_base::{NoMemory, Word};
use indexmap::IndexMap;
use run_data::FrameView;
use std::alloc::Global;

/// Whether the frame is the one that may be taken next of those of this opening.
pub(crate) fn is_next(table: &IndexMap<Opening, Flight>, at: Opening, frame: &FrameView) -> bool
    ensures { result ≡ is_first (flight_at table.now.entries at).waiting (flight_at table.now.entries at).taken frame.now }
{
    match table.get(&at) {
        Some(flight) => flight.is_next(frame),
        None => false,
    }
}

/// The word beside that one.
pub(crate) fn word(table: &IndexMap<Opening, Flight>, at: Opening) -> Option<Word>
    ensures { result ≡ first_word (flight_at table.now.entries at).waiting }
{
    match table.get(&at) {
        Some(flight) => flight.word(),
        None => None,
    }
}

/// Takes the frames of an opening out of the table; there are none where it isn't listed.
fn take_out(table: &mut IndexMap<Opening, Flight>, alloc: Global, at: Opening) -> Flight
    ensures value { flight_of result ≡ flight_at table.old.entries at }
    ensures out { (other : Opening) → flight_at table.new.entries other ≡ (if same_opening at other then no_flight else flight_at table.old.entries other) }
    ensures had { room_at table.old.entries at ≤ room_of result }
    ensures others { (other : Opening) → room_at table.new.entries other ≡ (if same_opening at other then 0 else room_at table.old.entries other) }
    ensures room { spare table.old ≤ spare table.new }
{
    match table.swap_remove(&at) {
        Some(flight) => flight,
        None => Flight::new(alloc),
    }
}

fn put(table: &mut IndexMap<Opening, Flight>, at: Opening, flight: Flight)
    requires { 0 < spare table.old }
    ensures flight { (other : Opening) → flight_at table.new.entries other ≡ (if same_opening at other then flight_of flight else flight_at table.old.entries other) }
    ensures frames { (other : Opening) → room_at table.new.entries other ≡ (if same_opening at other then room_of flight else room_at table.old.entries other) }
    ensures room { spare table.old ≤ spare table.new + 1 }
{
    table.insert(at, flight).unwrap();
}

/// The next frame of an opening is taken, which has this number.
pub(crate) fn take(table: &mut IndexMap<Opening, Flight>, alloc: Global, at: Opening, seq: u64)
    requires room { 0 < spare table.old }
    requires next { seq ≡ (flight_at table.old.entries at).taken + 1 }
    ensures flight { (other : Opening) → flight_at table.new.entries other ≡ flight_took (same_opening at other) (flight_at table.old.entries other) }
    ensures frames { (other : Opening) → room_at table.old.entries other ≤ room_at table.new.entries other }
    ensures room { spare table.old ≤ spare table.new + 1 }
{
    let mut flight = take_out(table, alloc, at);
    flight.take(seq);
    put(table, at, flight);
}

/// One more frame of an opening is sent.
pub(crate) fn push(
    table: &mut IndexMap<Opening, Flight>,
    alloc: Global,
    at: Opening,
    waiting: Waiting,
)
    requires room { 0 < spare table.old }
    requires frame { 0 < room_at table.old.entries at }
    ensures flight { (other : Opening) → flight_at table.new.entries other ≡ flight_sent (same_opening at other) (waiting_frame waiting ∷ []) (flight_at table.old.entries other) }
    ensures frames { (other : Opening) → room_at table.old.entries other ≤ room_at table.new.entries other + 1 }
    ensures room { spare table.old ≤ spare table.new + 1 }
{
    let mut flight = take_out(table, alloc, at);
    flight.push(waiting);
    put(table, at, flight);
}

/// Makes room for so many frames more of an opening. The frames stay.
pub(crate) fn reserve(
    table: &mut IndexMap<Opening, Flight>,
    alloc: Global,
    at: Opening,
    count: usize,
) -> Result<(), NoMemory>
    ensures room { OnOk result (count ≤ room_at table.new.entries at) }
    ensures more { (other : Opening) → room_at table.old.entries other ≤ room_at table.new.entries other }
    ensures same { (other : Opening) → flight_at table.new.entries other ≡ flight_at table.old.entries other }
{
    table.reserve(1)?;
    let mut flight = take_out(table, alloc, at);
    let reserved = flight.reserve(count);
    put(table, at, flight);
    reserved
}
