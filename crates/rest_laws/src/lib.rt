//! Rest: where a driver is settled, no job runs and the run is at rest.
#![tactic(auto)]

mod laws;

pub use laws::{blocks_and_settlings_end_at_rest, drivers_settle, settled_drivers_are_at_rest};
