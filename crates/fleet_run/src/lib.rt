//! A fleet: the nodes of a script's repositories, driven line by line.
#![tactic(auto)]

mod declaring;
mod fleet;
mod lines;
mod two_steps;

pub use declaring::{memory_keepers, repositories};
pub use fleet::Fleet;
pub use fleet_entries::FleetStop;
