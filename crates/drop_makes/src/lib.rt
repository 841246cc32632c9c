//! Whether an entry tells of the step of a drop: what the drop knows, its first step, its requests, its answers and its end.
#![tactic(auto)]

mod answers;
mod asking;
mod candidates;
mod ending;
mod first;
mod gathering;
mod item;
mod knowing;
mod laws;
mod outcome;

pub use ending::denied;
pub use knowing::Knowing;
pub use laws::readings_are_kept;
