//! Turns of the nodes of a fleet, rounds of turns until all are idle, ends that are closed, crashes, and time that passes.
#![tactic(auto)]

mod closing;
mod crashing;
mod settling;
mod waiting;

pub use closing::close;
pub use crashing::crash;
pub use settling::{settle, take_turns};
pub use waiting::wait;
