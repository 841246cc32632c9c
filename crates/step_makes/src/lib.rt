//! Whether an entry is the step that a repository makes, by the data of its state.
#![tactic(auto)]

mod drops;
mod endings;
mod forcing;
mod known;
mod owing;
mod slots;
mod steps;
mod taking;
mod telling;
mod turns;

pub use telling::told;
