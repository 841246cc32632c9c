//! The one line of a storm, and what it counts of the run of its script.
#![tactic(auto)]

mod counting;
mod jobs;
mod kept;
mod line;
mod slots;

pub use line::storm_line;
