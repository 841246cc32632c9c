//! The text of a storm's script.
#![tactic(auto)]

mod draws;
mod lines;
mod script;

pub use script::storm_lines;
