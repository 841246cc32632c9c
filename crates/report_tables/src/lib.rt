//! The way along a run: who has which keys at a place, and the branches and rows there.
#![tactic(auto)]

mod bars;
mod branches;
mod clock;
mod contents;
mod holds;
mod rows;
mod sets;
mod walk;

pub use walk::Walk;
