//! The steps of a get that takes a frame, or finds its connection closed.
#![tactic(auto)]

mod hearing;
mod rejecting;
mod taking;

pub use hearing::hear;
