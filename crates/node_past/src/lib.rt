//! What a repository has done: its entries, what its next one is made of, and why a call of it was refused.
#![tactic(auto)]

mod entries;
mod past;
mod refused;
mod setup;

pub use past::Past;
pub use refused::NodeRefused;
pub use setup::{Ended, SetClock, Setup};
