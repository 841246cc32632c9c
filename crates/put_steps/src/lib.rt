//! The steps of a copy, and of the transfer of a move to a peer.
#![tactic(auto)]

mod acting;
mod hearing;
mod phase;
mod putting;
mod saying;
mod sending;

pub use acting::act;
pub use hearing::hear;
pub use phase::{Ending, Phase, Sending};
pub use putting::Putting;
