//! The verdict on a part whose bytes have come.
#![tactic(auto)]

mod receiving;
mod verdict;

pub use receiving::received;
