//! The verdict on a part of a get whose bytes have come.
#![tactic(auto)]

mod verdict;

pub use verdict::right_size;
