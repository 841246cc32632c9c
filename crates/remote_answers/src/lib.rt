//! The steps of a remote drop that take a frame, or find the connection closed.
#![tactic(auto)]

mod taking;

pub use taking::hear;
