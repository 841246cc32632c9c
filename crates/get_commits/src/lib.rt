//! The part of a get becomes the content, or is dropped.
#![tactic(auto)]

mod judging;

pub use judging::verify;
