//! Globs: patterns of paths, and the texts that they match.
#![tactic(auto)]

mod crossing;
mod fault;
mod glob;
mod item;
mod laws;
mod reading;
mod walk;

pub use fault::GlobFault;
pub use glob::Glob;
pub use item::{CharSet, Item};
pub use laws::{globs_are_read, globs_are_unique, tests_are_matches};
