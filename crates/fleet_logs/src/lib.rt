//! Lines that a script lets the nodes of a fleet write into their logs, and what it does with whole branches.
#![tactic(auto)]

mod logs;
mod settings;

pub use logs::{compact, merge, write};
pub use settings::set;
