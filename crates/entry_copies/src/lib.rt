//! Copies of entries, which their runs get from the nodes that made them.
#![tactic(auto)]

mod entry;
mod frame;
mod kind;
mod outcome;

pub use entry::entry_copy;
