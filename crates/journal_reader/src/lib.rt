//! The run that a journal tells.
#![tactic(auto)]

mod ending;
mod entries;
mod entry;
mod fault;
mod frames;
mod head;
mod lines;
mod set_up;
mod tree;
mod whole;

pub use fault::JournalFault;
pub use whole::read_journal;
