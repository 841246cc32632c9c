//! What a step for the script, a job or a peer writes into a store, each with the entry that says so: files of the branch, contents and
//! parts.
#![tactic(auto)]

mod changing;
mod indexing;
mod placing;
mod writing;

pub use changing::Change;
pub use indexing::make_index;
pub use placing::{bring, commit};
pub use writing::write_beside;
