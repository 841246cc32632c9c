//! The running jobs of one repository, as data that is carried over its entries.
#![tactic(auto)]

mod jobs;
mod listing;

pub use jobs::{JobChange, Jobs};
pub use listing::job_of;
