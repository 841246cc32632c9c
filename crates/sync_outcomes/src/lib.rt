//! What a sync of a repository has done, and which of its jobs tell how they ended.
#![tactic(auto)]

mod jobs;
mod numbers;

pub use jobs::{SyncJobs, jobs_between, tells_end};
pub use numbers::{SyncNumbers, sync_numbers};
