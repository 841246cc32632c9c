//! The transfers of a repository's jobs: which has a step, and what it is told in it.
#![tactic(auto)]

mod job;
mod reach;
mod readiness;

pub use job::TransferJob;
pub use reach::Reach;
pub use readiness::ready;
pub use transfer_worker;
pub use transfer_worker::Worker;
