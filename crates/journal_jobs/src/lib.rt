//! Jobs and how they ended, read off the lines of a journal.
#![tactic(auto)]

mod causes;
mod done;
mod job;
mod outcome;
mod proof;
mod refusal;
mod transfer;
mod words;

pub use job::read_job;
pub use outcome::read_outcome;
