//! The texts of names, jobs and outcomes that reports and journals print.
#![tactic(auto)]

mod job;
mod names;
mod outcome;
mod proof;
mod refusal;
mod transfer;
mod words;

pub use job::{put_begun, put_job, put_key};
pub use names::{put_name, put_name_or_dash, put_names};
pub use outcome::put_outcome;
pub use words::{ItemWords, OwnWords, put_joined, put_number_or_dash};
