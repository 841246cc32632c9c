//! The transfer of a job, in either direction, step by step.
#![tactic(auto)]

mod machine;
mod worker;

pub use machine::step;
pub use transfer_turns::{Here, Output, Parcel, ParcelBody, Sends};
pub use worker::{Finished, Worker, end, finish, sends_to};
