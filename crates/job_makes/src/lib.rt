//! What the step of a job reads and makes, whatever the job is: by the data of its repository's state, told of an entry.
#![tactic(auto)]

mod calls;
mod ending;
mod saying;
mod turn;
mod words;

pub use turn::Turn;
