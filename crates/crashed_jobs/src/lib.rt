//! The jobs that a crash ends: which of them ran before it, and by what refusal each ends.
#![tactic(auto)]

mod asked;
mod drops;
mod outcome;
mod running;

pub use outcome::crashed_outcome;
pub use running::{Running, in_slot, running_jobs};
