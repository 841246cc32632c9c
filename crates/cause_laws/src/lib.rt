//! The law of causes: each drop and each transfer of a run that was refused has its cause there.
#![tactic(auto)]

mod laws;

pub use laws::{own_causes_are_of_the_row, refusals_have_causes};
