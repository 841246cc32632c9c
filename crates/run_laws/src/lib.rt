//! The laws of runs that repositories make: they are lawful and safe, and what their jobs hear, send and keep.
#![tactic(auto)]

mod jobs;
mod laws;
mod steps;

pub use jobs::{frames_go_to_others, jobs_hear_nobody_twice, kept_words_were_asked};
pub use laws::{runs_are_lawful, runs_are_safe};
pub use step_facts::steps_find_their_cause;
pub use steps::{carried_states_agree, states_are_sound};
