//! Facts of single steps: what a step finds, takes and sends, at the ends of jobs and of sessions.
#![tactic(auto)]

mod jobs;
mod steps;

pub use jobs::running_jobs_stay_the_same;
pub use steps::{
    own_entries_suit_their_ends, steps_find_their_cause, steps_name_their_jobs,
    steps_open_closed_ends, steps_take_what_is_at_hand,
};
