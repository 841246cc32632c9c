//! The driver of scripts, as a definition: the run that it makes of the lines of a script; and the laws of such runs.
#![tactic(auto)]

mod laws;
mod limits;
mod merges;
mod steps;
mod turns;

pub use laws::{
    driven_runs_are_runs, ends_are_apart, ends_have_small_numbers, limited_runs_are_runs,
    runs_log_lines, settlings_come_to_rest, sound_drivers_keep_their_jobs,
};
pub use limits::{
    cut_runs_have_a_full_history, runs_are_cut_where_histories_are_full,
    starts_of_steps_stay_sound, steps_add_own_entries,
};
pub use merges::merges_leave_the_union;
pub use run_data;
pub use steps::{drivers_only_add, drivers_stay_sound, only_waits_take_time, settings_are_lines};
pub use turns::{turns_are_found, words_where_unseen};
