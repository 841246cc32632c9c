//! The laws by which runs grow, and histories merge into a run.
#![tactic(auto)]

mod growth;

pub use growth::{
    histories_of_nodes_are_runs, jobs_keep_their_paths, merged_histories_are_runs, runs_grow,
};
