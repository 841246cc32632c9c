//! Blocks of a script whose repositories work side by side, and the runs that a script may then have.
#![tactic(auto)]

mod joins;
mod laws;

pub use joins::{
    blocks_end_at_rest, driven_runs_are_of_their_scripts, histories_kept_alone_are_served,
    lines_lead_on, merged_histories_are_blocks, nodes_make_blocks,
};
pub use laws::{runs_of_scripts_are_runs, stopped_runs_are_runs};
