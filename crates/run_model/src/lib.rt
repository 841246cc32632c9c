//! Runs of several repositories, as definitions: pasts, frames and their senders, evidence, removals, safety, causes of refusals.
#![tactic(auto)]

mod laws;

pub use laws::{others_change_nothing, syncs_count_each_end_once};
pub use run_data;
