//! The laws of the last copies, which every run of several repositories keeps; and how many copies stand at a place of a run.
#![tactic(auto)]

mod claims;
mod drops;
mod entries;
mod evidence;
mod laws;

pub use claims::{
    claims_are_trusted_items, copies_are_enough_without_claims, least_is_what_drops_read,
    removals_are_of_entries,
};
pub use drops::{
    each_removal_is_one_drops, removals_by_jobs_are_one_drops, removals_by_orders_are_one_drops,
};
pub use entries::copies;
pub use evidence::{
    evidence_is_of_other_repositories, locked_items_are_held, recent_items_were_seen,
    removals_leave_as_many,
};
pub use laws::{
    drops_leave_their_evidence, drops_read_their_need, ignored_never_count,
    never_fewer_than_mincopies, required_content_stays, runs_keep_copies,
};
pub use run_data;
