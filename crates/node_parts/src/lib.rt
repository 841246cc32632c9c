//! The moving parts of a repository: its lock table, its ends, its sessions and its running jobs, over one store.
#![tactic(auto)]

mod acting;
mod closing;
mod crashing;
mod done;
mod drop_frames;
mod jobs;
mod laws;
mod moment;
mod parts;
mod sending;
mod serving;
mod taking;
mod transfer_frames;

pub use done::Done;
pub use drop_phases::{Phase, Token};
pub use laws::{
    direct_entries_leave_rows, parts_stay, parts_stay_fed, states_have_their_settings,
    tables_fill_as_states,
};
pub use moment::Moment;
pub use node_sessions::sessions_make_their_own_entries;
pub use parts::Parts;
pub use running_jobs::{BeginRefused, Clock, Time};
