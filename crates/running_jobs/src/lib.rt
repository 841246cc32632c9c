//! The running jobs of a repository, drops and transfers alike: where each stands, and the first that has a step.
#![tactic(auto)]

mod acted;
mod finding;
mod jobs;
mod laws;
mod listing;
mod refused;
mod starting;
mod turning;

pub use acted::Acted;
pub use jobs::Jobs;
pub use laws::{
    jobs_fill, jobs_make_their_own_entries, jobs_see_parts, jobs_send_where_there_is_room,
    jobs_stay, jobs_stay_where_lines_fail, nameless_are_asked,
};
pub use node_tasks::{Clock, Place, Sent, Time};
pub use refused::BeginRefused;
