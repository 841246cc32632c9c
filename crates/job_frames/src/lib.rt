//! The frames of a job's step, whatever the job is: where it takes one and where it sends some, and that the entry is its own.
#![tactic(auto)]

mod laws;

pub use laws::{jobs_make_their_own_entries, jobs_send_where_there_is_room, jobs_take_at_room};
