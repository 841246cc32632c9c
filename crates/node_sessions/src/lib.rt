//! The sessions of a repository: which has a step, and what it makes.
#![tactic(auto)]

mod answer;
mod beginning;
mod crossing;
mod ending;
mod giving;
mod laws;
mod room;
mod served;
mod serving;
mod sessions;
mod turn;
mod words;

pub use laws::{
    looks_see_parts, sessions_and_jobs_fill, sessions_entries_are_no_jobs,
    sessions_make_their_own_entries, sessions_of_closed_ends_are_new, sessions_stay,
};
pub use served::Served;
pub use sessions::Sessions;
