//! What a crash does to a repository's ends, sessions, jobs and lock table.
#![tactic(auto)]

mod closing;
mod restarting;

pub use closing::close_all_ends;
pub use restarting::restart;
