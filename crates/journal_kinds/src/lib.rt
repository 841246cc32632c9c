//! What an entry did, read off the first line of the entry in a journal, behind its repository.
#![tactic(auto)]

mod begun;
mod did;
mod job_kinds;
mod kinds;
mod rows;

pub use begun::Begun;
pub use did::read_did;
