//! A get: where it stands, what it has of the table, what it tells a peer, and how it goes on without one.
#![tactic(auto)]

mod asking;
mod getting;
mod losing;
mod saying;
mod sent;
mod sources;

pub use asking::{ask, ask_on, wait_for_data};
pub use getting::{Ending, Getting, Phase, end};
pub use losing::{close, fail_with, give_up, go_on, shut, with_cause};
pub use saying::say;
pub use sent::{Asked, Sent};
pub use sources::next_source;
