//! What a remote drop knows of the copies, what it says to a peer, and how it ends.
#![tactic(auto)]

mod asking;
mod ending;
mod knowing;
mod needs;

pub use asking::{order, reads_all, request};
pub use ending::finish;
pub use knowing::{candidates, first_end, locks_end};
pub use needs::needed_remotely;
