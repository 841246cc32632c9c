//! The server's side of a connection: a session that answers by the rows of its repository.
#![tactic(auto)]

mod hearing;
mod laws;
mod session;

pub use laws::{others_leave_it, replies_are_short_lines};
pub use session::Session;
pub use session_state::{Doing, Incoming, More, Place, Step, Taken, Taking};
