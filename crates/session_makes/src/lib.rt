//! Whether an entry is what the session of its frame makes, by the state of its repository.
#![tactic(auto)]

mod answers;
mod calls;
mod fills;
mod messages;
mod pieces;
mod replies;
mod requests;
mod scene;
mod served;

pub use fills::is_filled;
pub use served::session_told;
