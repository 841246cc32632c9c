//! A content that a session sends: what is asked for, its pieces, and the client's word on it.
#![tactic(auto)]

mod asked;
mod given;
mod pieces;

pub use given::{get, judged, sent};
pub use pieces::next_of;
