//! What came at an end of a connection: that it is closed, or the first frame that waits there.
#![tactic(auto)]

mod body;
mod hearing;

pub use body::heard;
pub use hearing::{Arrival, hear, nothing};
