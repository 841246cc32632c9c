//! The state of a session at a server's end, its steps, and what it lets go of.
#![tactic(auto)]

mod doing;
mod incoming;
mod more;
mod place;
mod state;
mod step;

pub use doing::{Doing, Giving, Taken, Taking, Wanting};
pub use incoming::Incoming;
pub use more::{More, PIECE};
pub use place::{Place, Scene};
pub use state::{SessionState, begin, spend};
pub use step::Step;
