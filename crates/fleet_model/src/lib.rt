//! A fleet of nodes beside the driver of scripts: when it has done the same, and the laws by which each step keeps it so.
#![tactic(auto)]

mod closing;
mod crashing;
mod laws;
mod stops;

pub use closing::fleets_close;
pub use crashing::fleets_crash;
pub use joined_nodes::{BeginRefused, NodeRefused, Nodes, Turn};
pub use laws::{fleets_begin, fleets_do_lines, fleets_rest, fleets_settle, fleets_take_turns};
pub use stops::fleets_stop_at_full_histories;
