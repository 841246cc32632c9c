//! The nodes of a fleet and its run, which gets the entries that calls of a node make.
#![tactic(auto)]

mod answers;
mod running;
mod stop;

pub use fleet_model::{
    BeginRefused, NodeRefused, Nodes, Turn, fleets_begin, fleets_close, fleets_crash,
    fleets_do_lines, fleets_rest, fleets_settle, fleets_stop_at_full_histories, fleets_take_turns,
};
pub use running::Running;
pub use stop::FleetStop;
