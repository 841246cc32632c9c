//! The step of a node, of its ledger and of the parts beside it: a line that is owed, or the step of a session, or else of a job.
#![tactic(auto)]

mod closing;
mod crashing;
mod entering;
mod laws;
mod stepping;

pub use closing::close_ends;
pub use crashing::{Room, crash, make_ready};
pub use laws::direct_entries_keep_parts;
pub use node_parts::{BeginRefused, Parts, parts_stay_fed, tables_fill_as_states};
pub use stepping::{is_ready, step};
