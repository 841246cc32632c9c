//! The nodes of a run, each two of which are joined.
#![tactic(auto)]

mod calls;
mod carrying;
mod laws;
mod making;
mod nodes;
mod repos;

pub use nodes::Nodes;
pub use repo_node::{BeginRefused, NodeRefused, Turn};
pub use repos::may_run;
