//! A repository that knows its own state and the frames that reach it, and nothing else: what a script does to it directly.
#![tactic(auto)]

mod beginning;
mod carrying;
mod closing;
mod compacting;
mod crashing;
mod logs;
mod merging;
mod node;
mod placing;
mod turn;

pub use beginning::BeginRefused;
pub use carrying::carry_nodes;
pub use crashing::ReadyNode;
pub use node::Node;
pub use node_past::{Ended, NodeRefused, Setup};
pub use turn::Turn;
