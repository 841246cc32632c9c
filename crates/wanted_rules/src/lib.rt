//! What repositories want and require, and what a repository is to do so that each has what it wants.
#![tactic(auto)]

mod action;
mod crossing;
mod facts;
mod group_exprs;
mod groups;
mod laws;
mod wishes;

pub use action::Action;
pub use laws::equal_lines_plan_alike;
pub use wishes::Wishes;
