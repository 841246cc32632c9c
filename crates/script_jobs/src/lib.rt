//! The lines of a script that run jobs, put contents, and let repositories act.
#![tactic(auto)]

mod actions;
mod contents;
mod jobs;

pub use actions::{compact, merge, settle, sync, turn, wait};
pub use contents::{add, damage, file, have, part};
pub use jobs::{begin, read_alone, read_block_line};
