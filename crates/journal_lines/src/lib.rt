//! The lines of a journal but for the first ones of entries: frames, lines that were added, repositories, and changes
//! of the tree.
#![tactic(auto)]

mod added;
mod bodies;
mod frames;
mod order;
mod paths;
mod repos;

pub use added::read_added;
pub use frames::read_frame;
pub use order::{line_may_follow, may_follow};
pub use paths::read_path_line;
pub use repos::{is_new, read_repo_line};
