//! The lines of git-annex's log files, read and written exactly.
#![tactic(auto)]

mod crossing;
mod entry;
mod files;
mod group_list;
mod groups;
mod laws;
mod location;
mod number;
mod read;
mod repo;
mod stamps;
mod texts;
mod trust;
mod words;
mod write;

pub use entry::{Entry, LogKind, Topic, Value};
pub use group_list::GroupList;
pub use laws::file_names_are_exact;
pub use read::{lines_are_exact, read_line};
pub use write::{try_write_line, write_line};
