//! What the lines of git-annex's log files say together: the newest entry of each topic, compaction, the next stamp. The
//! lines themselves are those of `log_grammar`.
#![tactic(auto)]

mod compaction;
mod compare;
mod crossing;
pub mod entry;
mod index;
mod laws;
mod one_topic;
mod reading;
mod stamping;
mod statement;

pub use compaction::{compact, has_outdated};
pub use entry::{Entry, LogKind, Topic, Value};
pub use index::Newest;
pub use laws::{
    compaction_keeps_the_reading, entries_are_found_by_topic, next_entries_are_read,
    order_is_total, readings_are_exact, readings_depend_on_the_set,
};
pub use log_grammar::{
    GroupList, file_names_are_exact, lines_are_exact, read_line, try_write_line, write_line,
};
pub use one_topic::newest_of;
pub use reading::newest;
pub use stamping::next_stamp;
pub use statement::Statement;
