//! What a repository reads off its branch's files before it adds to them: lines that a file lacks or keeps, and lines of new entries.
#![tactic(auto)]

mod lines;
mod stamped;

pub use lines::{
    current_lines, if_new, lines_of, listed, new_lines, paths_of, same_lines, set_of_line,
};
pub use stamped::{line_at, log_of, status_line};
