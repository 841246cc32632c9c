//! The rules of a run on order and on rows as tests of one entry by the state of its repository, and the row that an entry found.
#![tactic(auto)]

mod found;
mod order;
mod row;

pub use found::row_found;
pub use order::{Moment, has_no_frames, has_no_lines, is_ordered, moment_of, only_waits};
pub use row::{has_row, needs_no_row};
