//! The laws of the last copy where nobody is trusted: once a content came, a copy of it stays.
#![tactic(auto)]

mod copies;
mod scripts;
mod storms;

pub use copies::{
    a_copy_stays_where_no_drop_counts_trust, a_copy_stays_where_nobody_is_trusted,
    contents_that_came_are_copies, no_drop_counts_trust_where_nobody_is_trusted,
};
pub use scripts::{
    all_contents_put_first_keep_a_copy, contents_put_first_keep_a_copy,
    scripts_keep_a_copy_where_nobody_is_trusted, scripts_trust_only_by_their_lines,
};
pub use storms::storms_keep_all_their_keys;
