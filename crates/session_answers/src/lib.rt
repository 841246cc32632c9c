//! What a session answers by the row of a key: whether its content is there, and its removal.
#![tactic(auto)]

mod answers;

pub use answers::{check_present, remove, remove_before, time, welcome};
