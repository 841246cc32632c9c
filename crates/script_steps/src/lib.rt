//! The steps by which a line is read: its words one by one, and its rest.
#![tactic(auto)]

mod rests;
mod steps;
mod verify;

pub use rests::{full_rest, glob, groups, rest, short, text};
pub use steps::{
    call, clock, content, end, file, group, key, level, locks, log_file, matching, maybe_from,
    maybe_path, missing, new_id, new_name, next_word, number, offset, other, path, placed_key,
    repo, target, to, tree_path, turns, version, way, wrong, wrong_form, wrong_word,
};
pub use verify::{is_large, key_for, may_have};
