//! What a script does with keys: paths that name them, contents and parts that nodes get, and jobs that begin.
#![tactic(auto)]

mod contents;
mod jobs;
mod naming;

pub use contents::{fail_next, place, place_part};
pub use jobs::begin;
pub use naming::enter;
