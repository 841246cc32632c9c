//! The paths of a key in the tree of a run, found by the key.
#![tactic(auto)]

mod index;
mod laws;

pub use index::PathIndex;
pub use laws::trees_have_all_marks_before;
