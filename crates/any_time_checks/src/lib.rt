//! The entries that a repository may make at any point of a run, told of by its state: what the script begins, adds, closes or lets
//! crash.
#![tactic(auto)]

mod closing;
mod coming;
mod files;

pub use coming::comes;
