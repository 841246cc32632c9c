//! The log files of one running repository, and what they set, as data that is carried over its entries.
#![tactic(auto)]

mod branch;
mod files;

pub use files::Files;
