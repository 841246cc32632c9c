//! Facts of pasts: lawful ones are safe, those whose entries are as their repositories' own parts have them are lawful, and what a past keeps.
#![tactic(auto)]

mod laws;

pub use laws::{kept_lines_read_as_all, lawful_runs_are_safe};
