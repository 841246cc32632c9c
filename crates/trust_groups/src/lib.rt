//! What a branch sets: trust, numbers of copies, groups, texts, and which repositories are claimed to have a key.
#![tactic(auto)]

mod claims;
mod copies;
mod crossing;
mod exprs;
mod files;
mod groups;
mod indices;
mod laws;
mod levels;
mod numbers;
mod patterns;
mod settings;
mod values;

pub use claims::claims_of;
pub use copies::{mincopies_of, numcopies_of};
pub use groups::{groups_of, level_of};
pub use laws::{
    claims_are_exact, equal_lines_read_alike, grouped_are_exact, merges_read_alike,
    settings_are_those_of_the_lines_read, some_copies_are_wanted,
};
pub use levels::Levels;
pub use settings::Settings;
