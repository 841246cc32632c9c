//! The state of one running repository as data that is carried over its entries.
#![tactic(auto)]

mod clocks;
mod counts;
mod links;
mod place;
mod state;
mod working;

pub use state::RepoState;
