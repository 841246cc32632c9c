//! The rows of one running repository as data, carried over its entries: contents, bars and holds.
#![tactic(auto)]

mod bars;
mod contents;
mod holds;
mod rows;

pub use rows::{RowChange, Rows};
