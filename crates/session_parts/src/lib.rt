//! A part that a session asks bytes for, and the bytes that come.
#![tactic(auto)]

mod asking;
mod coming;

pub use coming::{announced, piece, put};
