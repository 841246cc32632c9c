//! The sessions of one running repository as a server, as data that is carried over its entries.
#![tactic(auto)]

mod doing;
mod heard;
mod sending;
mod sessions;
mod table;

pub use doing::{Doing, Session};
pub use heard::Heard;
pub use sessions::Sessions;
