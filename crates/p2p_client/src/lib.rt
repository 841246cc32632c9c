//! The client's side of the P2P protocol: what it asks, and which answers it takes.
#![tactic(auto)]

mod crossing;
mod dialog;

pub use dialog::{Answer, Awaited, Dialog, Request, Took};
