//! The steps of a remote drop that take no frame.
#![tactic(auto)]

mod acting;

pub use acting::act;
