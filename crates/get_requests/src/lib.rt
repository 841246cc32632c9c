//! The steps of a get that take no frame.
#![tactic(auto)]

mod acting;

pub use acting::act;
