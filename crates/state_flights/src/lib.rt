//! The frames on their way between the repositories of a run, with the words beside them, carried over its entries.
#![tactic(auto)]

mod flight;
mod flights;
mod opening;
mod table;
mod words;

pub use flights::{Flights, bodies_of};
