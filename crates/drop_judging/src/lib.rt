//! What a drop knows of the copies, what it is to do by that, and what its end states and owes.
#![tactic(auto)]

mod evidence;
mod judging;
mod owing;

pub use evidence::{failures, proof};
pub use judging::{LOCK_TIME, Verdict, gather, judge, next, offer, others};
pub use owing::{locked, single};
