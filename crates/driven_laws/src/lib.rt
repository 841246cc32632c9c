//! The laws of the last copies and of causes, for the runs that the driver makes of scripts.
#![tactic(auto)]

mod laws;

pub use laws::{driven_runs_are_safe, limited_runs_are_safe};
