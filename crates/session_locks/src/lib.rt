//! Holds that a session takes for its client, and guards until it is told to unlock.
#![tactic(auto)]

mod granting;
mod guarding;

pub use guarding::{guarded, lock};
