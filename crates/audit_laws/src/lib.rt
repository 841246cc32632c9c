//! The laws of audits: what a drop knew whose removal stands in a run is what its job's state tells.
#![tactic(auto)]

mod laws;

pub use laws::{
    orders_are_kept_by_their_frames, orders_tell_their_evidence, removals_take_their_orders,
    removals_tell_their_evidence,
};
