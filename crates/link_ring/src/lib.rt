//! Connections between repositories: at each end the frames that came, and those that are on their way.
#![tactic(auto)]

mod crossing;
mod end;
mod frame;
mod laws;
mod links;

pub use end::{End, Phase, carry};
pub use frame::{Body, Frame};
pub use laws::{ends_stay_paired, frames_keep_their_order};
pub use links::{Links, end_place, make_links};
