//! The ends of a repository's connections: how each stands, what waits at it, and what is sent at it.
#![tactic(auto)]

mod carrying;
mod crossing;
mod ends;
mod laws;
mod name;
mod places;
mod sending;
mod single;

pub use carrying::carry_ends;
pub use ends::Ends;
pub use laws::{
    dropped_frames_change_no_end, ends_are_there, ends_begin_closed, ends_go_on, ends_stay_joined,
    frames_wait_at_ends, room_permits_frames,
};
pub use name::EndId;
pub use sending::Sending;
