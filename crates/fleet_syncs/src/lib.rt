//! Syncs: repositories share their logs, and contents are brought where they are wanted and dropped where they are spared. What else
//! lines do to a fleet passes through here.
#![tactic(auto)]

mod carrying;
mod planning;
mod sharing;
mod syncing;

pub use carrying::begin_and_settle;
pub use fleet_keys::{begin, enter, fail_next, place, place_part};
pub use fleet_logs::{compact, merge, set, write};
pub use fleet_turns::{close, crash, settle, take_turns, wait};
pub use syncing::sync;
