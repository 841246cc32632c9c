//! The proof of a drop: what other repositories said of a content, and whether that is enough to drop a copy of it.
#![tactic(auto)]

mod evidence;
mod expiry;
mod rule;

use annex_base::crosses;
pub use evidence::{Evidence, Kind};
pub use expiry::{Expired, deadline};
pub use rule::{Judged, Need, Side, judge};

/// These types go from thread to thread.
fn cross_threads() {
    crosses::<Kind>();
    crosses::<Evidence>();
    crosses::<Need>();
    crosses::<Side>();
    crosses::<Judged>();
    crosses::<Expired>();
}
