//! That the types may cross threads.

use crate::action::Action;
use crate::wishes::Wishes;
use annex_base::crosses;

/// These types may be moved to another thread, and shared with one.
fn cross_threads() {
    crosses::<Action>();
    crosses::<Wishes<'_>>();
}
