//! That the types may cross threads.

use crate::index::Newest;
use crate::statement::Statement;
use annex_base::crosses;

/// These types may be moved to another thread, and shared with one.
fn cross_threads() {
    crosses::<Statement>();
    crosses::<Newest>();
}
