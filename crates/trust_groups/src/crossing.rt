//! That the types may cross threads.

use crate::levels::Levels;
use crate::settings::Settings;
use annex_base::crosses;

/// These types may be moved to another thread, and shared with one.
fn cross_threads() {
    crosses::<Levels>();
    crosses::<Settings>();
}
