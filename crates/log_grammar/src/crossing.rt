//! That the types may cross threads.

use crate::entry::{Entry, LogKind, Topic, Value};
use crate::group_list::GroupList;
use annex_base::crosses;

/// These types may be moved to another thread, and shared with one.
fn cross_threads() {
    crosses::<LogKind>();
    crosses::<Topic>();
    crosses::<Value>();
    crosses::<Entry>();
    crosses::<GroupList>();
}
