//! Which types go from thread to thread.
use crate::branch::Branch;
use crate::line_set::LineSet;
use annex_base::crosses;

fn cross_threads() {
    crosses::<LineSet>();
    crosses::<Branch>();
}
