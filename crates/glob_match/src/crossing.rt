//! Globs go from thread to thread.
use crate::{Glob, GlobFault, Item};
use annex_base::crosses;

fn cross_threads() {
    crosses::<Glob>();
    crosses::<GlobFault>();
    crosses::<Item>();
}
