//! Sessions and what they serve go from thread to thread.
use crate::{Served, Sessions};
use annex_base::crosses;

fn cross_threads() {
    crosses::<Served>();
    crosses::<Sessions>();
}
