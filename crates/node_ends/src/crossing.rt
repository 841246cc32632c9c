//! Ends, and what is to be sent, go from thread to thread.
use crate::{EndId, Ends, Sending};
use annex_base::crosses;

fn cross_threads() {
    crosses::<EndId>();
    crosses::<Ends>();
    crosses::<Sending>();
}
