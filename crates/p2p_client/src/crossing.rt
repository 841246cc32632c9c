//! Dialogues go from thread to thread.
use crate::{Answer, Dialog, Request};
use annex_base::crosses;

fn cross_threads() {
    crosses::<Answer>();
    crosses::<Dialog>();
    crosses::<Request>();
}
