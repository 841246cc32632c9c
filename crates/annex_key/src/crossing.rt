//! Keys, faults and trees go from thread to thread.
use crate::{Key, KeyFault, Tree};
use annex_base::crosses;

fn cross_threads() {
    crosses::<Key>();
    crosses::<KeyFault>();
    crosses::<Tree>();
}
