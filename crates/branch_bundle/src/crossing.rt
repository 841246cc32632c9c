//! Which types go from thread to thread.
use crate::fault::BundleFault;
use annex_base::crosses;

fn cross_threads() {
    crosses::<BundleFault>();
}
