//! Digesters, sums and verdicts go from thread to thread.
use crate::{Digest, Digester, Method, Sum, Verdict};
use annex_base::crosses;

fn cross_threads() {
    crosses::<Digest>();
    crosses::<Digester>();
    crosses::<Method>();
    crosses::<Sum>();
    crosses::<Verdict>();
}
