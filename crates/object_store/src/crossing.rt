//! Stores in memory, records and faults go from thread to thread.
use crate::{Blocks, HoldRecord, KeeperFault, MemoryKeeper};
use annex_base::crosses;

fn cross_threads() {
    crosses::<Blocks>();
    crosses::<HoldRecord>();
    crosses::<KeeperFault>();
    crosses::<MemoryKeeper>();
}
