//! A transfer that runs.
use annex_base::{Items, Text};
use transfer_worker::Worker;

/// A transfer: its worker, and the paths that its key had in the tree as its job began, which the drop of a move needs.
pub struct TransferJob {
    pub worker: Worker,
    pub paths: Items<Text>,
}
