//! What came of a script's run.

use run_data::Run;

/// The greatest number of entries that a repository makes.
pub const ENTRY_LIMIT: u64 = 100_000;

/// The run of a script, and whether it ended where a line met a full history (own).
#[derive(Drop)]
pub struct Ran {
    pub run: Run,
    pub is_cut: bool,
}
