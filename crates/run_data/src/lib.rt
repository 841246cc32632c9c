//! The plain data of runs of several repositories: jobs and their outcomes, entries and their log files, rows, set-ups and runs.
#![tactic(auto)]

mod copying;
mod entry;
mod files;
mod job;
mod laws;
mod row;
mod run;

use annex_base::crosses;
pub use entry::{By, Entry, EntryKind, FrameText, FrameView, LogFile};
pub use job::{
    CandidateCause, Cause, Denial, DropRefusal, Job, JobKind, Outcome, Proof, SourceCause,
    SourceFailure, TransferRefusal,
};
pub use laws::{files_have_their_paths, paths_tell_their_kind};
pub use row::{Hold, HoldView, RowView};
pub use run::{RepoView, Run, TreeMark};

/// A run and its parts go from thread to thread.
pub fn cross_threads() {
    crosses::<Run>();
    crosses::<RowView>();
}
