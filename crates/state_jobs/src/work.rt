//! One running job.
ghost use Rattle.std.specs.Prelude.{◌≡◌};
ghost use Rattle.node_model.specs.Jobs.{drop_side, target_of};
ghost use Rattle.state_jobs.specs.Works.{work_of};

use crate::phase::{Heard, Part, Phase};
use drop_proof::Side;
use run_data::{Job, JobKind, SourceFailure};

/// A running job: its number, its slot and what it is, what it is at and where it stands in that, whether it fills its key, what
/// its peer answered to VERSION, what it heard of copies, the oldest first, and why its sources gave it nothing (own).
#[derive(Drop)]
pub struct Work {
    pub number: u32,
    pub slot: u32,
    pub what: Job,
    pub part: Part,
    pub phase: Phase,
    pub fills: bool,
    pub version: u64,
    pub heard: Vec<(u32, Heard)>,
    pub causes: Vec<SourceFailure>,
}

impl Work {
    /// Where its drop removes.
    pub(crate) fn side(&self) -> Side
        ensures { result ≡ drop_side self.now.what.kind self.now.what.peer }
    {
        match (self.what.kind, self.what.peer) {
            (JobKind::Drop, None) | (JobKind::MoveTo, _) => Side::Local,
            _ => Side::Remote,
        }
    }

    /// The target of its drop, where this is its repository.
    pub(crate) fn target(&self, repo: u32) -> u32
        ensures { result ≡ target_of repo (work_of self.now) }
    {
        match (self.side(), self.what.peer) {
            (Side::Remote, Some(peer)) => peer,
            _ => repo,
        }
    }
}
