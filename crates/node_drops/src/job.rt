//! A drop that runs.
ghost use Rattle.std.specs.Prelude.{◌≡◌};
ghost use Rattle.std.specs.Option.{option_copied};

use crate::known::KnownLogs;
use annex_base::{Items, Text};
use drop_worker::Worker;
use run_data::SourceFailure;
use std::marker::Model;

/// A drop: its worker, the paths that its key had in the tree as it began, what it read of the logs at its first step, and why each
/// source of the transfer before it gave nothing, in order: none but for the drop of a move.
pub struct DropJob {
    pub worker: Worker,
    pub paths: Items<Text>,
    pub known: Option<KnownLogs>,
    pub causes: Items<SourceFailure>,
}

impl Model for DropJob {
    ghost use Rattle.node_drops.specs.Drops.{DropJob};

    ghost Value = { DropJob };

    ghost view = { λ j. record { worker = j.worker; paths = j.paths; known = j.known; causes = j.causes } };
}

impl DropJob {
    pub fn worker(&self) -> &Worker
        ensures { result.now ≡ self.now.worker }
    {
        &self.worker
    }

    /// What it has read, if it is past its first step.
    pub(crate) fn known(&self) -> Option<&KnownLogs>
        ensures { option_copied result ≡ self.now.known }
    {
        self.known.as_ref()
    }
}
