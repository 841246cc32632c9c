//! How a job goes on.
ghost use Rattle.std.specs.Prelude.{◌≡◌, ℕ};
ghost use Rattle.node_model.specs.Jobs.{after_transfer, closed_part, fails_with, hears, to_phase};
ghost use Rattle.state_jobs.specs.Phases.{IsBelow, ending_of, heard_of, part_of, phase_of};
ghost use Rattle.state_jobs.specs.Works.{HasRoom, work_of};

use crate::phase::{Ending, Heard, Part, Phase, is_move, is_ordered};
use crate::work::Work;
use run_data::{Cause, SourceCause, SourceFailure};

impl Work {
    pub(crate) fn to_phase(&mut self, phase: Phase)
        ensures work { work_of self.new ≡ to_phase (work_of self.old) (phase_of phase) }
        ensures phase { self.new.phase ≡ phase }
    {
        self.phase = phase;
    }

    /// It heard this of a repository's copy.
    pub(crate) fn hears(&mut self, repo: u32, heard: Heard)
        requires { HasRoom self.old }
        ensures work { work_of self.new ≡ hears (work_of self.old) repo (heard_of heard) }
        ensures small { (limit : ℕ) → IsBelow limit self.old.phase → IsBelow limit self.new.phase }
    {
        self.heard.push_reserved((repo, heard));
        self.phase = Phase::Next;
    }

    /// A peer gave a get nothing.
    pub(crate) fn fails_with(&mut self, repo: u32, cause: SourceCause)
        requires { HasRoom self.old }
        ensures work { work_of self.new ≡ fails_with (work_of self.old) repo cause }
        ensures small { (limit : ℕ) → IsBelow limit self.old.phase → IsBelow limit self.new.phase }
    {
        self.causes.push_reserved(SourceFailure { repo, cause });
        self.phase = Phase::Next;
    }

    /// The transfer is done: a move begins its drop, any other job ends so.
    pub(crate) fn after_transfer(&mut self, ending: Ending)
        ensures work { work_of self.new ≡ after_transfer (work_of self.old) (ending_of ending) }
        ensures small { (limit : ℕ) → IsBelow limit self.old.phase → IsBelow limit self.new.phase }
    {
        self.fills = false;
        if is_move(self.what.kind) {
            self.part = Part::Drops;
            self.phase = Phase::Fresh;
        } else {
            self.phase = Phase::Ends(ending);
        }
    }

    /// The connection on which it stands is closed.
    pub(crate) fn closed(&mut self, repo: u32, peer: u32)
        requires { HasRoom self.old }
        ensures work { work_of self.new ≡ closed_part repo (work_of self.old) peer (part_of self.old.part) }
        ensures small { (limit : ℕ) → IsBelow limit self.old.phase → IsBelow limit self.new.phase }
    {
        match self.part {
            Part::Gets => self.fails_with(peer, SourceCause::Closed),
            Part::Puts => self.to_phase(Phase::Ends(Ending::Closed)),
            Part::Drops => self.closed_drop(repo, peer),
        }
    }

    fn closed_drop(&mut self, repo: u32, peer: u32)
        requires { HasRoom self.old }
        ensures work { work_of self.new ≡ closed_part repo (work_of self.old) peer (part_of Part.Drops) }
        ensures small { (limit : ℕ) → IsBelow limit self.old.phase → IsBelow limit self.new.phase }
    {
        if self.target(repo) == peer {
            let ordered = is_ordered(self.phase);
            self.to_phase(Phase::Ends(Ending::Lost { ordered }));
        } else {
            self.hears(peer, Heard::Lacks(Cause::Closed));
        }
    }
}
