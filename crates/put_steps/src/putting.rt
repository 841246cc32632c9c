//! A copy of a job.
ghost use Rattle.std.specs.Prelude.{◌≡◌, [], false, Some, None, if◌then◌else◌};
ghost use Rattle.run_data.specs.declared.entry.By.TheVariants.{Job as by_job};
ghost use Rattle.node_model.specs.Jobs.{is_move, partner};
ghost use Rattle.node_model.specs.Rows.{option_is};
ghost use Rattle.transfer_turns.specs.Turns.{awaited, output_of};
ghost use Rattle.put_steps.specs.Puts.{phase_of, work_of};
ghost use Rattle.put_steps.specs.Stepping.{Told};

use crate::phase::{Ending, Phase};
use annex_base::Call;
use annex_key::Key;
use run_data::{EntryKind, Job, JobKind};
use std::alloc::Global;
use transfer_turns::{Output, done, failing, quietly, talk};

/// The copy of a job, or the transfer of a move to a peer: the job's number and slot, the job, and what its peer answered
/// to VERSION (3 where it wasn't asked).
#[derive(Drop)]
pub struct Putting {
    pub number: u32,
    pub slot: u32,
    pub job: Job,
    pub version: u64,
    pub phase: Phase,
}

impl Putting {
    /// The copy of a job that begins.
    pub fn start(number: u32, slot: u32, job: Job) -> Putting
        ensures { result ≡ record { number = number; slot = slot; job = job; version = 3; phase = Phase.Fresh } }
    {
        Putting {
            number,
            slot,
            job,
            version: 3,
            phase: Phase::Fresh,
        }
    }

    pub fn key(&self) -> &Key
        ensures { result.now ≡ self.now.job.key }
    {
        &self.job.key
    }

    /// The peer whose frame it awaits, if it awaits one.
    pub fn awaits(&self) -> Option<u32>
        ensures { result ≡ awaited (work_of self.now) }
    {
        match self.phase {
            Phase::Opens { peer } | Phase::Greets { peer } | Phase::Offer { peer } => Some(peer),
            Phase::Answer { peer, start: _ } => Some(peer),
            Phase::Fresh | Phase::Bytes(_) | Phase::Word { peer: _, start: _ } => None,
            Phase::Ends(_) | Phase::Done => None,
        }
    }

    /// The peer on whose connection it talks, if it talks on one.
    pub fn partner(&self) -> Option<u32>
        ensures { result ≡ partner self.now.job.peer (phase_of self.now.phase) }
    {
        match self.phase {
            Phase::Opens { peer } | Phase::Greets { peer } | Phase::Offer { peer } => Some(peer),
            Phase::Bytes(sending) => Some(sending.peer),
            Phase::Word { peer, start: _ } | Phase::Answer { peer, start: _ } => Some(peer),
            Phase::Fresh | Phase::Ends(_) | Phase::Done => None,
        }
    }

    /// Whether its drop follows.
    fn is_move(&self) -> bool
        ensures { result ≡ is_move self.now.job.kind }
    {
        match self.job.kind {
            JobKind::MoveTo | JobKind::MoveFrom => true,
            JobKind::Drop | JobKind::Get | JobKind::Copy => false,
        }
    }

    /// Keeps the version that the job's peer answered.
    pub(crate) fn learn(&mut self, peer: u32, version: u64)
        ensures { self.new ≡ record self.old { version = if option_is self.old.job.peer peer then version else self.old.version } }
    {
        if self.job.peer == Some(peer) {
            self.version = version;
        }
    }

    /// The connection was closed: the job ends next.
    pub(crate) fn close(&mut self, alloc: Global) -> Output
        ensures { Told self.old self.new [] (Phase.Ends Ending.Closed) self.old.version result }
    {
        self.refuse(alloc, Ending::Closed)
    }

    /// The peer refused: the job ends next.
    pub(crate) fn refuse(&mut self, alloc: Global, why: Ending) -> Output
        ensures { Told self.old self.new [] (Phase.Ends why) self.old.version result }
    {
        self.phase = Phase::Ends(why);
        quietly(alloc, talk(self.number))
    }

    /// A call of the store failed: the job ends next.
    pub(crate) fn fail(&mut self, alloc: Global, call: Call) -> Output
        ensures says { result ≡ output_of (EntryKind.Fault call (by_job self.old.number)) [] false }
        ensures next { self.new ≡ record self.old { phase = Phase.Ends Ending.StoreFault } }
    {
        self.phase = Phase::Ends(Ending::StoreFault);
        failing(alloc, self.number, call)
    }

    /// The peer has the content: a copy is to end, and the drop of a move is to begin.
    pub(crate) fn finish(&mut self, alloc: Global, start: Option<u64>) -> Output
        ensures says { result ≡ output_of (EntryKind.Talk (Some self.old.number)) [] (is_move self.old.job.kind) }
        ensures next { self.new ≡ record self.old { phase = if is_move self.old.job.kind then Phase.Done else Phase.Ends (Ending.Copied start) } }
    {
        let output = quietly(alloc, talk(self.number));
        if self.is_move() {
            self.phase = Phase::Done;
            return done(output);
        }
        self.phase = Phase::Ends(Ending::Copied { start });
        output
    }
}
