//! A get: where it stands, and what it has of the table.
ghost use Rattle.std.specs.Prelude.{◌≡◌, ◌&&◌, not, ℕ, List, [], true, Some, None, bytes_eq, if◌then◌else◌, is_some};
ghost use Rattle.node_model.specs.Jobs.{is_move};
ghost use Rattle.node_model.specs.Rows.{option_is};
ghost use Rattle.content_lock.specs.Rows.{is_filling};
ghost use Rattle.transfer_turns.specs.Turns.{awaited};
ghost use Rattle.get_phases.specs.Gets.{HasFill, fill_in, outcome_of, work_of};

use annex_key::Key;
use content_lock::{Fill, LockTable};
use run_data::{Job, JobKind, Outcome, SourceFailure, TransferRefusal};
use session_state::{Taken, Taking, Wanting};
use std::alloc::Global;
use std::mem;

/// The get of a job, or the transfer of a move from a peer: the job's number and slot, the job, what its peer answered
/// to VERSION (3 where it wasn't asked), and why each peer that was asked gave it nothing, in order.
pub struct Getting {
    pub number: u32,
    pub slot: u32,
    pub job: Job,
    pub version: u64,
    pub causes: Vec<SourceFailure>,
    pub phase: Phase,
}

/// Where a get stands. From its first step on it has the right to fill the key.
pub enum Phase {
    /// It is to begin.
    Fresh,
    /// It is to go on to the next peer.
    Next {
        fill: Fill,
    },
    /// It sent Open; VERSION.
    Opens {
        peer: u32,
        fill: Fill,
    },
    Greets {
        peer: u32,
        fill: Fill,
    },
    /// It sent GET, and awaits DATA, then bytes, and then VALID.
    Data {
        peer: u32,
        wanting: Wanting,
    },
    Bytes {
        peer: u32,
        start: u64,
        taking: Taking,
    },
    Word {
        peer: u32,
        start: u64,
        taken: Taken,
    },
    /// It is to end so.
    Ends(Ending),
    /// Its transfer is done, and its drop is to begin.
    Done,
}

/// How a get is to end.
pub enum Ending {
    /// It has the content, from this peer and from this offset in bytes on.
    Got { peer: u32, start: u64 },
    StoreFault { fill: Option<Fill> },
}

impl Ending {
    /// The outcome of its job.
    pub fn outcome(&self) -> Outcome
        ensures { result ≡ outcome_of self.now }
    {
        match self {
            Ending::Got { peer, start } => Outcome::Got {
                source: Some(*peer),
                start: Some(*start),
            },
            Ending::StoreFault { fill: _ } => Outcome::TransferRefused(TransferRefusal::StoreFault),
        }
    }
}

impl Phase {
    /// The right to fill the key, if it has it.
    pub fn into_fill(self) -> Option<Fill>
        ensures { result ≡ fill_in self }
    {
        match self {
            Phase::Fresh | Phase::Done => None,
            Phase::Next { fill } => Some(fill),
            Phase::Opens { peer: _, fill } => Some(fill),
            Phase::Greets { peer: _, fill } => Some(fill),
            Phase::Data { peer: _, wanting } => {
                let Wanting {
                    fill,
                    size: _,
                    digester: _,
                } = wanting;
                Some(fill)
            }
            Phase::Bytes {
                peer: _,
                start: _,
                taking,
            } => {
                let Taking {
                    fill,
                    size: _,
                    left: _,
                    digester: _,
                } = taking;
                Some(fill)
            }
            Phase::Word {
                peer: _,
                start: _,
                taken,
            } => {
                let Taken {
                    fill,
                    size: _,
                    sum: _,
                } = taken;
                Some(fill)
            }
            Phase::Ends(Ending::Got { peer: _, start: _ }) => None,
            Phase::Ends(Ending::StoreFault { fill }) => fill,
        }
    }
}

impl Getting {
    /// The get of a job that begins.
    pub fn start(alloc: Global, number: u32, slot: u32, job: Job) -> Getting
        ensures { (result.number ≡ number) × (result.slot ≡ slot) × (result.job ≡ job) × (result.version ≡ 3) × (result.causes.items ≡ []) × (result.phase ≡ Phase.Fresh) }
    {
        Getting {
            number,
            slot,
            job,
            version: 3,
            causes: Vec::new(alloc),
            phase: Phase::Fresh,
        }
    }

    pub fn key(&self) -> &Key
        ensures { result.now ≡ self.now.job.key }
    {
        &self.job.key
    }

    /// The peer whose frame it awaits, if it awaits one.
    pub fn awaits(&self) -> Option<u32>
        ensures { result ≡ awaited (work_of self.now) }
    {
        match &self.phase {
            Phase::Opens { peer, fill: _ } | Phase::Greets { peer, fill: _ } => Some(*peer),
            Phase::Data { peer, wanting: _ } => Some(*peer),
            Phase::Bytes {
                peer,
                start: _,
                taking: _,
            } => Some(*peer),
            Phase::Word {
                peer,
                start: _,
                taken: _,
            } => Some(*peer),
            Phase::Fresh | Phase::Next { fill: _ } | Phase::Ends(_) | Phase::Done => None,
        }
    }

    /// Whether its drop follows.
    pub fn is_move(&self) -> bool
        ensures { result ≡ is_move self.now.job.kind }
    {
        match self.job.kind {
            JobKind::MoveTo | JobKind::MoveFrom => true,
            JobKind::Drop | JobKind::Get | JobKind::Copy => false,
        }
    }

    /// Hands over where it stands, and is to begin.
    pub fn take(&mut self) -> Phase
        ensures phase { result ≡ self.old.phase }
        ensures bare { self.new ≡ record self.old { phase = Phase.Fresh } }
    {
        mem::replace(&mut self.phase, Phase::Fresh)
    }

    /// From here on it stands elsewhere; it had no right to fill the key.
    pub fn go_to(&mut self, phase: Phase)
        requires bare { fill_in self.old.phase ≡ None }
        ensures { self.new ≡ record self.old { phase = phase } }
    {
        match mem::replace(&mut self.phase, phase).into_fill() {
            None => {}
            Some(_) => unreachable!(),
        }
    }

    /// Hands over the right to fill the key, and is to begin.
    pub fn take_fill(&mut self) -> Fill
        requires fills { is_some (fill_in self.old.phase) ≡ true }
        ensures fill { fill_in self.old.phase ≡ Some result }
        ensures bare { self.new ≡ record self.old { phase = Phase.Fresh } }
    {
        match self.take().into_fill() {
            Some(fill) => fill,
            None => unreachable!(),
        }
    }

    /// Whether this is the job's own peer.
    fn is_partner(&self, peer: u32) -> bool
        ensures { result ≡ option_is self.now.job.peer peer }
    {
        match self.job.peer {
            Some(other) => other == peer,
            None => false,
        }
    }

    /// Keeps the version that the job's peer answered.
    pub fn learn(&mut self, peer: u32, version: u64)
        ensures { self.new ≡ record self.old { version = if option_is self.old.job.peer peer then version else self.old.version } }
    {
        if self.is_partner(peer) {
            self.version = version;
        }
    }
}

/// Ends a get, where its job has ended, or at a crash: it gives back the right to fill its key.
pub fn end(getting: Getting, table: &mut LockTable)
    requires has { HasFill table.old getting }
    ensures fills { (key : List ℕ) → is_filling table.new key ≡ (not (is_some (fill_in getting.phase) && bytes_eq getting.job.key key) && is_filling table.old key) }
    ensures holds { table.new.holds ≡ table.old.holds }
    ensures bars { table.new.bars ≡ table.old.bars }
{
    let Getting {
        number: _,
        slot: _,
        job: _,
        version: _,
        causes: _,
        phase,
    } = getting;
    match phase.into_fill() {
        Some(fill) => table.unfill(fill),
        None => {}
    }
}
