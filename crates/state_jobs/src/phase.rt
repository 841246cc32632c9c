//! Where a job stands.
ghost use Rattle.std.specs.Prelude.{◌≡◌, ℕ, ◌<◌, ◌+◌, ◌^◌};
ghost use Rattle.node_model.specs.Jobs.{first_part, gets_bytes, gets_more, is_move, is_ordered, partner, puts_answer, puts_bytes, puts_more};
ghost use Rattle.state_jobs.specs.Phases.{IsBelow, part_of, phase_of};

use run_data::{Cause, JobKind};

/// What a job is at.
#[derive(Clone, Copy, Debug, PartialEq, Eq)]
pub enum Part {
    Gets,
    Puts,
    Drops,
}

/// Where it stands in that. Times are the script's, in milliseconds; sizes and places are in bytes.
#[derive(Clone, Copy, Debug)]
pub enum Phase {
    /// It is to begin.
    Fresh,
    /// It is to go on to the next peer, or to judge.
    Next,
    /// It sent Open; VERSION.
    Opens {
        peer: u32,
    },
    Greets {
        peer: u32,
    },
    /// It sent GET, and then awaits bytes, and then VALID.
    GetsData {
        peer: u32,
        start: u64,
    },
    GetsBytes {
        peer: u32,
        start: u64,
        size: u128,
        left: u64,
    },
    GetsWord {
        peer: u32,
        start: u64,
        size: u128,
    },
    /// It sent PUT, and then it sends bytes, and VALID, and then awaits SUCCESS.
    PutsOffer {
        peer: u32,
    },
    PutsBytes {
        peer: u32,
        start: u64,
        at: u128,
        left: u64,
    },
    PutsWord {
        peer: u32,
        start: u64,
    },
    PutsAnswer {
        peer: u32,
        start: u64,
    },
    /// It sent LOCKCONTENT at this time; CHECKPRESENT.
    AsksLock {
        peer: u32,
        since: u64,
    },
    AsksLook {
        peer: u32,
    },
    /// It sent GETTIMESTAMP; an order: to the target.
    AsksTime,
    Orders,
    /// The content is removed; the target refused to.
    Removed,
    Denied,
    /// The locks had expired at this time, and its own couldn't be released.
    Late {
        time: u64,
    },
    Ends(Ending),
}

/// An outcome that is known before the end.
#[derive(Clone, Copy, Debug)]
pub enum Ending {
    /// A get found the content.
    Here,
    Got { source: u32, start: u64 },
    Copied { start: Option<u64> },
    Lost { ordered: bool },
    OldProtocol { version: u64 },
    DropFault,
    TransferFault,
    Closed,
    Busy,
    Rejected,
}

/// What a drop heard of a candidate's copy.
#[derive(Clone, Copy, Debug, PartialEq, Eq)]
pub enum Heard {
    Held { since: u64 },
    Seen,
    Unseen,
    Lacks(Cause),
}

/// What a job of this kind is at first.
pub fn first_part(kind: JobKind) -> Part
    ensures { part_of result ≡ first_part kind }
{
    match kind {
        JobKind::Drop => Part::Drops,
        JobKind::Get | JobKind::MoveFrom => Part::Gets,
        JobKind::Copy | JobKind::MoveTo => Part::Puts,
    }
}

pub(crate) fn is_move(kind: JobKind) -> bool
    ensures { result ≡ is_move kind }
{
    matches!(kind, JobKind::MoveTo | JobKind::MoveFrom)
}

pub(crate) fn is_ordered(phase: Phase) -> bool
    ensures { result ≡ is_ordered (phase_of phase) }
{
    matches!(phase, Phase::Orders)
}

/// The peer on whose connection a job with this peer stands.
pub(crate) fn partner(target: Option<u32>, phase: Phase) -> Option<u32>
    ensures { result ≡ partner target (phase_of phase) }
{
    match phase {
        Phase::Opens { peer }
        | Phase::Greets { peer }
        | Phase::GetsData { peer, .. }
        | Phase::GetsBytes { peer, .. }
        | Phase::GetsWord { peer, .. }
        | Phase::PutsOffer { peer }
        | Phase::PutsBytes { peer, .. }
        | Phase::PutsWord { peer, .. }
        | Phase::PutsAnswer { peer, .. }
        | Phase::AsksLock { peer, .. }
        | Phase::AsksLook { peer } => Some(peer),
        Phase::AsksTime | Phase::Orders => target,
        _ => None,
    }
}

pub(crate) fn gets_more(peer: u32, start: u64, size: u128, left: u64) -> Phase
    ensures value { phase_of result ≡ gets_more peer start size left }
    ensures small { (limit : ℕ) → size < limit → IsBelow limit result }
{
    if left == 0 {
        Phase::GetsWord { peer, start, size }
    } else {
        Phase::GetsBytes {
            peer,
            start,
            size,
            left,
        }
    }
}

pub(crate) fn puts_more(peer: u32, start: u64, at: u128, left: u64) -> Phase
    ensures value { phase_of result ≡ puts_more peer start at left }
    ensures small { (limit : ℕ) → at < limit → IsBelow limit result }
{
    if left == 0 {
        Phase::PutsWord { peer, start }
    } else {
        Phase::PutsBytes {
            peer,
            start,
            at,
            left,
        }
    }
}

/// It took so many bytes.
pub(crate) fn gets_bytes(count: u64, phase: Phase) -> Phase
    requires { IsBelow (2 ^ 127) phase }
    ensures value { phase_of result ≡ gets_bytes count (phase_of phase) }
    ensures small { (limit : ℕ) → IsBelow limit phase → IsBelow (limit + 2 ^ 64) result }
{
    match phase {
        Phase::GetsBytes {
            peer,
            start,
            size,
            left,
        } => gets_more(
            peer,
            start,
            size + u128::from(count),
            left.saturating_sub(count),
        ),
        other => other,
    }
}

/// It sent so many bytes.
pub(crate) fn puts_bytes(count: u64, phase: Phase) -> Phase
    requires { IsBelow (2 ^ 127) phase }
    ensures value { phase_of result ≡ puts_bytes count (phase_of phase) }
    ensures small { (limit : ℕ) → IsBelow limit phase → IsBelow (limit + 2 ^ 64) result }
{
    match phase {
        Phase::PutsBytes {
            peer,
            start,
            at,
            left,
        } => puts_more(
            peer,
            start,
            at + u128::from(count),
            left.saturating_sub(count),
        ),
        other => other,
    }
}

pub(crate) fn puts_answer(phase: Phase) -> Phase
    ensures value { phase_of result ≡ puts_answer (phase_of phase) }
    ensures small { (limit : ℕ) → IsBelow limit phase → IsBelow limit result }
{
    match phase {
        Phase::PutsWord { peer, start } => Phase::PutsAnswer { peer, start },
        other => other,
    }
}
