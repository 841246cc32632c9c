//! The word of a peer that its content is none for the part.
ghost use Rattle.std.specs.Prelude.{◌≡◌, Some};
ghost use Rattle.node_model.specs.Jobs.{source_cause};
ghost use Rattle.content_lock.specs.Rows.{Rows};
ghost use Rattle.transfer_turns.specs.Steps.{Seen};
ghost use Rattle.transfer_turns.specs.Turns.{Sight};
ghost use Rattle.get_phases.specs.Getting.{Does};
ghost use Rattle.get_phases.specs.Gets.{HasFill};
ghost use Rattle.get_commits.specs.Judging.{IsServed};

use annex_base::NoMemory;
use get_phases::{Getting, Phase, fail_with, say};
use p2p_wire::Message;
use run_data::SourceCause;
use session_state::Incoming;
use std::alloc::Global;
use transfer_turns::{Output, talk};

/// INVALID: the peer's content isn't there any more, or is too short for the part. The part stays.
pub(crate) fn reject(getting: &mut Getting, alloc: Global, peer: u32) -> Result<Output, NoMemory>
    requires served { IsServed peer getting.old.phase }
    ensures does { (x : Sight) (rows : Rows) (k : Seen) → HasFill rows getting.old → Does x (Some (Incoming.Message Message.Invalid)) rows rows k k getting.old getting.new result }
{
    let Phase::Word {
        peer: _,
        start,
        taken: _,
    } = &getting.phase
    else {
        unreachable!()
    };
    let start = *start;
    let output = say(
        alloc,
        getting.key(),
        talk(getting.number),
        peer,
        Message::Failure,
    )?;
    fail_with(getting, alloc, peer, refused(start))?;
    Ok(output)
}

/// Why a peer gives nothing from this offset on.
fn refused(start: u64) -> SourceCause
    ensures { result ≡ source_cause start (Some Message.Invalid) }
{
    if start == 0 {
        SourceCause::Absent
    } else {
        SourceCause::Invalid
    }
}
