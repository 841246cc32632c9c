//! What a job is told that awaits a frame.
ghost use Rattle.std.specs.Prelude.{◌≡◌, ◌<◌, ◌*◌, None, true, IfOk, length};
ghost use Rattle.end_hearing.specs.Hearing.{Hears};

use crate::body::heard;
use annex_base::{NoMemory, Word};
use node_ends::{EndId, Ends, ends_are_there};
use session_state::Incoming;
use std::alloc::Global;

/// What came: what the frame brings, the word beside it, and the peer from whose end it is to be taken. There is no frame where
/// the connection was closed here, or where none is awaited.
#[derive(Drop)]
pub struct Arrival {
    pub incoming: Option<Incoming>,
    pub word: Option<Word>,
    pub takes: Option<u32>,
}

/// No frame.
pub fn nothing() -> Arrival
    ensures { result ≡ record { incoming = None; word = None; takes = None } }
{
    Arrival {
        incoming: None,
        word: None,
        takes: None,
    }
}

/// What came at the client's end of the connection with a peer, in a slot, of a repository among so many: that it is closed, or
/// a frame, where one waits and the end has room.
pub fn hear(
    alloc: Global,
    ends: &mut Ends,
    count: u32,
    slot: u32,
    peer: u32,
) -> Result<Option<Arrival>, NoMemory>
    requires links { length ends.old ≡ count * 8 }
    requires slot { slot < 4 }
    ensures hears { IfOk result (Hears ends.old (record { peer = peer; slot = slot; client = true })) }
    ensures same { ends.new ≡ ends.old }
{
    // A law, for the proof that the ends of the repositories are there.
    ends_are_there();
    let end = EndId {
        peer,
        slot,
        client: true,
    };
    if peer >= count || !ends.is_open(end) {
        return Ok(Some(nothing()));
    }
    if !ends.room(end) {
        return Ok(None);
    }
    let Some(frame) = ends.waiting(end) else {
        return Ok(None);
    };
    let incoming = heard(alloc, &frame.body)?;
    Ok(Some(Arrival {
        incoming: Some(incoming),
        word: frame.word,
        takes: Some(peer),
    }))
}
