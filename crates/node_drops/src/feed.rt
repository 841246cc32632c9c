//! What a job is told of the end at which it awaits a frame.
ghost use Rattle.std.specs.Prelude.{◌≡◌, true, None, is_some, IfOk};
ghost use Rattle.node_ends.specs.Ends.{link_at, name_of, text_in};
ghost use Rattle.drop_worker.specs.Working.{taken_of};
ghost use Rattle.node_drops.specs.Feeds.{feed_at};

use annex_base::{NoMemory, Word};
use drop_worker::Taken;
use link_ring::Body;
use node_ends::{EndId, Ends};
use p2p_wire::Message;
use std::alloc::Global;

/// What a job's step takes, the word beside it, and the peer from whose end it takes a frame.
#[derive(Drop)]
pub struct Feed {
    pub taken: Taken,
    pub word: Option<Word>,
    pub takes: Option<u32>,
}

/// A job that awaits no frame, or whose connection was closed here.
pub(crate) fn bare_feed(taken: Taken) -> Feed
    ensures { result ≡ record { taken = taken; word = None; takes = None } }
{
    Feed {
        taken,
        word: None,
        takes: None,
    }
}

/// What came at an end: a frame where one waits and the end has room, or that it is closed.
pub(crate) fn heard(alloc: Global, ends: &mut Ends, end: EndId) -> Result<Option<Feed>, NoMemory>
    requires there { is_some (link_at ends.old (name_of end)) ≡ true }
    ensures feed { IfOk result (λ f. f ≡ feed_at ends.old (name_of end)) }
    ensures same { ends.new ≡ ends.old }
{
    if !ends.is_open(end) {
        return Ok(Some(bare_feed(Taken::Closed)));
    }
    if !ends.room(end) {
        return Ok(None);
    }
    let Some(frame) = ends.waiting(end) else {
        return Ok(None);
    };
    let taken = taken_in(alloc, &frame.body)?;
    Ok(Some(Feed {
        taken,
        word: frame.word,
        takes: Some(end.peer),
    }))
}

/// What a worker is told of a frame with this body.
fn taken_in(alloc: Global, body: &Body) -> Result<Taken, NoMemory>
    ensures { IfOk result (λ taken. taken ≡ taken_of (text_in body.now)) }
{
    match body {
        Body::Line(text) => match Message::read(alloc, text.bytes())? {
            Some(message) => Ok(Taken::Message(message)),
            None => Ok(Taken::Other),
        },
        Body::Open | Body::Bytes(_) => Ok(Taken::Other),
        Body::Close => Ok(Taken::Closed),
    }
}
