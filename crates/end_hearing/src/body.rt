//! What a frame brings.
ghost use Rattle.std.specs.Prelude.{◌≡◌, IfOk, []};
ghost use Rattle.run_data.specs.declared.entry.FrameText.TheVariants as texts;
ghost use Rattle.node_ends.specs.Ends.{text_in};
ghost use Rattle.session_state.specs.Talking.{Brings};
ghost use Rattle.end_hearing.specs.Pieces.{bytes_heard, bytes_of};

use annex_base::NoMemory;
use link_ring::Body;
use p2p_wire::Message;
use session_state::Incoming;
use std::alloc::Global;

/// What a line brings: a message, or what is none.
fn line_heard(alloc: Global, line: &[u8]) -> Result<Incoming, NoMemory>
    ensures brings { IfOk result (λ i. Brings (texts.Line line.now) i) }
    ensures bytes { IfOk result (λ i. bytes_heard i ≡ []) }
{
    match Message::read(alloc, line)? {
        Some(message) => Ok(Incoming::Message(message)),
        None => Ok(Incoming::Bad),
    }
}

/// What a frame with this body brings.
pub fn heard(alloc: Global, body: &Body) -> Result<Incoming, NoMemory>
    ensures brings { IfOk result (λ i. Brings (text_in body.now) i) }
    ensures bytes { IfOk result (λ i. bytes_heard i ≡ bytes_of body.now) }
{
    match body {
        Body::Open => Ok(Incoming::Opening),
        Body::Close => Ok(Incoming::Closing),
        Body::Bytes(bytes) => Ok(Incoming::Bytes(Vec::from_slice(alloc, bytes.bytes())?)),
        Body::Line(line) => line_heard(alloc, line.bytes()),
    }
}
