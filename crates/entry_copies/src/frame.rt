//! Copies of frames as entries list them.
ghost use Rattle.std.specs.Prelude.{◌≡◌, IfOk};

use annex_base::{Items, NoMemory};
use run_data::{FrameText, FrameView};
use std::alloc::Global;

fn body_copy(body: &FrameText) -> Result<FrameText, NoMemory>
    ensures { IfOk result (λ copy. copy ≡ body.now) }
{
    match body {
        FrameText::Opening => Ok(FrameText::Opening),
        FrameText::Closing => Ok(FrameText::Closing),
        FrameText::Bytes(count) => Ok(FrameText::Bytes(*count)),
        FrameText::Line(line) => Ok(FrameText::Line(line.clone()?)),
    }
}

fn frame_copy(frame: &FrameView) -> Result<FrameView, NoMemory>
    ensures { IfOk result (λ copy. copy ≡ frame.now) }
{
    Ok(FrameView {
        peer: frame.peer,
        slot: frame.slot,
        up: frame.up,
        epoch: frame.epoch,
        seq: frame.seq,
        body: body_copy(&frame.body)?,
    })
}

/// The frame that was taken.
pub(crate) fn taken_copy(taken: &Option<FrameView>) -> Result<Option<FrameView>, NoMemory>
    ensures { IfOk result (λ copy. copy ≡ taken.now) }
{
    match taken {
        Some(frame) => Ok(Some(frame_copy(frame)?)),
        None => Ok(None),
    }
}

/// The frames that were sent, in order.
pub(crate) fn sent_copy(alloc: Global, sent: &[FrameView]) -> Result<Items<FrameView>, NoMemory>
    ensures { IfOk result (λ copies. copies ≡ sent.now) }
{
    let mut copies = Items::new(alloc);
    for frame in sent {
        copies.push(frame_copy(frame)?)?;
    }
    Ok(copies)
}
