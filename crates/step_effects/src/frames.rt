//! Sameness of frames.
ghost use Rattle.std.specs.Prelude.{◌≡◌, []};
ghost use Rattle.run_data.specs.declared.entry.FrameText.TheVariants as texts;
ghost use Rattle.step_judging.specs.Same.{same_body, same_frame, same_frames};

use crate::names::same_bool;
use annex_base::Text;
use run_data::{FrameText, FrameView};

pub(crate) fn is_bytes(body: &FrameText, count: u64) -> bool
    ensures { result ≡ same_body (texts.Bytes count) body.now }
{
    match body {
        FrameText::Bytes(other) => count == *other,
        _ => false,
    }
}

fn is_line(body: &FrameText, line: &Text) -> bool
    ensures { result ≡ same_body (texts.Line line.now) body.now }
{
    match body {
        FrameText::Line(other) => *line == *other,
        _ => false,
    }
}

/// Whether both carry the same.
pub fn same_body(one: &FrameText, other: &FrameText) -> bool
    ensures { result ≡ same_body one.now other.now }
{
    match one {
        FrameText::Opening => matches!(other, FrameText::Opening),
        FrameText::Closing => matches!(other, FrameText::Closing),
        FrameText::Bytes(count) => is_bytes(other, *count),
        FrameText::Line(line) => is_line(other, line),
    }
}

pub fn same_frame(one: &FrameView, other: &FrameView) -> bool
    ensures { result ≡ same_frame one.now other.now }
{
    one.peer == other.peer
        && one.slot == other.slot
        && same_bool(one.up, other.up)
        && one.epoch == other.epoch
        && one.seq == other.seq
        && same_body(&one.body, &other.body)
}

/// Whether no frame is sent.
pub fn says_nothing(sent: &[FrameView]) -> bool
    ensures { result ≡ same_frames [] sent.now }
{
    sent.is_empty()
}
