//! Whether an entry tells an effect.
ghost use Rattle.std.specs.Prelude.{◌≡◌, ◌&&◌, [], None};
ghost use Rattle.std.specs.Option.{option_copied, option_eq};
ghost use Rattle.step_judging.specs.Same.{same_frame, same_frames, same_lines};

use crate::frames::{same_frame, says_nothing};
use run_data::{Entry, FrameView};

fn is_taken(told: &Option<FrameView>, taken: Option<&FrameView>) -> bool
    ensures { result ≡ option_eq same_frame (option_copied taken.entry) told.now }
{
    match taken {
        Some(frame) => takes(told, frame),
        None => told.is_none(),
    }
}

fn takes(told: &Option<FrameView>, frame: &FrameView) -> bool
    ensures { result ≡ option_eq same_frame (Some frame.now) told.now }
{
    match told {
        Some(other) => same_frame(frame, other),
        None => false,
    }
}

/// Whether the entry tells an effect that takes this frame, or none, and adds no lines, where it tells its kind and
/// the frames that it sends so.
pub fn tells(told: &Entry, kind_is: bool, taken: Option<&FrameView>, sent_is: bool) -> bool
    ensures { result ≡ (kind_is && option_eq same_frame (option_copied taken.entry) told.now.taken && sent_is && same_lines [] told.now.lines) }
{
    kind_is && is_taken(&told.taken, taken) && sent_is && told.lines.as_slice().is_empty()
}

/// Whether the entry tells an effect that takes no frame and sends none, where it tells its kind and its lines so.
pub fn tells_lines(told: &Entry, kind_is: bool, lines_is: bool) -> bool
    ensures { result ≡ (kind_is && option_eq same_frame None told.now.taken && same_frames [] told.now.sent && lines_is) }
{
    kind_is && told.taken.is_none() && says_nothing(told.sent.as_slice()) && lines_is
}
