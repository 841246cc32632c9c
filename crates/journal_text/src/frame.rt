//! A frame, as an entry lists it.

ghost use Rattle.std.specs.Prelude.{◌≡◌, ◌++◌, OnOk};
ghost use Rattle.journal_text.specs.Journal.{frame_text, body_text, way_text};

use annex_base::put_number;
use run_data::{FrameText, FrameView, RepoView};
use run_text::put_name;
use std::alloc::AllocError;

/// Adds a frame: the other end, the slot, the way, the epoch, its number there, and what it carries.
pub(crate) fn put_frame(
    out: &mut Vec<u8>,
    repos: &[RepoView],
    frame: &FrameView,
) -> Result<(), AllocError>
    ensures { OnOk result (out.new.items ≡ out.old.items ++ frame_text repos.now frame.now) }
{
    put_name(out, repos, frame.peer)?;
    out.push(b' ')?;
    put_number(out, frame.slot as u64)?;
    out.extend_from_slice(way_word(frame.up))?;
    put_number(out, frame.epoch as u64)?;
    out.push(b' ')?;
    put_number(out, frame.seq)?;
    out.push(b' ')?;
    put_body(out, &frame.body)?;
    Ok(())
}

fn way_word(up: bool) -> &'static [u8]
    ensures { result.now ≡ way_text up }
{
    if up { b" up " } else { b" down " }
}

fn put_body(out: &mut Vec<u8>, body: &FrameText) -> Result<(), AllocError>
    ensures { OnOk result (out.new.items ≡ out.old.items ++ body_text body.now) }
{
    match body {
        FrameText::Opening => out.extend_from_slice(b"OPEN")?,
        FrameText::Closing => out.extend_from_slice(b"CLOSE")?,
        FrameText::Bytes(number) => {
            out.extend_from_slice(b"BYTES ")?;
            put_number(out, *number)?;
        }
        FrameText::Line(text) => out.extend_from_slice(text.bytes())?,
    }
    Ok(())
}
