//! An entry of the journal: its line, its frames and its lines.

ghost use Rattle.std.specs.Prelude.{◌≡◌, ◌++◌, List, OnOk, OnErr, option_copied, reverse};
ghost use Rattle.std.specs.List.{flat_map};
ghost use Rattle.journal_text.specs.Journal.{entry_text, head_text, taken_text, sent_text, added_text};

use crate::frame::put_frame;
use crate::kind::put_kind;
use annex_base::{Line, put_number};
use run_data::{Entry, FrameView, RepoView};
use run_text::put_name_or_dash;
use std::alloc::AllocError;

/// Adds an entry as the journal has it; those before it stand in order, of which the text needs its own repository's
/// alone (own). Without memory it adds nothing.
pub fn put_entry(
    out: &mut Vec<u8>,
    repos: &[RepoView],
    before: &[Entry],
    entry: &Entry,
) -> Result<(), AllocError>
    ensures ok { OnOk result (out.new.items ≡ out.old.items ++ entry_text repos.now (reverse before.now) entry.now) }
    ensures err { OnErr result (out.new.items ≡ out.old.items) }
{
    let mut text = Vec::new(*out.allocator());
    put_parts(&mut text, repos, before, entry)?;
    out.extend_from_slice(&text)
}

/// Adds the parts of an entry; without memory some of them.
pub(crate) fn put_parts(
    out: &mut Vec<u8>,
    repos: &[RepoView],
    before: &[Entry],
    entry: &Entry,
) -> Result<(), AllocError>
    ensures { OnOk result (out.new.items ≡ out.old.items ++ entry_text repos.now (reverse before.now) entry.now) }
{
    put_head(out, repos, before, entry)?;
    put_taken(out, repos, entry.taken.as_ref())?;
    put_sent(out, repos, entry.sent.as_slice())?;
    put_added(out, entry.lines.as_slice())?;
    Ok(())
}

fn put_head(
    out: &mut Vec<u8>,
    repos: &[RepoView],
    before: &[Entry],
    entry: &Entry,
) -> Result<(), AllocError>
    ensures { OnOk result (out.new.items ≡ out.old.items ++ head_text repos.now (reverse before.now) entry.now) }
{
    put_number(out, entry.time)?;
    out.push(b'.')?;
    put_number(out, entry.count)?;
    out.push(b' ')?;
    put_name_or_dash(out, repos, entry.repo)?;
    out.push(b' ')?;
    put_kind(out, repos, before, entry)?;
    out.push(b'\n')?;
    Ok(())
}

fn put_taken(
    out: &mut Vec<u8>,
    repos: &[RepoView],
    taken: Option<&FrameView>,
) -> Result<(), AllocError>
    ensures { OnOk result (out.new.items ≡ out.old.items ++ taken_text repos.now (option_copied taken.entry)) }
{
    if let Some(frame) = taken {
        out.extend_from_slice(b"< ")?;
        put_frame(out, repos, frame)?;
        out.push(b'\n')?;
    }
    Ok(())
}

fn put_sent(out: &mut Vec<u8>, repos: &[RepoView], sent: &[FrameView]) -> Result<(), AllocError>
    ensures { OnOk result (out.new.items ≡ out.old.items ++ flat_map (sent_text repos.now) sent.now) }
{
    for frame in sent {
        out.extend_from_slice(b"> ")?;
        put_frame(out, repos, frame)?;
        out.push(b'\n')?;
    }
    Ok(())
}

fn put_added(out: &mut Vec<u8>, lines: &[Line]) -> Result<(), AllocError>
    ensures { OnOk result (out.new.items ≡ out.old.items ++ flat_map added_text lines.now) }
{
    for line in lines {
        out.extend_from_slice(b"| ")?;
        out.extend_from_slice(line.bytes())?;
        out.push(b'\n')?;
    }
    Ok(())
}
