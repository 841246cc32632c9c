//! A frame, as an entry lists it.
ghost use Rattle.std.specs.Prelude.{◌≡◌, ◌∷◌, [], true, false, ◌<◌, ◌^◌, length, IfOk, option_map};
ghost use Rattle.journal_reading.specs.Forms.{one_of, up_to};
ghost use Rattle.journal_reading.specs.Fields.{small, large, body_form};
ghost use Rattle.journal_reading.specs.Lines.{way_word, frame_parts, a_frame, frame_form};

use crate::bodies::read_body;
use annex_base::NoMemory;
use journal_fields::{behind, cut, read_large, read_repo, read_small};
use run_data::{FrameText, FrameView, RepoView};
use script_words::is_word;
use std::alloc::Global;

/// The way of a frame: whether it goes up, from the client to the server.
fn read_way(word: &[u8]) -> Option<bool>
    ensures { result ≡ (one_of way_word (true ∷ false ∷ [])).read word.now }
{
    if is_word(word, b"up") {
        return Some(true);
    }
    if is_word(word, b"down") {
        return Some(false);
    }
    None
}

/// A frame's number in its epoch and way, and what it carries.
fn read_numbered(alloc: Global, bytes: &[u8]) -> Result<Option<(u64, FrameText)>, NoMemory>
    ensures { IfOk result (λ o. o ≡ (up_to 32 large (λ n. body_form)).read bytes.now) }
{
    let Some((word, rest)) = cut(bytes, b' ') else {
        return Ok(None);
    };
    let Some(seq) = read_large(word) else {
        return Ok(None);
    };
    let Some(body) = read_body(alloc, rest)? else {
        return Ok(None);
    };
    Ok(Some((seq, body)))
}

/// A frame's epoch, and what follows it.
fn read_in_epoch(alloc: Global, bytes: &[u8]) -> Result<Option<(u32, (u64, FrameText))>, NoMemory>
    ensures { IfOk result (λ o. o ≡ (up_to 32 small (λ e. up_to 32 large (λ n. body_form))).read bytes.now) }
{
    let Some((word, rest)) = cut(bytes, b' ') else {
        return Ok(None);
    };
    let Some(epoch) = read_small(word) else {
        return Ok(None);
    };
    let Some(numbered) = read_numbered(alloc, rest)? else {
        return Ok(None);
    };
    Ok(Some((epoch, numbered)))
}

/// The parts of a frame behind its mark.
fn read_parts(
    alloc: Global,
    repos: &[RepoView],
    bytes: &[u8],
) -> Result<Option<FrameView>, NoMemory>
    requires few { length repos.now < 2 ^ 32 }
    ensures { IfOk result (λ o. o ≡ option_map a_frame ((frame_parts repos.now).read bytes.now)) }
{
    let Some((name, rest)) = cut(bytes, b' ') else {
        return Ok(None);
    };
    let Some(peer) = read_repo(repos, name) else {
        return Ok(None);
    };
    let Some((word, rest)) = cut(rest, b' ') else {
        return Ok(None);
    };
    let Some(slot) = read_small(word) else {
        return Ok(None);
    };
    let Some((word, rest)) = cut(rest, b' ') else {
        return Ok(None);
    };
    let Some(up) = read_way(word) else {
        return Ok(None);
    };
    let Some((epoch, (seq, body))) = read_in_epoch(alloc, rest)? else {
        return Ok(None);
    };
    Ok(Some(FrameView {
        peer,
        slot,
        up,
        epoch,
        seq,
        body,
    }))
}

/// A frame behind this mark: the other end, the slot, the way, the epoch, its number there, and what it carries.
pub fn read_frame(
    alloc: Global,
    repos: &[RepoView],
    mark: &[u8],
    line: &[u8],
) -> Result<Option<FrameView>, NoMemory>
    requires few { length repos.now < 2 ^ 32 }
    ensures { IfOk result (λ o. o ≡ (frame_form repos.now mark.now).read line.now) }
{
    let Some(bytes) = behind(line, mark) else {
        return Ok(None);
    };
    if let Some(frame) = read_parts(alloc, repos, bytes)? {
        return Ok(Some(frame));
    }
    Ok(None)
}
