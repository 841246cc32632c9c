//! What a frame carries.
ghost use Rattle.std.specs.Prelude.{◌≡◌, [], IfOk, codes};
ghost use Rattle.journal_reading.specs.Forms.{nothing, passing, row, row_in};
ghost use Rattle.journal_reading.specs.Fields.{large, is_message, body_form};
ghost use Rattle.run_data.specs.declared.entry.FrameText.TheVariants as bodies;

use annex_base::{NoMemory, Text};
use journal_fields::{behind, is_one_line, read_large, read_nothing};
use p2p_wire::Message;
use run_data::FrameText;
use std::alloc::Global;

/// `OPEN`
fn read_opening(bytes: &[u8]) -> Option<FrameText>
    ensures { result ≡ row_in bytes.now (row (codes "OPEN") nothing (λ x. bodies.Opening)) }
{
    let rest = behind(bytes, b"OPEN")?;
    read_nothing(rest)?;
    Some(FrameText::Opening)
}

/// `CLOSE`
fn read_closing(bytes: &[u8]) -> Option<FrameText>
    ensures { result ≡ row_in bytes.now (row (codes "CLOSE") nothing (λ x. bodies.Closing)) }
{
    let rest = behind(bytes, b"CLOSE")?;
    read_nothing(rest)?;
    Some(FrameText::Closing)
}

/// `BYTES NUMBER`
fn read_bytes(bytes: &[u8]) -> Option<FrameText>
    ensures { result ≡ row_in bytes.now (row (codes "BYTES ") large bodies.Bytes) }
{
    let word = behind(bytes, b"BYTES ")?;
    let number = read_large(word)?;
    Some(FrameText::Bytes(number))
}

/// Whether the text is the line of a message (git-annex P2P protocol).
fn is_message(alloc: Global, text: &[u8]) -> Result<bool, NoMemory>
    ensures { IfOk result (λ is. is ≡ is_message text.now) }
{
    if !is_one_line(text) {
        return Ok(false);
    }
    let message = Message::read(alloc, text)?;
    Ok(message.is_some())
}

/// The line of a message.
#[tactic(auto, unfolding(script_words::specs::Marks::behind_mark))]
fn read_message(alloc: Global, bytes: &[u8]) -> Result<Option<FrameText>, NoMemory>
    ensures { IfOk result (λ o. o ≡ row_in bytes.now (row [] (passing is_message) bodies.Line)) }
{
    if is_message(alloc, bytes)? {
        let text = Text::new(alloc, bytes)?;
        Ok(Some(FrameText::Line(text)))
    } else {
        Ok(None)
    }
}

/// What a frame carries: an opening, a closing, so many bytes, or a message's line.
pub(crate) fn read_body(alloc: Global, bytes: &[u8]) -> Result<Option<FrameText>, NoMemory>
    ensures { IfOk result (λ o. o ≡ body_form.read bytes.now) }
{
    if let Some(body) = read_opening(bytes) {
        return Ok(Some(body));
    }
    if let Some(body) = read_closing(bytes) {
        return Ok(Some(body));
    }
    if let Some(body) = read_bytes(bytes) {
        return Ok(Some(body));
    }
    if let Some(body) = read_message(alloc, bytes)? {
        return Ok(Some(body));
    }
    Ok(None)
}
