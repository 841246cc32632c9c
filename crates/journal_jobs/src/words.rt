//! The words of causes, of answers and of ends.
ghost use Rattle.std.specs.Prelude.{◌≡◌, None, codes};
ghost use Rattle.journal_reading.specs.Forms.{nothing, row, row_in};
ghost use Rattle.journal_reading.specs.Kinds.{cause_form, source_form, denial_form, ordered_form, until_form};

use journal_fields::{behind, read_large, read_nothing};
use run_data::{Cause, Denial, SourceCause};
use script_words::is_word;

/// Why a candidate gave no evidence.
pub(crate) fn read_cause(word: &[u8]) -> Option<Cause>
    ensures { result ≡ cause_form.read word.now }
{
    if is_word(word, b"absent") {
        Some(Cause::Absent)
    } else if is_word(word, b"barred") {
        Some(Cause::Barred)
    } else if is_word(word, b"fault") {
        Some(Cause::Fault)
    } else if is_word(word, b"closed") {
        Some(Cause::Closed)
    } else if is_word(word, b"untrusted") {
        Some(Cause::Untrusted)
    } else if is_word(word, b"dead") {
        Some(Cause::Dead)
    } else {
        None
    }
}

/// Why a peer gave a get no content.
pub(crate) fn read_source_cause(word: &[u8]) -> Option<SourceCause>
    ensures { result ≡ source_form.read word.now }
{
    if is_word(word, b"absent") {
        Some(SourceCause::Absent)
    } else if is_word(word, b"closed") {
        Some(SourceCause::Closed)
    } else if is_word(word, b"wrong") {
        Some(SourceCause::Wrong)
    } else if is_word(word, b"invalid") {
        Some(SourceCause::Invalid)
    } else {
        None
    }
}

/// Why a target refused an order.
pub(crate) fn read_denial(word: &[u8]) -> Option<Denial>
    ensures { result ≡ denial_form.read word.now }
{
    if is_word(word, b"late") {
        Some(Denial::Late)
    } else if is_word(word, b"barred") {
        Some(Denial::Barred)
    } else if is_word(word, b"held") {
        Some(Denial::Held)
    } else if is_word(word, b"fault") {
        Some(Denial::Fault)
    } else {
        None
    }
}

/// Whether the order was given when the connection was lost.
pub(crate) fn read_ordered(word: &[u8]) -> Option<bool>
    ensures { result ≡ ordered_form.read word.now }
{
    if is_word(word, b"ordered") {
        Some(true)
    } else if is_word(word, b"unordered") {
        Some(false)
    } else {
        None
    }
}

fn read_open(word: &[u8]) -> Option<Option<u64>>
    ensures { result ≡ row_in word.now (row (codes "open") nothing (λ x. None)) }
{
    let rest = behind(word, b"open")?;
    read_nothing(rest)?;
    Some(None)
}

/// Until when a hold blocks, in milliseconds; while it is open, without an end.
#[tactic(auto, using(crate::proofs::MarkLemmas::unmarked))]
pub(crate) fn read_until(word: &[u8]) -> Option<Option<u64>>
    ensures { result ≡ until_form.read word.now }
{
    if let Some(until) = read_open(word) {
        return Some(until);
    }
    let end = read_large(word)?;
    Some(Some(end))
}
