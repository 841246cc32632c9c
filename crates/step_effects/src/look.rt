//! What an entry tells of the look of its step: the call that failed, and the part.
ghost use Rattle.std.specs.Prelude.{◌≡◌, ◌≤◌, ◌<◌, ◌^◌, length};
ghost use Rattle.std.specs.Char.{digit_value};
ghost use Rattle.std.specs.List.{position_or_len};
ghost use Rattle.std.specs.Option.{option_copied};
ghost use Rattle.std.specs.Str.Parse.{digits_value};
ghost use Rattle.annex_base.specs.Lines.{is_space};
ghost use Rattle.p2p_wire.specs.Messages.{rest_in, word_in};
ghost use Rattle.step_judging.specs.Telling.{failed_call, first_line, line_of, matches_told, number_behind, part_told, small_part};

use crate::names::same_call;
use annex_base::Call;
use run_data::{Entry, EntryKind, FrameText, FrameView};

/// The call that failed, if the entry is a fault.
pub fn failed_call(kind: &EntryKind) -> Option<Call>
    ensures { result ≡ failed_call kind.now }
{
    match kind {
        EntryKind::Fault { call, .. } => Some(*call),
        _ => None,
    }
}

/// Whether the part came to its commit.
pub fn matches_told(kind: &EntryKind) -> bool
    ensures { result ≡ matches_told kind.now }
{
    match kind {
        EntryKind::Gain { .. } => true,
        EntryKind::Fault { call, .. } => same_call(*call, Call::Commit),
        _ => false,
    }
}

fn line_of(body: &FrameText) -> &[u8]
    ensures { result.now ≡ line_of body.now }
{
    match body {
        FrameText::Line(text) => text.bytes(),
        _ => &[],
    }
}

/// The line of the first frame, if it has one.
fn first_line(sent: &[FrameView]) -> &[u8]
    ensures { result.now ≡ first_line sent.now }
{
    match sent.split_first() {
        Some((frame, _)) => line_of(&frame.body),
        None => &[],
    }
}

fn word_len(text: &[u8]) -> usize
    ensures place { result ≡ position_or_len is_space text.now }
    ensures short { result ≤ length text.now }
{
    text.iter().take_while(|b| **b != b' ').count()
}

fn word_in(text: &[u8]) -> &[u8]
    ensures { result.now ≡ word_in text.now }
{
    let (word, _) = text.split_at(word_len(text));
    word
}

fn rest_in(text: &[u8]) -> Option<&[u8]>
    ensures { option_copied result ≡ rest_in text.now }
{
    let (_, rest) = text.split_at(word_len(text));
    match rest.split_first() {
        Some((_, after)) => Some(after),
        None => None,
    }
}

/// The value of a digit, up to that of `z`, and 36 of another byte.
fn digit_value(digit: u8) -> u8
    ensures value { result ≡ digit_value digit }
    ensures small { result ≤ 36 }
{
    match digit {
        b'0'..=b'9' => digit - b'0',
        b'A'..=b'Z' => digit - b'A' + 10,
        b'a'..=b'z' => digit - b'a' + 10,
        _ => 36,
    }
}

/// The number that the digits write, where it may be a part's, or else 1.
fn small_number(digits: &[u8]) -> u64
    ensures value { result ≡ small_part (digits_value 10 digits.now) }
    ensures small { result < 2 ^ 62 }
{
    let mut value: u128 = 0;
    let mut left = digits;
    while let Some((digit, after)) = left.split_first() {
        if value >= 1 << 62 {
            return 1;
        }
        value = value * 10 + u128::from(digit_value(*digit));
        left = after;
    }
    if value < 1 << 62 { value as u64 } else { 1 }
}

fn number_behind(rest: Option<&[u8]>) -> u64
    ensures value { result ≡ small_part (number_behind (option_copied rest.entry)) }
    ensures small { result < 2 ^ 62 }
{
    match rest {
        Some(text) => small_number(word_in(text)),
        None => 0,
    }
}

/// The size of the part that the entry's step asks for, or offers, in bytes.
pub fn part_told(told: &Entry) -> u64
    ensures value { result ≡ part_told told.now.kind (first_line told.now.sent) }
    ensures small { result < 2 ^ 62 }
{
    match &told.kind {
        EntryKind::Fault { .. } => 1,
        _ => number_behind(rest_in(first_line(told.sent.as_slice()))),
    }
}
