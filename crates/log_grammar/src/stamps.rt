//! Stamps in front of a line and at its end.

ghost use Rattle.std.specs.Prelude.{◌≡◌, length, ◌==◌};
ghost use Rattle.std.specs.Option.{option_map};
ghost use Rattle.annex_base.specs.StampReading.{stamp_of};
ghost use Rattle.log_grammar.specs.Reading.{after_mark, mark_at, stamp_end, stamp_front};

use crate::words::{split_first_word, split_last_word};
use annex_base::Stamp;

/// What comes before the stamp in a last word.
pub(crate) const MARK: &[u8] = b"timestamp=";

fn stamp_of(text: &[u8]) -> Option<Stamp>
    ensures { result ≡ stamp_of text.now }
{
    Stamp::parse(text).ok()
}

/// The stamp in front, and what follows its space.
#[tactic(auto, unfolding(crate::specs::Reading::stamp_front))]
pub(crate) fn split_stamp_front(line: &[u8]) -> Option<(Stamp, &[u8])>
    ensures { option_map (λ x. (x.0, x.1.now)) result ≡ stamp_front line.now }
{
    let (word, rest) = split_first_word(line)?;
    let stamp = stamp_of(word)?;
    Some((stamp, rest))
}

#[tactic(auto, unfolding(crate::specs::Reading::after_mark))]
fn after_mark(word: &[u8]) -> Option<&[u8]>
    ensures { option_map (λ x. x.now) result ≡ after_mark word.now }
{
    word.strip_prefix(MARK)
}

#[tactic(auto, unfolding(crate::specs::Reading::mark_at))]
fn split_mark(line: &[u8]) -> Option<(&[u8], &[u8])>
    ensures { option_map (λ x. (x.0.now, x.1.now)) result ≡ mark_at line.now }
{
    let (front, word) = split_last_word(line)?;
    let text = after_mark(word)?;
    Some((front, text))
}

/// The line without its stamp, and the stamp; none where the last word begins like a stamp and isn't one.
#[tactic(auto, unfolding(crate::specs::Reading::stamp_end))]
pub(crate) fn split_stamp_end(line: &[u8]) -> Option<(&[u8], Option<Stamp>)>
    ensures { option_map (λ x. (x.0.now, x.1)) result ≡ stamp_end line.now }
{
    match split_mark(line) {
        None => Some((line, None)),
        Some((front, text)) => {
            let stamp = stamp_of(text)?;
            Some((front, Some(stamp)))
        }
    }
}
