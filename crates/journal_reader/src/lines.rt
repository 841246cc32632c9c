//! The lines of a text.
ghost use Rattle.std.specs.Prelude.{◌≡◌, ◌<◌, ◌≤◌, length, IfSome, option_map};
ghost use Rattle.journal_reading.specs.Reading.{lines_of};
ghost use Rattle.journal_reader.specs.Steps.{lines_in, lines_by};

use journal_fields::cut;

/// The first line of a text, without its newline, and what stands behind it.
pub(crate) fn next_line(text: &[u8]) -> Option<(&[u8], &[u8])>
    ensures lines { lines_in text.now ≡ lines_by (option_map (λ x. (x.0.now, x.1.now)) result) }
    ensures shorter { IfSome result (λ x. length x.1.now < length text.now) }
{
    cut(text, b'\n')
}

/// How many lines of a text end with a newline, and what stands behind the last of them.
pub(crate) fn measure(text: &[u8]) -> (usize, &[u8])
    ensures count { result.0 ≡ length (lines_in text.now) }
    ensures tail { result.1.now ≡ (lines_of text.now).1 }
    ensures few { result.0 ≤ length text.now }
{
    let mut count = 0;
    let mut rest = text;
    while let Some((_, after)) = cut(rest, b'\n') {
        count += 1;
        rest = after;
    }
    (count, rest)
}
