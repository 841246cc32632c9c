//! The first and the last word of a line.

ghost use Rattle.std.specs.Prelude.{◌≡◌, length};
ghost use Rattle.std.specs.List.{position_or_len, suffix_len};
ghost use Rattle.std.specs.Option.{option_map};
ghost use Rattle.annex_base.specs.Lines.{is_not_space, is_space};
ghost use Rattle.log_grammar.specs.Reading.{first_word, last_word};

pub(crate) fn first_len(line: &[u8]) -> usize
    ensures { result ≡ position_or_len is_space line.now }
{
    line.iter().take_while(|b| **b != b' ').count()
}

fn last_len(line: &[u8]) -> usize
    ensures { result ≡ suffix_len is_not_space line.now }
{
    line.iter().rev().take_while(|b| **b != b' ').count()
}

/// What stands before the first space, and after it.
#[tactic(auto, unfolding(crate::specs::Reading::first_word))]
pub(crate) fn split_first_word(line: &[u8]) -> Option<(&[u8], &[u8])>
    ensures { option_map (λ x. (x.0.now, x.1.now)) result ≡ first_word line.now }
{
    let end = first_len(line);
    if end < line.len() {
        let (word, _) = line.split_at(end);
        let (_, rest) = line.split_at(end + 1);
        Some((word, rest))
    } else {
        None
    }
}

/// What stands before the last space, and after it.
#[tactic(auto, unfolding(crate::specs::Reading::last_word))]
pub(crate) fn split_last_word(line: &[u8]) -> Option<(&[u8], &[u8])>
    ensures { option_map (λ x. (x.0.now, x.1.now)) result ≡ last_word line.now }
{
    let length = last_len(line);
    if length < line.len() {
        let (front, _) = line.split_at(line.len() - length - 1);
        let (_, word) = line.split_at(line.len() - length);
        Some((front, word))
    } else {
        None
    }
}
