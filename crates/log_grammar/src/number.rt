//! Lines of the files of numbers of copies.

ghost use Rattle.std.specs.Prelude.{◌≡◌, ◌<◌, ◌≤◌, ◌^◌, length, IfOk};
ghost use Rattle.std.specs.Char.{is_ascii_digit};
ghost use Rattle.std.specs.List.{AllPass, list_all};
ghost use Rattle.std.specs.Str.Parse.{digits_value};
ghost use Rattle.std.specs.Option.{option_map};
ghost use Rattle.log_grammar.specs.Reading.{number_of, copies_of, path_copies_of, number_and_rest, some_text};

use crate::entry::{Entry, Topic, Value};
use crate::stamps::split_stamp_front;
use crate::words::split_first_word;
use annex_base::{NoMemory, Text};
use std::alloc::Global;

fn all_digits(word: &[u8]) -> bool
    ensures { result ≡ list_all is_ascii_digit word.now }
{
    word.iter().all(|b| b.is_ascii_digit())
}

fn value_of(digits: &[u8]) -> u32
    requires digits { AllPass is_ascii_digit digits.now }
    requires short { length digits.now ≤ 9 }
    ensures { result ≡ digits_value 10 digits.now }
{
    let mut value = 0;
    for digit in digits {
        value = value * 10 + u32::from(*digit - b'0');
    }
    value
}

#[tactic(auto, unfolding(crate::specs::Reading::number_of))]
fn number_of(word: &[u8]) -> Option<u32>
    ensures { result ≡ number_of word.now }
{
    if !word.is_empty() && word.len() <= 9 && all_digits(word) {
        Some(value_of(word))
    } else {
        None
    }
}

/// Reads `STAMP NUMBER`.
#[tactic(auto, unfolding(crate::specs::Reading::copies_of))]
pub(crate) fn read_copies(line: &[u8]) -> Option<Entry>
    ensures { result ≡ copies_of line.now }
{
    let Some((stamp, rest)) = split_stamp_front(line) else {
        return None;
    };
    let number = number_of(rest)?;
    Some(Entry {
        topic: Topic::Whole,
        stamp: Some(stamp),
        value: Value::Number(number),
    })
}

fn some_text(text: &[u8]) -> Option<&[u8]>
    ensures { option_map (λ x. x.now) result ≡ some_text text.now }
{
    if text.is_empty() { None } else { Some(text) }
}

/// The number in front, and what follows its space, which isn't empty.
#[tactic(auto, unfolding(crate::specs::Reading::number_and_rest))]
fn split_number(bytes: &[u8]) -> Option<(u32, &[u8])>
    ensures { option_map (λ x. (x.0, x.1.now)) result ≡ number_and_rest bytes.now }
{
    let (word, rest) = split_first_word(bytes)?;
    let number = number_of(word)?;
    let pattern = some_text(rest)?;
    Some((number, pattern))
}

/// Reads `STAMP NUMBER GLOB`.
#[tactic(auto, unfolding(crate::specs::Reading::path_copies_of))]
pub(crate) fn read_path_copies(alloc: Global, line: &[u8]) -> Result<Option<Entry>, NoMemory>
    ensures { IfOk result (λ o. o ≡ path_copies_of line.now) }
{
    let Some((stamp, rest)) = split_stamp_front(line) else {
        return Ok(None);
    };
    let Some((number, pattern)) = split_number(rest) else {
        return Ok(None);
    };
    let pattern = Text::new(alloc, pattern)?;
    Ok(Some(Entry {
        topic: Topic::Pattern(pattern),
        stamp: Some(stamp),
        value: Value::Number(number),
    }))
}
