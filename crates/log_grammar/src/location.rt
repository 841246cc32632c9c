//! Lines of location logs.

ghost use Rattle.std.specs.Prelude.{◌≡◌, length};
ghost use Rattle.log_grammar.specs.Reading.{letter_status, status_of, location_of};

use crate::entry::{Entry, Topic, Value};
use crate::repo::repo_of;
use crate::stamps::split_stamp_front;
use crate::words::split_first_word;

fn letter_status(letter: u8) -> Option<Value>
    ensures { result ≡ letter_status letter }
{
    match letter {
        b'1' => Some(Value::Present),
        b'0' => Some(Value::Absent),
        b'X' => Some(Value::Gone),
        _ => None,
    }
}

fn status_of(word: &[u8]) -> Option<Value>
    ensures { result ≡ status_of word.now }
{
    match word {
        [letter] => letter_status(*letter),
        _ => None,
    }
}

/// Reads `STAMP STATUS UUID`.
#[tactic(auto, unfolding(crate::specs::Reading::location_of))]
pub(crate) fn read_location(line: &[u8]) -> Option<Entry>
    ensures { result ≡ location_of line.now }
{
    let Some((stamp, rest)) = split_stamp_front(line) else {
        return None;
    };
    let (word, rest) = split_first_word(rest)?;
    let status = status_of(word)?;
    let id = repo_of(rest)?;
    Some(Entry {
        topic: Topic::Repo(id),
        stamp: Some(stamp),
        value: status,
    })
}
