//! Lines of trust.log.

ghost use Rattle.std.specs.Prelude.{◌≡◌, length};
ghost use Rattle.log_grammar.specs.Reading.{letter_level, level_body, trust_of};

use crate::entry::{Entry, Topic, Value};
use crate::repo::split_repo_line;
use annex_base::Level;

fn letter_level(letter: u8) -> Option<Level>
    ensures { result ≡ letter_level letter }
{
    match letter {
        b'1' => Some(Level::Trusted),
        b'?' => Some(Level::Semitrusted),
        b'0' => Some(Level::Untrusted),
        b'X' => Some(Level::Dead),
        _ => None,
    }
}

fn level_body(body: &[u8]) -> Option<Level>
    ensures { result ≡ level_body body.now }
{
    match body {
        [b' ', letter] => letter_level(*letter),
        _ => None,
    }
}

/// Reads `UUID S timestamp=STAMP`.
#[tactic(auto, unfolding(crate::specs::Reading::trust_of))]
pub(crate) fn read_trust(line: &[u8]) -> Option<Entry>
    ensures { result ≡ trust_of line.now }
{
    let Some((id, body, stamp)) = split_repo_line(line) else {
        return None;
    };
    let level = level_body(body)?;
    Some(Entry {
        topic: Topic::Repo(id),
        stamp,
        value: Value::Level(level),
    })
}
