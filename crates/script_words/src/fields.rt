//! What single words of a line say.
ghost use Rattle.std.specs.Prelude.{◌≡◌, ◌↔◌, IsTrue};
ghost use Rattle.std.specs.List.{list_all};
ghost use Rattle.std.specs.Str.{bytes_eq};
ghost use Rattle.annex_base.specs.Lines.{slash};
ghost use Rattle.annex_base.specs.RepoText.{repo_of};
ghost use Rattle.log_grammar.specs.LineText.{is_group, is_group_byte};
ghost use Rattle.script_words.specs.Fields.{is_name, is_name_byte, is_path, begins, ends, level_word, level_of, call_word, call_of, offset_of, clock_of, version_of, is_nolock};

use crate::marks::behind;
use crate::numbers::read_number;
use crate::utf8::is_text;
use annex_base::{Call, Level, RepoId};

/// The greatest offset and the greatest clock of a crash, in milliseconds.
const GREATEST_OFFSET: u64 = 100_000_000_000;

const LEVELS: [Level; 4] = [
    Level::Trusted,
    Level::Semitrusted,
    Level::Untrusted,
    Level::Dead,
];

const CALLS: [Call; 14] = [
    Call::Has,
    Call::Size,
    Call::Read,
    Call::PartSize,
    Call::ReadPart,
    Call::Append,
    Call::Commit,
    Call::DropPart,
    Call::Remove,
    Call::Hold,
    Call::Unhold,
    Call::Holds,
    Call::PutFile,
    Call::File,
];

/// Whether the word is this one.
pub fn is_word(word: &[u8], other: &[u8]) -> bool
    ensures test { result ≡ bytes_eq other.now word.now }
    ensures same { IsTrue result ↔ (word.now ≡ other.now) }
{
    other == word
}

fn is_name_char(b: u8) -> bool
    ensures { result ≡ is_name_byte b }
{
    b.is_ascii_lowercase() || b.is_ascii_digit() || b == b'_'
}

fn all_name_chars(word: &[u8]) -> bool
    ensures { result ≡ list_all is_name_byte word.now }
{
    word.iter().all(|b| is_name_char(*b))
}

/// Whether the word may name a repository.
pub fn is_name(word: &[u8]) -> bool
    ensures { result ≡ is_name word.now }
{
    match word {
        [] => false,
        [first, rest @ ..] => {
            first.is_ascii_lowercase() && all_name_chars(rest) && rest.len() <= 15
        }
    }
}

/// The identifier that the word spells, in lower case and with its hyphens (RFC 9562).
pub fn read_id(word: &[u8]) -> Option<RepoId>
    ensures { result ≡ repo_of word.now }
{
    RepoId::parse(word).ok()
}

/// The word of a level of trust (git-annex trust).
pub fn level_text(level: Level) -> &'static [u8]
    ensures { result.now ≡ level_word level }
{
    match level {
        Level::Trusted => b"trusted",
        Level::Semitrusted => b"semitrusted",
        Level::Untrusted => b"untrusted",
        Level::Dead => b"dead",
    }
}

/// The level of trust that the word names (git-annex trust).
pub fn read_level(word: &[u8]) -> Option<Level>
    ensures { result ≡ level_of word.now }
{
    LEVELS
        .iter()
        .copied()
        .find(|level| level_text(*level) == word)
}

/// The word of a call of a store (own).
pub fn call_text(call: Call) -> &'static [u8]
    ensures { result.now ≡ call_word call }
{
    match call {
        Call::Has => b"has",
        Call::Size => b"size",
        Call::Read => b"read",
        Call::PartSize => b"partsize",
        Call::ReadPart => b"readpart",
        Call::Append => b"append",
        Call::Commit => b"commit",
        Call::DropPart => b"droppart",
        Call::Remove => b"remove",
        Call::Hold => b"hold",
        Call::Unhold => b"unhold",
        Call::Holds => b"holds",
        Call::PutFile => b"putfile",
        Call::File => b"file",
    }
}

/// The call of a store that the word names.
pub fn read_call(word: &[u8]) -> Option<Call>
    ensures { result ≡ call_of word.now }
{
    CALLS.iter().copied().find(|call| call_text(*call) == word)
}

fn all_group_bytes(word: &[u8]) -> bool
    ensures { result ≡ list_all is_group_byte word.now }
{
    word.iter().all(|b| !b.is_ascii_control() && *b != b' ')
}

/// Whether the word may name a group.
pub fn is_group(word: &[u8]) -> bool
    ensures { result ≡ is_group word.now }
{
    match word {
        [] => false,
        _ => all_group_bytes(word),
    }
}

fn begins_with_slash(word: &[u8]) -> bool
    ensures { result ≡ begins slash word.now }
{
    match word.first() {
        None => false,
        Some(b) => *b == b'/',
    }
}

fn ends_with_slash(word: &[u8]) -> bool
    ensures { result ≡ ends slash word.now }
{
    match word.last() {
        None => false,
        Some(b) => *b == b'/',
    }
}

/// Whether the word may be a path in the tree.
pub fn is_path(word: &[u8]) -> bool
    ensures { result ≡ is_path word.now }
{
    word.len() >= 1
        && word.len() <= 1024
        && !begins_with_slash(word)
        && !ends_with_slash(word)
        && is_text(word)
}

/// The milliseconds of an option `offset=MS`, at most 100,000,000,000.
pub fn read_offset(word: &[u8]) -> Option<u64>
    ensures { result ≡ offset_of word.now }
{
    let milliseconds = behind(word, b"offset=")?;
    read_number(milliseconds, GREATEST_OFFSET)
}

/// The milliseconds of an option `clock=MS`, at most 100,000,000,000.
pub fn read_clock(word: &[u8]) -> Option<u64>
    ensures { result ≡ clock_of word.now }
{
    let milliseconds = behind(word, b"clock=")?;
    read_number(milliseconds, GREATEST_OFFSET)
}

/// The version of an option `version=V`, from 1 to 3.
pub fn read_version(word: &[u8]) -> Option<u8>
    ensures { result ≡ version_of word.now }
{
    let version = behind(word, b"version=")?;
    match read_number(version, 3) {
        Some(number) if number >= 1 => Some(number as u8),
        _ => None,
    }
}

/// Whether the word is the option `nolock`.
pub fn is_nolock(word: &[u8]) -> bool
    ensures { result ≡ is_nolock word.now }
{
    is_word(word, b"nolock")
}
