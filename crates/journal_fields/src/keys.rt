//! Keys, and the words that name them.
ghost use Rattle.std.specs.Prelude.{◌≡◌, IfOk, Some, None, if◌then◌else◌, option_map};
ghost use Rattle.std.specs.List.{prefix_len};
ghost use Rattle.annex_base.specs.Lines.{is_not_space};
ghost use Rattle.script_words.specs.Fields.{is_key};
ghost use Rattle.script_words.specs.Words.{quote, has_space};
ghost use Rattle.journal_reading.specs.Forms.{cut};
ghost use Rattle.journal_reading.specs.Fields.{key, key_last, quoted_cut, plain_cut, word_cut, path_key, named_key};

use crate::marks::{behind, cut};
use crate::texts::is_line_path;
use annex_base::{NoMemory, Text};
use annex_key::{Key, KeyFault, Tree};
use std::alloc::Global;

/// A key, by its text (git-annex internals: keys).
pub fn read_key(alloc: Global, word: &[u8]) -> Result<Option<Key>, NoMemory>
    ensures { IfOk result (λ o. o ≡ key.read word.now) }
{
    match Key::parse(alloc, word) {
        Ok(key) => Ok(Some(key)),
        Err(KeyFault::NoMemory) => Err(NoMemory),
        Err(_) => Ok(None),
    }
}

/// The key that ends its line, behind `key=`.
pub fn read_key_last(alloc: Global, bytes: &[u8]) -> Result<Option<Key>, NoMemory>
    ensures { IfOk result (λ o. o ≡ key_last.read bytes.now) }
{
    let Some(text) = behind(bytes, b"key=") else {
        return Ok(None);
    };
    read_key(alloc, text)
}

fn has_space(word: &[u8]) -> bool
    ensures { result ≡ has_space word.now }
{
    word.iter().any(|b| *b == b' ')
}

fn plain_len(bytes: &[u8]) -> usize
    ensures { result ≡ prefix_len is_not_space bytes.now }
{
    bytes.iter().take_while(|b| **b != b' ').count()
}

/// The word up to the quote that closes it, which must be in quotes for a space, and what stands behind it.
fn cut_quoted(bytes: &[u8]) -> Option<(&[u8], &[u8])>
    ensures { option_map (λ x. (x.0.now, x.1.now)) result ≡ quoted_cut (cut quote bytes.now) }
{
    let (word, rest) = cut(bytes, b'"')?;
    if has_space(word) {
        Some((word, rest))
    } else {
        None
    }
}

/// The word up to the next space, and what stands from there on.
fn cut_plain(bytes: &[u8]) -> (&[u8], &[u8])
    ensures { (result.0.now, result.1.now) ≡ plain_cut bytes.now }
{
    let end = plain_len(bytes);
    bytes.split_at(end)
}

/// A word as it is printed, and what stands behind it: in quotes exactly where it has a space.
pub fn cut_word(bytes: &[u8]) -> Option<(&[u8], &[u8])>
    ensures { option_map (λ x. (x.0.now, x.1.now)) result ≡ word_cut bytes.now }
{
    match bytes.split_first() {
        None => None,
        Some((b'"', quoted)) => cut_quoted(quoted),
        Some(_) => Some(cut_plain(bytes)),
    }
}

/// The key that the path has in the tree, with the path.
fn read_path_key(
    alloc: Global,
    tree: &Tree,
    path: &[u8],
) -> Result<Option<(Key, Option<Text>)>, NoMemory>
    ensures { IfOk result (λ o. o ≡ path_key tree.now path.now) }
{
    if !is_line_path(path) {
        return Ok(None);
    }
    let Some(key) = tree.key(path) else {
        return Ok(None);
    };
    let key = key.copy()?;
    let path = Text::new(alloc, path)?;
    Ok(Some((key, Some(path))))
}

fn read_whole_key(alloc: Global, text: &[u8]) -> Result<Option<(Key, Option<Text>)>, NoMemory>
    ensures { IfOk result (λ o. o ≡ (if is_key text.now then Some (text.now, None) else None)) }
{
    match Key::parse(alloc, text) {
        Ok(key) => Ok(Some((key, None))),
        Err(KeyFault::NoMemory) => Err(NoMemory),
        Err(_) => Ok(None),
    }
}

/// The key that a word names: by its text, or by `@` and a path of the tree, which then comes with it.
pub fn read_named_key(
    alloc: Global,
    tree: &Tree,
    word: &[u8],
) -> Result<Option<(Key, Option<Text>)>, NoMemory>
    ensures { IfOk result (λ o. o ≡ named_key tree.now word.now) }
{
    match word.split_first() {
        None => Ok(None),
        Some((b'@', path)) => read_path_key(alloc, tree, path),
        Some(_) => read_whole_key(alloc, word),
    }
}
