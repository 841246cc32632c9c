//! The line of a change of the tree.
ghost use Rattle.std.specs.Prelude.{◌≡◌, IfOk, option_map};
ghost use Rattle.journal_reading.specs.Fields.{key};
ghost use Rattle.journal_reading.specs.Lines.{sized, sized_at, sized_in, is_line_path, path_parts, a_mark, path_form};

use annex_base::{NoMemory, Text};
use annex_key::Key;
use journal_fields::{behind, cut, is_line_path, read_key, read_small};
use run_data::TreeMark;
use std::alloc::Global;

/// A path, and the key behind the space that follows it.
fn read_path_and_key(
    alloc: Global,
    path: &[u8],
    bytes: &[u8],
) -> Result<Option<(Text, Key)>, NoMemory>
    ensures { IfOk result (λ o. o ≡ sized_in is_line_path key path.now bytes.now) }
{
    let Some((first, rest)) = bytes.split_first() else {
        return Ok(None);
    };
    let stands = *first == b' ' && is_line_path(path);
    if !stands {
        return Ok(None);
    }
    let Some(key) = read_key(alloc, rest)? else {
        return Ok(None);
    };
    let path = Text::new(alloc, path)?;
    Ok(Some((path, key)))
}

/// A path of so many bytes, and its key.
fn read_sized_at(alloc: Global, size: usize, bytes: &[u8]) -> Result<Option<(Text, Key)>, NoMemory>
    ensures { IfOk result (λ o. o ≡ sized_at is_line_path key size bytes.now) }
{
    if size < bytes.len() {
        let (path, rest) = bytes.split_at(size);
        read_path_and_key(alloc, path, rest)
    } else {
        Ok(None)
    }
}

/// How many bytes a path has, the path, and its key.
fn read_sized(alloc: Global, bytes: &[u8]) -> Result<Option<(Text, Key)>, NoMemory>
    ensures { IfOk result (λ o. o ≡ (sized is_line_path key).read bytes.now) }
{
    let Some((word, rest)) = cut(bytes, b' ') else {
        return Ok(None);
    };
    let Some(size) = read_small(word) else {
        return Ok(None);
    };
    read_sized_at(alloc, size as usize, rest)
}

/// The parts of the line of a change, behind `path`.
fn read_parts(alloc: Global, bytes: &[u8]) -> Result<Option<TreeMark>, NoMemory>
    ensures { IfOk result (λ o. o ≡ option_map a_mark (path_parts.read bytes.now)) }
{
    let Some((word, rest)) = cut(bytes, b' ') else {
        return Ok(None);
    };
    let Some(place) = read_small(word) else {
        return Ok(None);
    };
    let Some((path, key)) = read_sized(alloc, rest)? else {
        return Ok(None);
    };
    Ok(Some(TreeMark { place, path, key }))
}

/// A change of the tree, by its line: how many entries stand before it, how many bytes its path has, the path, and its
/// key.
pub fn read_path_line(alloc: Global, line: &[u8]) -> Result<Option<TreeMark>, NoMemory>
    ensures { IfOk result (λ o. o ≡ path_form.read line.now) }
{
    let Some(bytes) = behind(line, b"path ") else {
        return Ok(None);
    };
    if let Some(mark) = read_parts(alloc, bytes)? {
        return Ok(Some(mark));
    }
    Ok(None)
}
