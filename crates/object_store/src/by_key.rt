//! Contents and parts by key. What takes memory comes before the first change.
ghost use Rattle.std.specs.Prelude.{◌≡◌, ◌<◌, ◌^◌, ◌++◌, List, ℕ, [], Some, None, Option, length, IsSome, IfSome, OnOk, OnErr};
ghost use Rattle.std.specs.Option.{option_map};
ghost use Rattle.object_store.specs.ByKey.{bytes_at, part_at};
ghost use Rattle.object_store.specs.Stores.{with_at, read_length, room_after_read, AreSmall, AreShort};

use crate::blocks::Blocks;
use annex_base::NoMemory;
use annex_key::Key;
use std::alloc::Global;
use std::collections::BTreeMap;

/// The size of what the key has.
pub fn size_of(map: &BTreeMap<Key, Blocks>, key: &Key) -> Option<u64>
    ensures value { result ≡ option_map length (bytes_at map.now.entries key.now) }
    ensures bound { IfSome result (λ n. n < 2 ^ 62) }
{
    match map.get(key) {
        Some(blocks) => Some(blocks.len()),
        None => None,
    }
}

/// The number of bytes that the key has.
pub fn count_of(map: &BTreeMap<Key, Blocks>, key: &Key) -> u64
    ensures value { result ≡ length (part_at map.now.entries key.now) }
    ensures bound { result < 2 ^ 62 }
{
    match map.get(key) {
        Some(blocks) => blocks.len(),
        None => 0,
    }
}

/// Reads what the key has.
pub fn read(map: &BTreeMap<Key, Blocks>, key: &Key, at: u64, room: &mut [u8]) -> usize
    ensures count { result ≡ read_length (part_at map.now.entries key.now) at (length room.old) }
    ensures room { room.new ≡ room_after_read (part_at map.now.entries key.now) at room.old }
{
    match map.get(key) {
        Some(blocks) => blocks.read(at, room),
        None => 0,
    }
}

fn put(map: &mut BTreeMap<Key, Blocks>, key: Key, blocks: Blocks) -> Result<(), NoMemory>
    ensures ok { OnOk result (bytes_at map.new.entries ≡ with_at (bytes_at map.old.entries) key (Some blocks)) }
    ensures err { OnErr result (map.new.entries ≡ map.old.entries) }
{
    map.insert(key, blocks)?;
    Ok(())
}

/// Puts the piece at the end of what the key has.
pub fn append(
    parts: &mut BTreeMap<Key, Blocks>,
    alloc: Global,
    key: &Key,
    piece: &[u8],
) -> Result<(), NoMemory>
    requires { AreShort (part_at parts.old.entries) }
    ensures ok { OnOk result (part_at parts.new.entries ≡ with_at (part_at parts.old.entries) key.now (part_at parts.old.entries key.now ++ piece.now)) }
    ensures err { OnErr result (part_at parts.new.entries ≡ part_at parts.old.entries) }
    ensures short { AreShort (part_at parts.new.entries) }
{
    if let Some(blocks) = parts.get_mut(key) {
        blocks.append(piece)?;
        return Ok(());
    }
    add(parts, alloc, key, piece)
}

fn add(
    parts: &mut BTreeMap<Key, Blocks>,
    alloc: Global,
    key: &Key,
    piece: &[u8],
) -> Result<(), NoMemory>
    requires { AreShort (part_at parts.old.entries) }
    ensures ok { OnOk result (part_at parts.new.entries ≡ with_at (part_at parts.old.entries) key.now piece.now) }
    ensures err { OnErr result (part_at parts.new.entries ≡ part_at parts.old.entries) }
    ensures short { AreShort (part_at parts.new.entries) }
{
    let mut blocks = Blocks::new(alloc);
    blocks.append(piece)?;
    let own = key.copy()?;
    put(parts, own, blocks)?;
    Ok(())
}

/// Takes the part off, which is empty where there is none.
pub fn take_part(parts: &mut BTreeMap<Key, Blocks>, alloc: Global, key: &Key) -> Blocks
    requires { AreShort (part_at parts.old.entries) }
    ensures value { result ≡ part_at parts.old.entries key.now }
    ensures parts { part_at parts.new.entries ≡ with_at (part_at parts.old.entries) key.now [] }
    ensures short { AreShort (part_at parts.new.entries) }
{
    match parts.remove(key) {
        Some(part) => part,
        None => Blocks::new(alloc),
    }
}

/// Takes the content off, if it is there.
pub fn take_content(contents: &mut BTreeMap<Key, Blocks>, key: &Key)
    requires { AreSmall (bytes_at contents.old.entries) }
    ensures contents { bytes_at contents.new.entries ≡ with_at (bytes_at contents.old.entries) key.now None }
    ensures small { AreSmall (bytes_at contents.new.entries) }
{
    contents.remove(key);
}

// Makes a place for a content, where there is none.
fn make_place(
    contents: &mut BTreeMap<Key, Blocks>,
    alloc: Global,
    key: &Key,
) -> Result<(), NoMemory>
    ensures there { OnOk result (IsSome (bytes_at contents.new.entries key.now)) }
    ensures others { OnOk result ((w : Option (List ℕ)) → with_at (bytes_at contents.new.entries) key.now w ≡ with_at (bytes_at contents.old.entries) key.now w) }
    ensures err { OnErr result (bytes_at contents.new.entries ≡ bytes_at contents.old.entries) }
{
    if contents.contains_key(key) {
        return Ok(());
    }
    let own = key.copy()?;
    let empty = Blocks::new(alloc);
    put(contents, own, empty)?;
    Ok(())
}

fn fill_place(contents: &mut BTreeMap<Key, Blocks>, key: &Key, content: Blocks)
    requires { IsSome (bytes_at contents.old.entries key.now) }
    ensures { bytes_at contents.new.entries ≡ with_at (bytes_at contents.old.entries) key.now (Some content) }
{
    match contents.get_mut(key) {
        Some(place) => *place = content,
        None => unreachable!(),
    }
}

/// Moves the part to the contents.
pub fn commit(
    contents: &mut BTreeMap<Key, Blocks>,
    parts: &mut BTreeMap<Key, Blocks>,
    alloc: Global,
    key: &Key,
) -> Result<(), NoMemory>
    requires small { AreSmall (bytes_at contents.old.entries) }
    requires short { AreShort (part_at parts.old.entries) }
    ensures content { OnOk result (bytes_at contents.new.entries ≡ with_at (bytes_at contents.old.entries) key.now (Some (part_at parts.old.entries key.now))) }
    ensures part { OnOk result (part_at parts.new.entries ≡ with_at (part_at parts.old.entries) key.now []) }
    ensures err_content { OnErr result (bytes_at contents.new.entries ≡ bytes_at contents.old.entries) }
    ensures err_part { OnErr result (part_at parts.new.entries ≡ part_at parts.old.entries) }
    ensures small { AreSmall (bytes_at contents.new.entries) }
    ensures short { AreShort (part_at parts.new.entries) }
{
    make_place(contents, alloc, key)?;
    let part = take_part(parts, alloc, key);
    fill_place(contents, key, part);
    Ok(())
}
