//! Calls of a store.

use crate::words::{number, word};
use annex_base::{Call, NoMemory};
use annex_key::Key;
use object_store::{FailingKeeper, HoldRecord, Keeper, KeeperFault};
use script_words::read_call;
use std::alloc::Global;

/// The byte at this place of a filling.
fn byte_at(place: u64) -> u8 {
    (place % 251) as u8
}

/// A filling of so many bytes.
fn filling(alloc: Global, size: u64) -> Result<Vec<u8>, NoMemory> {
    let mut bytes = Vec::new(alloc);
    for place in 0..size {
        bytes.push(byte_at(place))?;
    }
    Ok(bytes)
}

/// Appends the bytes to the part, in pieces of this length.
fn append<K: Keeper>(
    keeper: &mut K,
    key: &Key,
    bytes: &[u8],
    piece: usize,
) -> Result<(), KeeperFault> {
    for part in bytes.chunks(piece.max(1)) {
        keeper.append_part(key, part)?;
    }
    Ok(())
}

fn is_filling(bytes: &[u8], at: u64) -> bool {
    for (place, byte) in bytes.iter().enumerate() {
        if *byte != byte_at(at.saturating_add(place as u64)) {
            return false;
        }
    }
    true
}

/// How many bytes of the content are those of a filling, as it is read in pieces of this length.
fn read_filling<K: Keeper>(
    alloc: Global,
    keeper: &mut K,
    key: &Key,
    piece: usize,
) -> Result<u64, KeeperFault> {
    let mut room = vec![in alloc; 0_u8; piece]?;
    let mut at = 0_u64;
    for _ in 0..u64::MAX {
        let count = keeper.read_piece(key, at, &mut room)?;
        if count == 0 || !is_filling(&room[..count], at) {
            break;
        }
        at = at.saturating_add(count as u64);
    }
    Ok(at)
}

/// Adds the bytes, a character each.
fn put_bytes(out: &mut String, bytes: &[u8]) -> Result<(), KeeperFault> {
    for byte in bytes {
        out.push(char::from(*byte))?;
    }
    Ok(())
}

/// Adds how many bytes a reading read, and what it left in a room that had dots.
fn put_room(out: &mut String, count: usize, room: &[u8]) -> Result<(), KeeperFault> {
    write!(out, "{count}:")?;
    put_bytes(out, room)
}

fn put_size(out: &mut String, size: Option<u64>) -> Result<(), KeeperFault> {
    match size {
        Some(size) => write!(out, "{size}")?,
        None => out.push('-')?,
    }
    Ok(())
}

/// Reads four bytes of a content from this place on.
fn read<K: Keeper>(
    keeper: &mut K,
    key: &Key,
    at: u64,
    out: &mut String,
) -> Result<(), KeeperFault> {
    let mut room = *b"....";
    let count = keeper.read_piece(key, at, &mut room)?;
    put_room(out, count, &room)
}

/// The same of a part.
fn read_part<K: Keeper>(
    keeper: &mut K,
    key: &Key,
    at: u64,
    out: &mut String,
) -> Result<(), KeeperFault> {
    let mut room = *b"....";
    let count = keeper.read_part(key, at, &mut room)?;
    put_room(out, count, &room)
}

fn put_holds<K: Keeper>(keeper: &mut K, out: &mut String) -> Result<(), KeeperFault> {
    let holds = keeper.holds()?;
    if holds.is_empty() {
        out.push('-')?;
    }
    for hold in &holds {
        write!(out, "{}:{};", hold.number, hold.end)?;
    }
    Ok(())
}

fn put_file<K: Keeper>(keeper: &mut K, path: &[u8], out: &mut String) -> Result<(), KeeperFault> {
    match keeper.file(path)? {
        Some(bytes) => put_bytes(out, &bytes),
        None => {
            out.push('-')?;
            Ok(())
        }
    }
}

fn keep_hold<K: Keeper>(
    alloc: Global,
    keeper: &mut K,
    words: &[&[u8]],
) -> Result<bool, KeeperFault> {
    let Ok(key) = Key::parse(alloc, word(words, 2)) else {
        return Ok(false);
    };
    let number_of_hold = number(words, 1);
    let end = number(words, 3);
    keeper.put_hold(&HoldRecord {
        number: number_of_hold,
        key,
        end,
    })?;
    Ok(true)
}

/// Makes a call that speaks of a key. Whether it is one.
fn call_of_key<K: Keeper>(
    keeper: &mut K,
    call: Call,
    key: &Key,
    words: &[&[u8]],
    out: &mut String,
) -> Result<bool, KeeperFault> {
    match call {
        Call::Has => out.push_str(if keeper.has(key)? { "yes" } else { "no" })?,
        Call::Size => put_size(out, keeper.size(key)?)?,
        Call::PartSize => put_size(out, Some(keeper.part_size(key)?))?,
        Call::Read => read(keeper, key, number(words, 2), out)?,
        Call::ReadPart => read_part(keeper, key, number(words, 2), out)?,
        Call::Append => keeper.append_part(key, word(words, 2))?,
        Call::Commit => keeper.commit(key)?,
        Call::DropPart => keeper.drop_part(key)?,
        Call::Remove => keeper.remove(key)?,
        Call::Hold | Call::Unhold | Call::Holds | Call::PutFile | Call::File => return Ok(false),
    }
    Ok(true)
}

/// Makes the call. Whether the words behind its own are right.
fn call_named<K: Keeper>(
    alloc: Global,
    keeper: &mut K,
    call: Call,
    words: &[&[u8]],
    out: &mut String,
) -> Result<bool, KeeperFault> {
    match call {
        Call::Hold => return keep_hold(alloc, keeper, words),
        Call::Unhold => keeper.remove_hold(number(words, 1))?,
        Call::Holds => put_holds(keeper, out)?,
        Call::PutFile => keeper.put_file(word(words, 1), word(words, 2))?,
        Call::File => put_file(keeper, word(words, 1), out)?,
        _ => match Key::parse(alloc, word(words, 1)) {
            Ok(key) => return call_of_key(keeper, call, &key, words, out),
            Err(_) => return Ok(false),
        },
    }
    Ok(true)
}

/// Fills a part, or reads a filling. Whether the words say so.
fn call_many<K: Keeper>(
    alloc: Global,
    keeper: &mut K,
    words: &[&[u8]],
    out: &mut String,
) -> Result<bool, KeeperFault> {
    let Ok(key) = Key::parse(alloc, word(words, 1)) else {
        return Ok(false);
    };
    if word(words, 0) == b"fill".as_slice() {
        let bytes = filling(alloc, number(words, 2))?;
        append(keeper, &key, &bytes, number(words, 3) as usize)?;
        return Ok(true);
    }
    if word(words, 0) == b"same".as_slice() {
        let count = read_filling(alloc, keeper, &key, number(words, 2) as usize)?;
        put_size(out, Some(count))?;
        return Ok(true);
    }
    Ok(false)
}

/// Lets the next call that the words name fail. Whether they name one.
fn fail<K: FailingKeeper>(keeper: &mut K, words: &[&[u8]]) -> Result<bool, KeeperFault> {
    match read_call(word(words, 1)) {
        Some(call) => {
            keeper.fail_next(call)?;
            Ok(true)
        }
        None => Ok(false),
    }
}

/// Makes the call of a store that the words name, and adds what it answers, if anything. Whether they name one.
pub fn call_store<K: FailingKeeper>(
    alloc: Global,
    keeper: &mut K,
    words: &[&[u8]],
    out: &mut String,
) -> Result<bool, KeeperFault> {
    match read_call(word(words, 0)) {
        Some(call) => call_named(alloc, keeper, call, words, out),
        None if word(words, 0) == b"fail".as_slice() => fail(keeper, words),
        None => call_many(alloc, keeper, words, out),
    }
}
