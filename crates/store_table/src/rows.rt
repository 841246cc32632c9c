//! Calls of a lock table.
ghost use Rattle.std.specs.Prelude.{◌≡◌, ◌≤◌, true};
ghost use Rattle.content_lock.specs.Rows.{is_filling};

use crate::words::{number, word};
use annex_key::Key;
use content_lock::{BarRefused, FillRefused, LockTable, RecoverRefused, RemoveRefused, Removed};
use object_store::{Keeper, KeeperFault};
use std::alloc::Global;

/// The job that puts the bars.
const JOB: u32 = 7;

fn put_hold(out: &mut String, hold: u64, until: Option<u64>) -> Result<(), KeeperFault> {
    match until {
        Some(end) => write!(out, "held:{hold}:{end}")?,
        None => write!(out, "held:{hold}:open")?,
    }
    Ok(())
}

/// Puts a bar and takes it off again, or says why there is none.
fn bar<K: Keeper>(
    table: &mut LockTable,
    keeper: &mut K,
    key: &Key,
    now: u64,
    out: &mut String,
) -> Result<(), KeeperFault> {
    match table.bar(keeper, key, JOB, now) {
        Ok(bar) => {
            table.unbar(bar);
            out.push_str("free")?;
        }
        Err(BarRefused::Absent) => out.push_str("absent")?,
        Err(BarRefused::Barred { job }) => write!(out, "barred:{job}")?,
        Err(BarRefused::Held { hold, until }) => put_hold(out, hold, until)?,
        Err(BarRefused::StoreFault) => return Err(KeeperFault::Failed),
        Err(BarRefused::NoMemory) => return Err(KeeperFault::NoMemory),
    }
    Ok(())
}

/// Removes a content as an order does, or says why it stays.
fn remove<K: Keeper>(
    table: &LockTable,
    keeper: &mut K,
    key: &Key,
    now: u64,
    out: &mut String,
) -> Result<(), KeeperFault> {
    match table.remove_now(keeper, key, now) {
        Ok(Removed::Gone) => out.push_str("gone")?,
        Ok(Removed::Absent) => out.push_str("absent")?,
        Err(RemoveRefused::Barred { job }) => write!(out, "barred:{job}")?,
        Err(RemoveRefused::Held { hold, until }) => put_hold(out, hold, until)?,
        Err(RemoveRefused::StoreFault { call: _ }) => return Err(KeeperFault::Failed),
    }
    Ok(())
}

/// Why a key isn't filled a second time.
fn fill_again(table: &mut LockTable, key: &Key) -> Option<FillRefused>
    requires { is_filling table.old key.now ≡ true }
    ensures { table.new ≡ table.old }
{
    match table.fill(key) {
        Ok(fill) => {
            table.unfill(fill);
            None
        }
        Err(e) => Some(e),
    }
}

/// Fills a key twice and gives the fill back. Whether it was filled once.
fn is_filled_once(table: &mut LockTable, key: &Key) -> Result<bool, KeeperFault> {
    match table.fill(key) {
        Ok(first) => {
            let is_told = *first.key() == *key && table.is_filling(key);
            let second = fill_again(table, key);
            table.unfill(first);
            Ok(is_told && second == Some(FillRefused::Busy) && !table.is_filling(key))
        }
        Err(FillRefused::Busy) => Ok(false),
        Err(FillRefused::NoMemory) => Err(KeeperFault::NoMemory),
    }
}

/// Makes the table anew from the records of the store.
fn recover<K: Keeper>(
    alloc: Global,
    table: &mut LockTable,
    keeper: &mut K,
    now: u64,
) -> Result<(), KeeperFault>
    requires { now ≤ 1000000000 }
{
    match LockTable::recover(alloc, keeper, now) {
        Ok(made) => {
            *table = made;
            Ok(())
        }
        Err(RecoverRefused::StoreFault) => Err(KeeperFault::Failed),
        Err(RecoverRefused::NoMemory) => Err(KeeperFault::NoMemory),
    }
}

/// Makes the call of a lock table that the words name, and adds what it answers, if anything. Whether they name one.
pub fn call_table<K: Keeper>(
    alloc: Global,
    table: &mut LockTable,
    keeper: &mut K,
    words: &[&[u8]],
    out: &mut String,
) -> Result<bool, KeeperFault> {
    let now = number(words, 1);
    if word(words, 0) == b"recover".as_slice() {
        recover(alloc, table, keeper, now)?;
        return Ok(true);
    }
    if word(words, 0) == b"restart".as_slice() {
        table.restart(now);
        return Ok(true);
    }
    call_row(alloc, table, keeper, words, out)
}

/// The same for a call that speaks of a key.
fn call_row<K: Keeper>(
    alloc: Global,
    table: &mut LockTable,
    keeper: &mut K,
    words: &[&[u8]],
    out: &mut String,
) -> Result<bool, KeeperFault> {
    let Ok(key) = Key::parse(alloc, word(words, 1)) else {
        return Ok(false);
    };
    let now = number(words, 2);
    match word(words, 0) {
        b"bar" => bar(table, keeper, &key, now, out)?,
        b"order" => remove(table, keeper, &key, now, out)?,
        b"twice" => {
            if is_filled_once(table, &key)? {
                out.push_str("busy")?;
            }
        }
        _ => return Ok(false),
    }
    Ok(true)
}
