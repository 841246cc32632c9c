//! A case is one store that is empty at first, with the lock table beside it, and the calls that are made of the two.

use crate::rows::call_table;
use crate::store::call_store;
use crate::words::words_of;
use content_lock::LockTable;
use object_store::{FailingKeeper, KeeperFault, MemoryKeeper};
use std::alloc::Global;
use table_cases::{Case, Subject, TableFault};

/// The most calls of a case.
const MOST: usize = 100;

/// The calls of a store.
pub struct StoreCases;

/// Makes the call, and adds what it answers: `ok` where that is nothing, and `failed` where it failed.
fn call<K: FailingKeeper>(
    alloc: Global,
    table: &mut LockTable,
    keeper: &mut K,
    words: &[&[u8]],
    out: &mut String,
) -> Result<(), TableFault> {
    let before = out.len();
    let is_named = match call_store(alloc, keeper, words, out) {
        Ok(false) => call_table(alloc, table, keeper, words, out),
        answer => answer,
    };
    match is_named {
        Ok(true) => {
            if out.len() == before {
                out.push_str("ok")?;
            }
            Ok(())
        }
        Ok(false) => Err(TableFault::Wrong),
        Err(KeeperFault::Failed) => {
            out.push_str("failed")?;
            Ok(())
        }
        Err(KeeperFault::NoMemory) => Err(TableFault::NoMemory),
    }
}

impl Subject for StoreCases {
    fn answer(&self, alloc: Global, case: &Case, out: &mut String) -> Result<(), TableFault> {
        let mut keeper = MemoryKeeper::new(alloc)?;
        let mut table = LockTable::new(alloc)?;
        for place in 0..MOST {
            let text = case.text(place);
            if text.is_empty() {
                break;
            }
            if place > 0 {
                out.push(' ')?;
            }
            let words = words_of(alloc, text)?;
            call(alloc, &mut table, &mut keeper, &words, out)?;
        }
        Ok(())
    }
}
