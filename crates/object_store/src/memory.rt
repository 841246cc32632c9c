//! A store in memory.
ghost use Rattle.std.specs.Prelude.{◌≡◌, Some, None, [], IfOk};
ghost use Rattle.object_store.specs.ByKey.{bytes_at, part_at};
ghost use Rattle.object_store.specs.CallCounts.{calls_left, no_calls};
ghost use Rattle.object_store.specs.HoldList.{records_of};
ghost use Rattle.object_store.specs.Stores.{AreSmall, AreShort};

use crate::blocks::Blocks;
use crate::by_key::{append, commit, count_of, read, size_of, take_content, take_part};
use crate::failures::Failures;
use crate::hold::Hold;
use crate::keeper::{FailingKeeper, HoldRecord, Keeper, KeeperFault};
use crate::{file_list, hold_list};
use annex_base::{Call, Failed, NoMemory, Text};
use annex_key::Key;
use std::alloc::Global;
use std::cmp::Reverse;
use std::collections::BTreeMap;

/// A store in memory, which tells all that it has and fails exactly as it is told to (own). Contents and parts stand in
/// blocks.
#[derive(Drop)]
pub struct MemoryKeeper {
    alloc: Global,
    contents: BTreeMap<Key, Blocks>,
    parts: BTreeMap<Key, Blocks>,
    holds: BTreeMap<Reverse<u64>, Hold>,
    files: BTreeMap<Text, Text>,
    failures: Failures,
    ghost small: { AreSmall (bytes_at contents.entries) },
    ghost short: { AreShort (part_at parts.entries) },
}

impl MemoryKeeper {
    /// A store that has nothing, and of which no call is to fail.
    pub fn new(alloc: Global) -> Result<MemoryKeeper, NoMemory>
        ensures contents { IfOk result (λ s. ⟦<MemoryKeeper as Keeper>⟧.contents s ≡ Some (λ key. None)) }
        ensures parts { IfOk result (λ s. ⟦<MemoryKeeper as Keeper>⟧.parts s ≡ Some (λ key. [])) }
        ensures records { IfOk result (λ s. ⟦<MemoryKeeper as Keeper>⟧.records s ≡ Some []) }
        ensures files { IfOk result (λ s. ⟦<MemoryKeeper as Keeper>⟧.files s ≡ Some (λ path. None)) }
        ensures faults { IfOk result (λ s. ⟦<MemoryKeeper as Keeper>⟧.faults s ≡ 0) }
        ensures failing { IfOk result (λ s. ⟦<MemoryKeeper as Keeper>⟧.failing s ≡ Some (λ call. 0)) }
    {
        Ok(MemoryKeeper {
            alloc,
            contents: BTreeMap::new(alloc),
            parts: BTreeMap::new(alloc),
            holds: BTreeMap::new(alloc),
            files: BTreeMap::new(alloc),
            failures: Failures::new(),
        })
    }
}

impl Keeper for MemoryKeeper {
    ghost contents = { λ s. Some (bytes_at s.contents.entries) };

    ghost parts = { λ s. Some (part_at s.parts.entries) };

    ghost records = { λ s. Some (records_of s.holds.entries) };

    ghost files = { λ s. Some (bytes_at s.files.entries) };

    ghost faults = { λ s. s.failures.count };

    ghost failing = { λ s. Some (calls_left s.failures.left) };

    fn has(&mut self, key: &Key) -> Result<bool, Failed> {
        if self.failures.fails(Call::Has) {
            return Err(Failed);
        }
        Ok(self.contents.contains_key(key))
    }

    fn size(&mut self, key: &Key) -> Result<Option<u64>, KeeperFault> {
        if self.failures.fails(Call::Size) {
            return Err(KeeperFault::Failed);
        }
        Ok(size_of(&self.contents, key))
    }

    fn read_piece(&mut self, key: &Key, at: u64, room: &mut [u8]) -> Result<usize, KeeperFault> {
        if self.failures.fails(Call::Read) {
            return Err(KeeperFault::Failed);
        }
        Ok(read(&self.contents, key, at, room))
    }

    fn part_size(&mut self, key: &Key) -> Result<u64, KeeperFault> {
        if self.failures.fails(Call::PartSize) {
            return Err(KeeperFault::Failed);
        }
        Ok(count_of(&self.parts, key))
    }

    fn read_part(&mut self, key: &Key, at: u64, room: &mut [u8]) -> Result<usize, KeeperFault> {
        if self.failures.fails(Call::ReadPart) {
            return Err(KeeperFault::Failed);
        }
        Ok(read(&self.parts, key, at, room))
    }

    fn append_part(&mut self, key: &Key, piece: &[u8]) -> Result<(), KeeperFault> {
        if self.failures.fails(Call::Append) {
            return Err(KeeperFault::Failed);
        }
        append(&mut self.parts, self.alloc, key, piece)?;
        Ok(())
    }

    fn commit(&mut self, key: &Key) -> Result<(), KeeperFault> {
        if self.failures.fails(Call::Commit) {
            return Err(KeeperFault::Failed);
        }
        commit(&mut self.contents, &mut self.parts, self.alloc, key)?;
        Ok(())
    }

    fn drop_part(&mut self, key: &Key) -> Result<(), Failed> {
        if self.failures.fails(Call::DropPart) {
            return Err(Failed);
        }
        let _part = take_part(&mut self.parts, self.alloc, key);
        Ok(())
    }

    fn remove(&mut self, key: &Key) -> Result<(), Failed> {
        if self.failures.fails(Call::Remove) {
            return Err(Failed);
        }
        take_content(&mut self.contents, key);
        Ok(())
    }

    fn put_hold(&mut self, hold: &HoldRecord) -> Result<(), KeeperFault> {
        if self.failures.fails(Call::Hold) {
            return Err(KeeperFault::Failed);
        }
        hold_list::put(&mut self.holds, hold)?;
        Ok(())
    }

    fn remove_hold(&mut self, number: u64) -> Result<(), Failed> {
        if self.failures.fails(Call::Unhold) {
            return Err(Failed);
        }
        hold_list::take_off(&mut self.holds, number);
        Ok(())
    }

    fn holds(&mut self) -> Result<Vec<HoldRecord>, KeeperFault> {
        if self.failures.fails(Call::Holds) {
            return Err(KeeperFault::Failed);
        }
        let records = hold_list::records(self.alloc, &self.holds)?;
        Ok(records)
    }

    fn put_file(&mut self, path: &[u8], bytes: &[u8]) -> Result<(), KeeperFault> {
        if self.failures.fails(Call::PutFile) {
            return Err(KeeperFault::Failed);
        }
        file_list::put(&mut self.files, self.alloc, path, bytes)?;
        Ok(())
    }

    fn file(&mut self, path: &[u8]) -> Result<Option<Vec<u8>>, KeeperFault> {
        if self.failures.fails(Call::File) {
            return Err(KeeperFault::Failed);
        }
        let file = file_list::file(&self.files, self.alloc, path)?;
        Ok(file)
    }
}

impl FailingKeeper for MemoryKeeper {
    fn fail_next(&mut self, call: Call) -> Result<(), NoMemory> {
        self.failures.add(call)?;
        Ok(())
    }
}
