//! The store of a repository: its calls, and what they promise.
ghost use Rattle.std.specs.Prelude.{◌≡◌, ◌≤◌, ◌<◌, ◌^◌, ◌++◌, [], List, ℕ, Some, None, map, length, is_some, is_err, IfOk, OnOk, OnErr, IfSome, IsErrOf};
ghost use Rattle.std.specs.declared.option.Option.{Option};
ghost use Rattle.std.specs.Option.{ForSome, option_map};
ghost use Rattle.annex_base.specs.Causes.{Rose};
ghost use Rattle.annex_base.specs.declared.kinds.Call.{Call};
ghost use Rattle.annex_base.specs.declared.kinds.Call.TheVariants as calls;

use annex_base::{Call, Failed, NoMemory};
use annex_key::Key;
use std::alloc::AllocError;

/// A hold on a content as the store keeps it. Its end is in milliseconds of the repository's clock.
#[derive(Clone, Debug, Drop, PartialEq, Eq)]
pub struct HoldRecord {
    pub number: u64,
    pub key: Key,
    pub end: u64,
}

/// Why a call of a store did nothing.
#[derive(Clone, Copy, Debug, PartialEq, Eq)]
pub enum KeeperFault {
    Failed,
    NoMemory,
}

impl From<NoMemory> for KeeperFault {
    ghost use Rattle.std.specs.Prelude.{◌≡◌};
    ghost use Rattle.object_store.specs.declared.keeper.KeeperFault.TheVariants as faults;

    ghost from_gives = { λ _ e. e ≡ faults.NoMemory };

    fn from(_e: NoMemory) -> KeeperFault {
        KeeperFault::NoMemory
    }
}

impl From<AllocError> for KeeperFault {
    ghost use Rattle.std.specs.Prelude.{◌≡◌};
    ghost use Rattle.object_store.specs.declared.keeper.KeeperFault.TheVariants as faults;

    ghost from_gives = { λ _ e. e ≡ faults.NoMemory };

    fn from(_e: AllocError) -> KeeperFault {
        KeeperFault::NoMemory
    }
}

impl From<Failed> for KeeperFault {
    ghost use Rattle.std.specs.Prelude.{◌≡◌};
    ghost use Rattle.object_store.specs.declared.keeper.KeeperFault.TheVariants as faults;

    ghost from_gives = { λ _ e. e ≡ faults.Failed };

    fn from(_e: Failed) -> KeeperFault {
        KeeperFault::Failed
    }
}

/// A store of contents, parts, hold records and files (own). A part is what a transfer has brought so far of a content;
/// one that isn't there is the empty part. Each meaning is told always or never. After a fault the store is as before.
/// A store keeps what it has committed: this is proved of a store in memory, and a premise on any other.
pub trait Keeper: Drop {
    ghost use Rattle.object_store.specs.declared.keeper.HoldRecord.{HoldRecord};
    ghost use Rattle.object_store.specs.Stores.{Contents, Parts, Files, with_at, bytes_of, contents_after_commit, read_length, room_after_read, AreSmallContents, AreSmallParts, with_record, without_record, AreDistinct, AreFalling, AreEarly};
    ghost use Rattle.object_store.specs.Calls.{FailsAsTold, has_failed};

    /// The bytes of each key's content, where it tells.
    ghost contents: { Self → Option Contents };

    /// The bytes of each key's part, where it tells.
    ghost parts: { Self → Option Parts };

    /// The hold records, the greatest number first, where it tells.
    ghost records: { Self → Option (List HoldRecord) };

    /// The bytes of each path's file, where it tells.
    ghost files: { Self → Option Files };

    /// How often it has failed; this count stays at the greatest `u64`.
    ghost faults: { Self → ℕ };

    /// How many calls of each kind are still to fail, where it tells.
    ghost failing: { Self → Option (Call → ℕ) };

    /// Whether the content is there.
    fn has(&mut self, key: &Key) -> Result<bool, Failed>
        ensures ok { IfOk result (λ here. ForSome (contents self.old) (λ c. here ≡ is_some (c key.now))) }
        ensures contents { contents self.new ≡ contents self.old }
        ensures parts { parts self.new ≡ parts self.old }
        ensures records { records self.new ≡ records self.old }
        ensures files { files self.new ≡ files self.old }
        ensures later { faults self.old ≤ faults self.new }
        ensures cause { OnErr result (Rose (faults self.old) (faults self.new)) }
        ensures failing { FailsAsTold calls.Has (failing self.old) (failing self.new) (is_err result) };

    /// The size of the content in bytes, if it is there.
    fn size(&mut self, key: &Key) -> Result<Option<u64>, KeeperFault>
        ensures ok { IfOk result (λ size. ForSome (contents self.old) (λ c. size ≡ option_map length (c key.now))) }
        ensures bound { IfOk result (λ size. IfSome size (λ n. n < 2 ^ 62)) }
        ensures small { AreSmallContents (contents self.old) }
        ensures contents { contents self.new ≡ contents self.old }
        ensures parts { parts self.new ≡ parts self.old }
        ensures records { records self.new ≡ records self.old }
        ensures files { files self.new ≡ files self.old }
        ensures later { faults self.old ≤ faults self.new }
        ensures cause { IsErrOf result KeeperFault.Failed → Rose (faults self.old) (faults self.new) }
        ensures failing { FailsAsTold calls.Size (failing self.old) (failing self.new) (has_failed result) };

    /// Reads the content from the byte `at` into the front of the room, as far as bytes are left, and says how many these
    /// are: none of what isn't there.
    fn read_piece(&mut self, key: &Key, at: u64, room: &mut [u8]) -> Result<usize, KeeperFault>
        ensures ok { IfOk result (λ n. ForSome (contents self.old) (λ c. n ≡ read_length (bytes_of c key.now) at (length room.old))) }
        ensures room { OnOk result (ForSome (contents self.old) (λ c. room.new ≡ room_after_read (bytes_of c key.now) at room.old)) }
        ensures bound { IfOk result (λ n. n ≤ length room.old) }
        ensures small { AreSmallContents (contents self.old) }
        ensures contents { contents self.new ≡ contents self.old }
        ensures parts { parts self.new ≡ parts self.old }
        ensures records { records self.new ≡ records self.old }
        ensures files { files self.new ≡ files self.old }
        ensures later { faults self.old ≤ faults self.new }
        ensures cause { IsErrOf result KeeperFault.Failed → Rose (faults self.old) (faults self.new) }
        ensures failing { FailsAsTold calls.Read (failing self.old) (failing self.new) (has_failed result) };

    /// The size of the part in bytes.
    fn part_size(&mut self, key: &Key) -> Result<u64, KeeperFault>
        ensures ok { IfOk result (λ n. ForSome (parts self.old) (λ p. n ≡ length (p key.now))) }
        ensures bound { IfOk result (λ n. n < 2 ^ 62) }
        ensures small { AreSmallParts (parts self.old) }
        ensures contents { contents self.new ≡ contents self.old }
        ensures parts { parts self.new ≡ parts self.old }
        ensures records { records self.new ≡ records self.old }
        ensures files { files self.new ≡ files self.old }
        ensures later { faults self.old ≤ faults self.new }
        ensures cause { IsErrOf result KeeperFault.Failed → Rose (faults self.old) (faults self.new) }
        ensures failing { FailsAsTold calls.PartSize (failing self.old) (failing self.new) (has_failed result) };

    /// Reads the part as `read_piece` reads a content.
    fn read_part(&mut self, key: &Key, at: u64, room: &mut [u8]) -> Result<usize, KeeperFault>
        ensures ok { IfOk result (λ n. ForSome (parts self.old) (λ p. n ≡ read_length (p key.now) at (length room.old))) }
        ensures room { OnOk result (ForSome (parts self.old) (λ p. room.new ≡ room_after_read (p key.now) at room.old)) }
        ensures bound { IfOk result (λ n. n ≤ length room.old) }
        ensures small { AreSmallParts (parts self.old) }
        ensures contents { contents self.new ≡ contents self.old }
        ensures parts { parts self.new ≡ parts self.old }
        ensures records { records self.new ≡ records self.old }
        ensures files { files self.new ≡ files self.old }
        ensures later { faults self.old ≤ faults self.new }
        ensures cause { IsErrOf result KeeperFault.Failed → Rose (faults self.old) (faults self.new) }
        ensures failing { FailsAsTold calls.ReadPart (failing self.old) (failing self.new) (has_failed result) };

    /// Puts the piece at the end of the part. No machine has memory for 2^62 bytes, so an append past that is want of
    /// memory.
    fn append_part(&mut self, key: &Key, piece: &[u8]) -> Result<(), KeeperFault>
        ensures ok { OnOk result (parts self.new ≡ option_map (λ p. with_at p key.now (p key.now ++ piece.now)) (parts self.old)) }
        ensures err_parts { OnErr result (parts self.new ≡ parts self.old) }
        ensures small { AreSmallParts (parts self.new) }
        ensures contents { contents self.new ≡ contents self.old }
        ensures records { records self.new ≡ records self.old }
        ensures files { files self.new ≡ files self.old }
        ensures later { faults self.old ≤ faults self.new }
        ensures cause { IsErrOf result KeeperFault.Failed → Rose (faults self.old) (faults self.new) }
        ensures failing { FailsAsTold calls.Append (failing self.old) (failing self.new) (has_failed result) };

    /// Makes the part the content, in place of an earlier one, and leaves the empty part. Callers commit only what matches
    /// the key.
    fn commit(&mut self, key: &Key) -> Result<(), KeeperFault>
        ensures content { OnOk result (contents self.new ≡ contents_after_commit (contents self.old) (parts self.old) key.now) }
        ensures part { OnOk result (parts self.new ≡ option_map (λ p. with_at p key.now []) (parts self.old)) }
        ensures err_contents { OnErr result (contents self.new ≡ contents self.old) }
        ensures err_parts { OnErr result (parts self.new ≡ parts self.old) }
        ensures records { records self.new ≡ records self.old }
        ensures files { files self.new ≡ files self.old }
        ensures later { faults self.old ≤ faults self.new }
        ensures cause { IsErrOf result KeeperFault.Failed → Rose (faults self.old) (faults self.new) }
        ensures failing { FailsAsTold calls.Commit (failing self.old) (failing self.new) (has_failed result) };

    /// Leaves the empty part.
    fn drop_part(&mut self, key: &Key) -> Result<(), Failed>
        ensures ok { OnOk result (parts self.new ≡ option_map (λ p. with_at p key.now []) (parts self.old)) }
        ensures err_parts { OnErr result (parts self.new ≡ parts self.old) }
        ensures contents { contents self.new ≡ contents self.old }
        ensures records { records self.new ≡ records self.old }
        ensures files { files self.new ≡ files self.old }
        ensures later { faults self.old ≤ faults self.new }
        ensures cause { OnErr result (Rose (faults self.old) (faults self.new)) }
        ensures failing { FailsAsTold calls.DropPart (failing self.old) (failing self.new) (is_err result) };

    /// Removes the content, if it is there.
    fn remove(&mut self, key: &Key) -> Result<(), Failed>
        ensures ok { OnOk result (contents self.new ≡ option_map (λ c. with_at c key.now None) (contents self.old)) }
        ensures err_contents { OnErr result (contents self.new ≡ contents self.old) }
        ensures parts { parts self.new ≡ parts self.old }
        ensures records { records self.new ≡ records self.old }
        ensures files { files self.new ≡ files self.old }
        ensures later { faults self.old ≤ faults self.new }
        ensures cause { OnErr result (Rose (faults self.old) (faults self.new)) }
        ensures failing { FailsAsTold calls.Remove (failing self.old) (failing self.new) (is_err result) };

    /// Keeps the record of a hold, in place of an earlier one of its number.
    fn put_hold(&mut self, hold: &HoldRecord) -> Result<(), KeeperFault>
        requires { hold.now.end < 2 ^ 62 }
        ensures ok { OnOk result (records self.new ≡ option_map (λ rs. with_record rs hold.now) (records self.old)) }
        ensures err_records { OnErr result (records self.new ≡ records self.old) }
        ensures contents { contents self.new ≡ contents self.old }
        ensures parts { parts self.new ≡ parts self.old }
        ensures files { files self.new ≡ files self.old }
        ensures later { faults self.old ≤ faults self.new }
        ensures cause { IsErrOf result KeeperFault.Failed → Rose (faults self.old) (faults self.new) }
        ensures failing { FailsAsTold calls.Hold (failing self.old) (failing self.new) (has_failed result) };

    /// Removes the record of this number, if it is there.
    fn remove_hold(&mut self, number: u64) -> Result<(), Failed>
        ensures ok { OnOk result (records self.new ≡ option_map (λ rs. without_record rs number) (records self.old)) }
        ensures err_records { OnErr result (records self.new ≡ records self.old) }
        ensures contents { contents self.new ≡ contents self.old }
        ensures parts { parts self.new ≡ parts self.old }
        ensures files { files self.new ≡ files self.old }
        ensures later { faults self.old ≤ faults self.new }
        ensures cause { OnErr result (Rose (faults self.old) (faults self.new)) }
        ensures failing { FailsAsTold calls.Unhold (failing self.old) (failing self.new) (is_err result) };

    /// The records of all holds.
    fn holds(&mut self) -> Result<Vec<HoldRecord>, KeeperFault>
        ensures ok { IfOk result (λ v. ForSome (records self.old) (λ rs. v.items ≡ rs)) }
        ensures distinct { IfOk result (λ v. AreDistinct v.items) }
        ensures ends { IfOk result (λ v. AreEarly v.items) }
        ensures falling { OnOk result (ForSome (records self.old) AreFalling) }
        ensures contents { contents self.new ≡ contents self.old }
        ensures parts { parts self.new ≡ parts self.old }
        ensures records { records self.new ≡ records self.old }
        ensures files { files self.new ≡ files self.old }
        ensures later { faults self.old ≤ faults self.new }
        ensures cause { IsErrOf result KeeperFault.Failed → Rose (faults self.old) (faults self.new) }
        ensures failing { FailsAsTold calls.Holds (failing self.old) (failing self.new) (has_failed result) };

    /// Writes the file of the path, in place of an earlier one.
    fn put_file(&mut self, path: &[u8], bytes: &[u8]) -> Result<(), KeeperFault>
        ensures ok { OnOk result (files self.new ≡ option_map (λ f. with_at f path.now (Some bytes.now)) (files self.old)) }
        ensures err_files { OnErr result (files self.new ≡ files self.old) }
        ensures contents { contents self.new ≡ contents self.old }
        ensures parts { parts self.new ≡ parts self.old }
        ensures records { records self.new ≡ records self.old }
        ensures later { faults self.old ≤ faults self.new }
        ensures cause { IsErrOf result KeeperFault.Failed → Rose (faults self.old) (faults self.new) }
        ensures failing { FailsAsTold calls.PutFile (failing self.old) (failing self.new) (has_failed result) };

    /// The bytes of the file of the path, if it is there.
    fn file(&mut self, path: &[u8]) -> Result<Option<Vec<u8>>, KeeperFault>
        ensures ok { IfOk result (λ bytes. ForSome (files self.old) (λ f. option_map (λ v. v.items) bytes ≡ f path.now)) }
        ensures contents { contents self.new ≡ contents self.old }
        ensures parts { parts self.new ≡ parts self.old }
        ensures records { records self.new ≡ records self.old }
        ensures files { files self.new ≡ files self.old }
        ensures later { faults self.old ≤ faults self.new }
        ensures cause { IsErrOf result KeeperFault.Failed → Rose (faults self.old) (faults self.new) }
        ensures failing { FailsAsTold calls.File (failing self.old) (failing self.new) (has_failed result) };
}

/// A store that can be made to fail (own).
pub trait FailingKeeper: Keeper {
    ghost use Rattle.object_store.specs.Calls.{one_more};

    /// Lets one more of the next calls of this kind fail, so that n calls of it let the next n fail. A store that can't
    /// be made to fail answers Ok and does nothing.
    fn fail_next(&mut self, call: Call) -> Result<(), NoMemory>
        ensures ok { OnOk result (Self.failing self.new ≡ option_map (one_more call) (Self.failing self.old)) }
        ensures err { OnErr result (Self.failing self.new ≡ Self.failing self.old) }
        ensures contents { Self.contents self.new ≡ Self.contents self.old }
        ensures parts { Self.parts self.new ≡ Self.parts self.old }
        ensures records { Self.records self.new ≡ Self.records self.old }
        ensures files { Self.files self.new ≡ Self.files self.old }
        ensures faults { Self.faults self.new ≡ Self.faults self.old };
}
