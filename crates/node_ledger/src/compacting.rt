//! Compactions of a ledger's files.
ghost use Rattle.std.specs.Prelude.{◌≡◌, ◌≤◌, true, [], ◌∷◌, Some, IfErr, IsErrOf, OnOk};
ghost use Rattle.std.specs.Map.{keys_of};
ghost use Rattle.std.specs.Option.{ForSome};
ghost use Rattle.annex_base.specs.Causes.{Rose};
ghost use Rattle.annex_base.specs.declared.kinds.Call.TheVariants as calls;
ghost use Rattle.log_lines.specs.Newest.{current_lines};
ghost use Rattle.run_data.specs.declared.entry.EntryKind.TheVariants as kinds;
ghost use Rattle.run_data.specs.Files.{file_of, file_path, kind_of};
ghost use Rattle.union_merge.specs.Branch.{with_file};
ghost use Rattle.union_merge.specs.LineSet.{IsLine};
ghost use Rattle.node_past.specs.Calls.{Makes, to_write};
ghost use Rattle.node_ledger.specs.Calls.{MeetsFull, shrinks, shrinks_at, to_compact};
ghost use Rattle.node_ledger.specs.Ledgers.{with_entry};
ghost use Rattle.node_ledger.specs.Refusals.{RefusesSo};
ghost use Rattle.node_ledger.specs.Walks.{StopsAfter, compact_file, compact_files, current, over};

use crate::ledger::Ledger;
use annex_base::Items;
use branch_lines::{current_lines, lines_of, paths_of};
use log_lines::{LogKind, compaction_keeps_the_reading, has_outdated};
use node_past::NodeRefused;
use object_store::Keeper;
use run_data::{By, EntryKind, LogFile, files_have_their_paths};
use store_entries::Change;
use union_merge::files_are_changed_alone;

impl<K: Keeper> Ledger<K> {
    /// Takes the outdated lines of a log of this kind away, by one entry.
    fn shrink(&mut self, file: LogFile, path: &[u8], kind: LogKind) -> Result<(), NodeRefused>
        requires line { IsLine path.now }
        requires here { path.now ≡ file_path file }
        requires kind { kind_of file ≡ Some kind }
        requires named { file ≡ file_of path.now }
        ensures ok { OnOk result (self.new ≡ with_entry self.old self.new.keeper (with_file self.old.branch (file_path file) (current self.old file)) (kinds.Compact file) []) }
        ensures err { IfErr result (λ e. RefusesSo e calls.PutFile self.old self.new) }
        ensures contents { K.contents self.new.keeper ≡ K.contents self.old.keeper }
        ensures parts { K.parts self.new.keeper ≡ K.parts self.old.keeper }
        ensures records { K.records self.new.keeper ≡ K.records self.old.keeper }
        ensures later { K.faults self.old.keeper ≤ K.faults self.new.keeper }
        ensures cause { IsErrOf result NodeRefused.StoreFault → Rose (K.faults self.old.keeper) (K.faults self.new.keeper) }
        ensures calls { Makes (calls.PutFile ∷ []) calls.PutFile result (K.failing self.old.keeper) (K.failing self.new.keeper) }
    {
        // Laws, for the proof: only the file of this path changes, and a compaction keeps what its lines say.
        files_are_changed_alone();
        compaction_keeps_the_reading();
        let alloc = self.allocator();
        let branch = self.branch();
        let lines = lines_of(branch, path);
        let all = current_lines(alloc, kind, lines)?;
        let none = Items::new(alloc);
        self.write(
            path,
            Change::Replace(all),
            EntryKind::Compact { file },
            none,
            &[],
            By::Script,
            false,
        )
    }

    /// Takes the outdated lines of the file of this path away, by one entry, where it has some.
    fn compact_file(&mut self, path: &[u8]) -> Result<(), NodeRefused>
        requires { IsLine path.now }
        ensures ok { OnOk result (self.new ≡ over self.new.keeper (compact_file self.old (file_of path.now))) }
        ensures err { IfErr result (λ e. RefusesSo e calls.PutFile self.old self.new) }
        ensures contents { K.contents self.new.keeper ≡ K.contents self.old.keeper }
        ensures parts { K.parts self.new.keeper ≡ K.parts self.old.keeper }
        ensures records { K.records self.new.keeper ≡ K.records self.old.keeper }
        ensures later { K.faults self.old.keeper ≤ K.faults self.new.keeper }
        ensures cause { IsErrOf result NodeRefused.StoreFault → Rose (K.faults self.old.keeper) (K.faults self.new.keeper) }
        ensures calls { Makes (to_write (shrinks self.old (file_of path.now))) calls.PutFile result (K.failing self.old.keeper) (K.failing self.new.keeper) }
        ensures full { IsErrOf result NodeRefused.Full → shrinks self.old (file_of path.now) ≡ true }
    {
        // A law, for the proof: the file of a path stands there.
        files_have_their_paths();
        let alloc = self.allocator();
        let file = LogFile::of_path(alloc, path)?;
        let Some(kind) = file.kind() else {
            return Ok(());
        };
        let branch = self.branch();
        let lines = lines_of(branch, path);
        let outdated = has_outdated(alloc, kind, lines)?;
        if outdated {
            return self.shrink(file, path, kind);
        }
        Ok(())
    }

    /// Takes the outdated lines of its files away, by one entry for each file that has some, in order of path (own). A refusal in
    /// the middle keeps the files that are done.
    pub fn compact(&mut self) -> Result<(), NodeRefused>
        ensures ok { OnOk result (self.new ≡ over self.new.keeper (compact_files self.old (keys_of self.old.branch))) }
        ensures err { IfErr result (λ e. StopsAfter (compact_files self.old) (keys_of self.old.branch) e self.new) }
        ensures contents { K.contents self.new.keeper ≡ K.contents self.old.keeper }
        ensures parts { K.parts self.new.keeper ≡ K.parts self.old.keeper }
        ensures records { K.records self.new.keeper ≡ K.records self.old.keeper }
        ensures later { K.faults self.old.keeper ≤ K.faults self.new.keeper }
        ensures cause { IsErrOf result NodeRefused.StoreFault → Rose (K.faults self.old.keeper) (K.faults self.new.keeper) }
        ensures calls { Makes (to_compact self.old) calls.PutFile result (K.failing self.old.keeper) (K.failing self.new.keeper) }
        ensures alone { IsErrOf result NodeRefused.StoreFault → ForSome (K.failing self.old.keeper) (λ failing. RefusesSo NodeRefused.StoreFault calls.PutFile self.old self.new) }
        ensures full { IsErrOf result NodeRefused.Full → MeetsFull (compact_files self.old) shrinks_at (keys_of self.old.branch) (K.failing self.old.keeper) (K.failing self.new.keeper) self.old self.new }
    {
        let branch = self.branch();
        let paths = paths_of(branch)?;
        for path in &paths {
            // Written out for the proof, which names the refusal.
            if let Err(refused) = self.compact_file(path.bytes()) {
                return Err(refused);
            }
        }
        Ok(())
    }
}
