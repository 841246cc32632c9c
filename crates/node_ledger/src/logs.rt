//! The lines that a ledger adds to its logs.
ghost use Rattle.std.specs.Prelude.{◌≡◌, ◌≤◌, ◌≢◌, true, [], ◌∷◌, IfErr, IsErrOf, OnErr, OnOk};
ghost use Rattle.annex_base.specs.Causes.{Rose};
ghost use Rattle.annex_base.specs.declared.kinds.Call.TheVariants as calls;
ghost use Rattle.run_data.specs.Files.{HasPath, file_of, file_path};
ghost use Rattle.run_data.specs.declared.entry.EntryKind.TheVariants as kinds;
ghost use Rattle.union_merge.specs.Branch.{lines_at, merged_file};
ghost use Rattle.union_merge.specs.LineSet.{IsLine};
ghost use Rattle.node_past.specs.Calls.{Makes};
ghost use Rattle.node_ledger.specs.Calls.{lacks_some, to_log};
ghost use Rattle.store_entries.specs.Changes.{AreNew};
ghost use Rattle.node_ledger.specs.Logs.{with_lines, with_log};
ghost use Rattle.node_ledger.specs.Ledgers.{are_due, with_entry};
ghost use Rattle.node_ledger.specs.Refusals.{RefusesFor, RefusesSo};

use crate::ledger::Ledger;
use branch_lines::{listed, new_lines, set_of_line};
use log_lines::readings_depend_on_the_set;
use node_past::NodeRefused;
use object_store::Keeper;
use run_data::{By, EntryKind, LogFile};
use store_entries::Change;
use union_merge::{LineSet, files_are_changed_alone, unions_have_the_lines_of_both};

impl<K: Keeper> Ledger<K> {
    /// Adds these lines, which the file lacks, by one log entry, which stands also without a line. Where they are what the first
    /// owed line is due, they pay it.
    pub(crate) fn log(
        &mut self,
        file: LogFile,
        path: &[u8],
        new: &LineSet,
        by: By,
    ) -> Result<(), NodeRefused>
        requires line { IsLine path.now }
        requires here { path.now ≡ file_path file }
        requires new { AreNew new.now (lines_at self.old.branch path.now) }
        ensures ok { OnOk result (self.new ≡ with_entry self.old self.new.keeper (merged_file self.old.branch (file_path file) new.now) (kinds.Log file) new.now) }
        ensures some { OnOk result (new.now ≢ [] → self.new ≡ with_log self.old self.new.keeper file new.now) }
        ensures err { IfErr result (λ e. RefusesFor by e calls.PutFile self.old self.new) }
        ensures contents { K.contents self.new.keeper ≡ K.contents self.old.keeper }
        ensures parts { K.parts self.new.keeper ≡ K.parts self.old.keeper }
        ensures records { K.records self.new.keeper ≡ K.records self.old.keeper }
        ensures later { K.faults self.old.keeper ≤ K.faults self.new.keeper }
        ensures cause { IsErrOf result NodeRefused.StoreFault → Rose (K.faults self.old.keeper) (K.faults self.new.keeper) }
        ensures calls { Makes (calls.PutFile ∷ []) calls.PutFile result (K.failing self.old.keeper) (K.failing self.new.keeper) }
        ensures unasked { IsErrOf result NodeRefused.Full → self.new.keeper ≡ self.old.keeper }
    {
        let paid = self.are_due(path, new.lines())?;
        self.log_paid(file, path, new, by, paid)
    }

    /// The same, where it is known whether they are what the first owed line is due.
    pub(crate) fn log_paid(
        &mut self,
        file: LogFile,
        path: &[u8],
        new: &LineSet,
        by: By,
        paid: bool,
    ) -> Result<(), NodeRefused>
        requires line { IsLine path.now }
        requires here { path.now ≡ file_path file }
        requires new { AreNew new.now (lines_at self.old.branch path.now) }
        requires paid { paid ≡ are_due self.old file new.now self.old.owed }
        ensures ok { OnOk result (self.new ≡ with_entry self.old self.new.keeper (merged_file self.old.branch (file_path file) new.now) (kinds.Log file) new.now) }
        ensures some { OnOk result (new.now ≢ [] → self.new ≡ with_log self.old self.new.keeper file new.now) }
        ensures err { IfErr result (λ e. RefusesFor by e calls.PutFile self.old self.new) }
        ensures contents { K.contents self.new.keeper ≡ K.contents self.old.keeper }
        ensures parts { K.parts self.new.keeper ≡ K.parts self.old.keeper }
        ensures records { K.records self.new.keeper ≡ K.records self.old.keeper }
        ensures err_files { OnErr result (K.files self.new.keeper ≡ K.files self.old.keeper) }
        ensures later { K.faults self.old.keeper ≤ K.faults self.new.keeper }
        ensures cause { IsErrOf result NodeRefused.StoreFault → Rose (K.faults self.old.keeper) (K.faults self.new.keeper) }
        ensures calls { Makes (calls.PutFile ∷ []) calls.PutFile result (K.failing self.old.keeper) (K.failing self.new.keeper) }
        ensures unasked { IsErrOf result NodeRefused.Full → self.new.keeper ≡ self.old.keeper }
    {
        // Laws, for the proof: only the file of this path changes, and what lines say depends on which they are.
        files_are_changed_alone();
        unions_have_the_lines_of_both();
        readings_depend_on_the_set();
        let alloc = self.allocator();
        let lines = listed(alloc, new.lines())?;
        self.write(
            path,
            Change::Add(new),
            EntryKind::Log { file },
            lines,
            new.lines(),
            by,
            paid,
        )
    }

    /// Adds those of these lines that the file lacks, by one log entry; where it lacks none, nothing is done.
    pub(crate) fn add_lines(&mut self, file: LogFile, lines: &LineSet) -> Result<(), NodeRefused>
        requires { HasPath file }
        ensures ok { OnOk result (self.new ≡ with_lines self.old self.new.keeper file lines.now) }
        ensures err { IfErr result (λ e. RefusesSo e calls.PutFile self.old self.new) }
        ensures contents { K.contents self.new.keeper ≡ K.contents self.old.keeper }
        ensures parts { K.parts self.new.keeper ≡ K.parts self.old.keeper }
        ensures records { K.records self.new.keeper ≡ K.records self.old.keeper }
        ensures later { K.faults self.old.keeper ≤ K.faults self.new.keeper }
        ensures cause { IsErrOf result NodeRefused.StoreFault → Rose (K.faults self.old.keeper) (K.faults self.new.keeper) }
        ensures calls { Makes (to_log self.old file lines.now) calls.PutFile result (K.failing self.old.keeper) (K.failing self.new.keeper) }
        ensures full { IsErrOf result NodeRefused.Full → lacks_some self.old file lines.now ≡ true }
        ensures unasked { IsErrOf result NodeRefused.Full → self.new.keeper ≡ self.old.keeper }
    {
        let alloc = self.allocator();
        let path = file.path(alloc)?;
        let new = new_lines(alloc, self.branch(), path.bytes(), lines)?;
        if new.lines().is_empty() {
            return Ok(());
        }
        self.log(file, path.bytes(), &new, By::Script)
    }

    /// Adds a line to the file of this path, by one log entry; where the file has it, nothing is done (git-annex internals:
    /// branch files).
    pub fn write_raw(&mut self, path: &[u8], line: &[u8]) -> Result<(), NodeRefused>
        requires path { IsLine path.now }
        requires line { IsLine line.now }
        ensures ok { OnOk result (self.new ≡ with_lines self.old self.new.keeper (file_of path.now) (line.now ∷ [])) }
        ensures err { IfErr result (λ e. RefusesSo e calls.PutFile self.old self.new) }
        ensures contents { K.contents self.new.keeper ≡ K.contents self.old.keeper }
        ensures parts { K.parts self.new.keeper ≡ K.parts self.old.keeper }
        ensures records { K.records self.new.keeper ≡ K.records self.old.keeper }
        ensures later { K.faults self.old.keeper ≤ K.faults self.new.keeper }
        ensures cause { IsErrOf result NodeRefused.StoreFault → Rose (K.faults self.old.keeper) (K.faults self.new.keeper) }
        ensures calls { Makes (to_log self.old (file_of path.now) (line.now ∷ [])) calls.PutFile result (K.failing self.old.keeper) (K.failing self.new.keeper) }
        ensures full { IsErrOf result NodeRefused.Full → lacks_some self.old (file_of path.now) (line.now ∷ []) ≡ true }
        ensures unasked { IsErrOf result NodeRefused.Full → self.new.keeper ≡ self.old.keeper }
    {
        let alloc = self.allocator();
        let lines = set_of_line(alloc, line)?;
        let file = LogFile::of_path(alloc, path)?;
        self.add_lines(file, &lines)
    }
}
