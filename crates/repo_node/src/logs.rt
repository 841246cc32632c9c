//! What a script writes into a node's logs.
ghost use Rattle.std.specs.Prelude.{◌≡◌, ◌≤◌, true, [], ◌∷◌, IfErr, IsErrOf, OnOk};
ghost use Rattle.annex_base.specs.Causes.{Rose};
ghost use Rattle.annex_base.specs.declared.kinds.Call.TheVariants as calls;
ghost use Rattle.run_data.specs.Files.{file_of};
ghost use Rattle.union_merge.specs.LineSet.{IsLine};
ghost use Rattle.node_past.specs.Calls.{Makes};
ghost use Rattle.node_ledger.specs.Calls.{lacks_some, to_log};
ghost use Rattle.node_ledger.specs.Logs.{with_lines, stamped_by};
ghost use Rattle.node_ledger.specs.Refusals.{RefusesSo};
ghost use Rattle.std.specs.Option.{option_copied};
ghost use Rattle.log_lines.specs.LineText.{line_text};
ghost use Rattle.branch_lines.specs.Logs.{IsLogOf, log_of};

use crate::node::Node;
use annex_key::Key;
use log_lines::{Entry, LogKind};
use node_past::NodeRefused;
use node_steps::direct_entries_keep_parts;
use object_store::Keeper;
use union_merge::files_are_changed_alone;

impl<K: Keeper> Node<K> {
    /// Adds a line to the file of this path, by one log entry; where the file has it, nothing is done (git-annex internals:
    /// branch files).
    pub fn write_raw(&mut self, path: &[u8], line: &[u8]) -> Result<(), NodeRefused>
        requires path { IsLine path.now }
        requires line { IsLine line.now }
        ensures ok { OnOk result (self.new ≡ with_lines self.old self.new.keeper (file_of path.now) (line.now ∷ [])) }
        ensures err { IfErr result (λ e. RefusesSo e calls.PutFile self.old self.new) }
        ensures contents { K.contents self.new.keeper ≡ K.contents self.old.keeper }
        ensures parts { K.parts self.new.keeper ≡ K.parts self.old.keeper }
        ensures records { K.records self.new.keeper ≡ K.records self.old.keeper }
        ensures later { K.faults self.old.keeper ≤ K.faults self.new.keeper }
        ensures cause { IsErrOf result NodeRefused.StoreFault → Rose (K.faults self.old.keeper) (K.faults self.new.keeper) }
        ensures calls { Makes (to_log self.old (file_of path.now) (line.now ∷ [])) calls.PutFile result (K.failing self.old.keeper) (K.failing self.new.keeper) }
        ensures full { IsErrOf result NodeRefused.Full → lacks_some self.old (file_of path.now) (line.now ∷ []) ≡ true }
        ensures unasked { IsErrOf result NodeRefused.Full → self.new.keeper ≡ self.old.keeper }
    {
        // Laws, for the proof that the parts stay those of the state, and that files change alone.
        direct_entries_keep_parts();
        files_are_changed_alone();
        let _ = self.parts.table();
        self.ledger.write_raw(path, line)
    }

    /// Adds an entry to the log of this kind, that of the key where it is a location log, at the node's wall clock or just past the
    /// newest stamp of its topic, whatever stamp it has (git-annex internals: branch files). Where the file has the line, nothing
    /// is done.
    pub fn write_log(
        &mut self,
        kind: LogKind,
        key: Option<&Key>,
        entry: &Entry,
    ) -> Result<(), NodeRefused>
        requires file { IsLogOf kind (option_copied key) }
        requires line { IsLine (line_text kind (stamped_by self.old kind (option_copied key) entry.now)) }
        ensures ok { OnOk result (self.new ≡ with_lines self.old self.new.keeper (log_of kind (option_copied key.entry)) (line_text kind (stamped_by self.old kind (option_copied key.entry) entry.now) ∷ [])) }
        ensures err { IfErr result (λ e. RefusesSo e calls.PutFile self.old self.new) }
        ensures contents { K.contents self.new.keeper ≡ K.contents self.old.keeper }
        ensures parts { K.parts self.new.keeper ≡ K.parts self.old.keeper }
        ensures records { K.records self.new.keeper ≡ K.records self.old.keeper }
        ensures later { K.faults self.old.keeper ≤ K.faults self.new.keeper }
        ensures cause { IsErrOf result NodeRefused.StoreFault → Rose (K.faults self.old.keeper) (K.faults self.new.keeper) }
        ensures calls { Makes (to_log self.old (log_of kind (option_copied key.entry)) (line_text kind (stamped_by self.old kind (option_copied key.entry) entry.now) ∷ [])) calls.PutFile result (K.failing self.old.keeper) (K.failing self.new.keeper) }
        ensures full { IsErrOf result NodeRefused.Full → lacks_some self.old (log_of kind (option_copied key.entry)) (line_text kind (stamped_by self.old kind (option_copied key.entry) entry.now) ∷ []) ≡ true }
        ensures unasked { IsErrOf result NodeRefused.Full → self.new.keeper ≡ self.old.keeper }
    {
        // Laws, for the proof that the parts stay those of the state, and that files change alone.
        direct_entries_keep_parts();
        files_are_changed_alone();
        let _ = self.parts.table();
        self.ledger.write_log(kind, key, entry)
    }
}
