//! The entries that a script writes into a ledger's logs, at its wall clock.
ghost use Rattle.std.specs.Prelude.{◌≡◌, ◌≤◌, true, [], ◌∷◌, IfErr, IsErrOf, OnOk};
ghost use Rattle.std.specs.Option.{option_copied};
ghost use Rattle.annex_base.specs.Causes.{Rose};
ghost use Rattle.annex_base.specs.declared.kinds.Call.TheVariants as calls;
ghost use Rattle.log_lines.specs.LineText.{line_text};
ghost use Rattle.union_merge.specs.LineSet.{IsLine};
ghost use Rattle.node_past.specs.Calls.{Makes};
ghost use Rattle.node_ledger.specs.Calls.{lacks_some, to_log};
ghost use Rattle.branch_lines.specs.Logs.{IsLogOf, log_of};
ghost use Rattle.node_ledger.specs.Logs.{stamped_by, with_lines};
ghost use Rattle.node_ledger.specs.Refusals.{RefusesSo};

use crate::ledger::Ledger;
use annex_key::Key;
use branch_lines::{line_at, log_of, set_of_line};
use log_lines::{Entry, LogKind};
use node_past::NodeRefused;
use object_store::Keeper;

impl<K: Keeper> Ledger<K> {
    /// Adds an entry to the log of this kind, that of the key where it is a location log, at the node's wall clock or just past the
    /// newest stamp of its topic, whatever stamp it has (git-annex internals: branch files). Where the file has the line, nothing
    /// is done.
    pub fn write_log(
        &mut self,
        kind: LogKind,
        key: Option<&Key>,
        entry: &Entry,
    ) -> Result<(), NodeRefused>
        requires file { IsLogOf kind (option_copied key) }
        requires line { IsLine (line_text kind (stamped_by self.old kind (option_copied key) entry.now)) }
        ensures ok { OnOk result (self.new ≡ with_lines self.old self.new.keeper (log_of kind (option_copied key.entry)) (line_text kind (stamped_by self.old kind (option_copied key.entry) entry.now) ∷ [])) }
        ensures err { IfErr result (λ e. RefusesSo e calls.PutFile self.old self.new) }
        ensures contents { K.contents self.new.keeper ≡ K.contents self.old.keeper }
        ensures parts { K.parts self.new.keeper ≡ K.parts self.old.keeper }
        ensures records { K.records self.new.keeper ≡ K.records self.old.keeper }
        ensures later { K.faults self.old.keeper ≤ K.faults self.new.keeper }
        ensures cause { IsErrOf result NodeRefused.StoreFault → Rose (K.faults self.old.keeper) (K.faults self.new.keeper) }
        ensures calls { Makes (to_log self.old (log_of kind (option_copied key.entry)) (line_text kind (stamped_by self.old kind (option_copied key.entry) entry.now) ∷ [])) calls.PutFile result (K.failing self.old.keeper) (K.failing self.new.keeper) }
        ensures full { IsErrOf result NodeRefused.Full → lacks_some self.old (log_of kind (option_copied key.entry)) (line_text kind (stamped_by self.old kind (option_copied key.entry) entry.now) ∷ []) ≡ true }
        ensures unasked { IsErrOf result NodeRefused.Full → self.new.keeper ≡ self.old.keeper }
    {
        let alloc = self.allocator();
        let file = log_of(kind, key)?;
        let path = file.path(alloc)?;
        let clock = self.past.stamp();
        let branch = self.branch();
        let line = line_at(alloc, branch, path.bytes(), clock, kind, entry)?;
        let lines = set_of_line(alloc, line.bytes())?;
        self.add_lines(file, &lines)
    }
}
