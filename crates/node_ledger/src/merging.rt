//! Merges of another branch into a ledger's own.
ghost use Rattle.std.specs.Prelude.{◌≡◌, ◌≤◌, true, Err, IfErr, IsErrOf, OnOk};
ghost use Rattle.std.specs.Option.{ForSome};
ghost use Rattle.annex_base.specs.Causes.{Rose};
ghost use Rattle.annex_base.specs.declared.kinds.Call.TheVariants as calls;
ghost use Rattle.union_merge.specs.LineSet.{IsLine};
ghost use Rattle.run_data.specs.Files.{file_of};
ghost use Rattle.node_past.specs.Calls.{Makes};
ghost use Rattle.node_ledger.specs.Calls.{MeetsFull, lacks_of, lacks_some, to_log, to_merge};
ghost use Rattle.node_ledger.specs.Refusals.{RefusesSo};
ghost use Rattle.node_ledger.specs.Walks.{StopsAfter, merge_file, merge_files, over};

use crate::ledger::Ledger;
use node_past::NodeRefused;
use object_store::Keeper;
use run_data::LogFile;
use union_merge::{Branch, LineSet};

impl<K: Keeper> Ledger<K> {
    /// Adds those of these lines that the file of this path lacks, by one log entry; where it lacks none, nothing is done.
    fn merge_file(&mut self, path: &[u8], lines: &LineSet) -> Result<(), NodeRefused>
        requires { IsLine path.now }
        ensures ok { OnOk result (self.new ≡ over self.new.keeper (merge_file self.old (path.now, lines.now))) }
        ensures err { IfErr result (λ e. RefusesSo e calls.PutFile self.old self.new) }
        ensures contents { K.contents self.new.keeper ≡ K.contents self.old.keeper }
        ensures parts { K.parts self.new.keeper ≡ K.parts self.old.keeper }
        ensures records { K.records self.new.keeper ≡ K.records self.old.keeper }
        ensures later { K.faults self.old.keeper ≤ K.faults self.new.keeper }
        ensures cause { IsErrOf result NodeRefused.StoreFault → Rose (K.faults self.old.keeper) (K.faults self.new.keeper) }
        ensures calls { Makes (to_log self.old (file_of path.now) lines.now) calls.PutFile result (K.failing self.old.keeper) (K.failing self.new.keeper) }
        ensures full { IsErrOf result NodeRefused.Full → lacks_some self.old (file_of path.now) lines.now ≡ true }
    {
        let alloc = self.allocator();
        let file = LogFile::of_path(alloc, path)?;
        self.add_lines(file, lines)
    }

    /// Adds the lines of another branch that its own lacks, by one log entry for each file that gains some.
    pub fn merge(&mut self, other: &Branch) -> Result<(), NodeRefused>
        ensures ok { OnOk result (self.new ≡ over self.new.keeper (merge_files self.old other.now)) }
        ensures err { IfErr result (λ e. StopsAfter (merge_files self.old) other.now e self.new) }
        ensures contents { K.contents self.new.keeper ≡ K.contents self.old.keeper }
        ensures parts { K.parts self.new.keeper ≡ K.parts self.old.keeper }
        ensures records { K.records self.new.keeper ≡ K.records self.old.keeper }
        ensures later { K.faults self.old.keeper ≤ K.faults self.new.keeper }
        ensures cause { IsErrOf result NodeRefused.StoreFault → Rose (K.faults self.old.keeper) (K.faults self.new.keeper) }
        ensures calls { Makes (to_merge self.old other.now) calls.PutFile result (K.failing self.old.keeper) (K.failing self.new.keeper) }
        ensures alone { IsErrOf result NodeRefused.StoreFault → ForSome (K.failing self.old.keeper) (λ failing. RefusesSo NodeRefused.StoreFault calls.PutFile self.old self.new) }
        ensures full { IsErrOf result NodeRefused.Full → MeetsFull (merge_files self.old) lacks_of other.now (K.failing self.old.keeper) (K.failing self.new.keeper) self.old self.new }
    {
        for (path, lines) in other.files() {
            // Written out for the proof, which names the refusal.
            if let Err(refused) = self.merge_file(path, lines) {
                return Err(refused);
            }
        }
        Ok(())
    }
}
