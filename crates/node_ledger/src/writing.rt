//! What a ledger writes into the files of its branch.
ghost use Rattle.std.specs.Prelude.{◌≡◌, ◌≤◌, [], ◌∷◌, IfErr, IsErrOf, OnOk, OnErr};
ghost use Rattle.annex_base.specs.Causes.{Rose};
ghost use Rattle.annex_base.specs.declared.kinds.Call.TheVariants as calls;
ghost use Rattle.run_data.specs.declared.entry.By.{By};
ghost use Rattle.union_merge.specs.Branch.{lines_at};
ghost use Rattle.union_merge.specs.LineSet.{IsLine};
ghost use Rattle.trust_groups.specs.Adding.{lines_and};
ghost use Rattle.node_past.specs.Calls.{Makes};
ghost use Rattle.store_entries.specs.Changes.{AddsNew, changed_file};
ghost use Rattle.store_entries.specs.Indexed.{ReadsAlike};
ghost use Rattle.node_ledger.specs.Ledgers.{owed_now, with_entry};
ghost use Rattle.node_past.specs.Owing.{rest_if};
ghost use Rattle.node_ledger.specs.Refusals.{RefusesFor};

use crate::ledger::Ledger;
use annex_base::{Items, Line};
use node_past::NodeRefused;
use object_store::Keeper;
use run_data::{By, EntryKind};
use store_entries::{Change, write_beside};
use union_merge::files_are_changed_alone;

impl<K: Keeper> Ledger<K> {
    /// Changes a file of the branch, by an entry of this kind with the lines that are new; they are what the first owed line is due,
    /// or aren't.
    pub(crate) fn write(
        &mut self,
        path: &[u8],
        change: Change<'_>,
        kind: EntryKind,
        lines: Items<Line>,
        new: &[Line],
        by: By,
        paid: bool,
    ) -> Result<(), NodeRefused>
        requires line { IsLine path.now }
        requires new { AddsNew change (lines_at self.old.branch path.now) }
        requires owed { owed_now self.old kind lines ≡ rest_if paid self.old.owed }
        requires reads { ReadsAlike (lines_and (lines_at self.old.branch) path.now new.now) (lines_at (changed_file self.old.branch path.now change)) }
        ensures ok { OnOk result (self.new ≡ with_entry self.old self.new.keeper (changed_file self.old.branch path.now change.entry) kind lines) }
        ensures err { IfErr result (λ e. RefusesFor by e calls.PutFile self.old self.new) }
        ensures contents { K.contents self.new.keeper ≡ K.contents self.old.keeper }
        ensures parts { K.parts self.new.keeper ≡ K.parts self.old.keeper }
        ensures records { K.records self.new.keeper ≡ K.records self.old.keeper }
        ensures err_files { OnErr result (K.files self.new.keeper ≡ K.files self.old.keeper) }
        ensures later { K.faults self.old.keeper ≤ K.faults self.new.keeper }
        ensures cause { IsErrOf result NodeRefused.StoreFault → Rose (K.faults self.old.keeper) (K.faults self.new.keeper) }
        ensures calls { Makes (calls.PutFile ∷ []) calls.PutFile result (K.failing self.old.keeper) (K.failing self.new.keeper) }
        ensures unasked { IsErrOf result NodeRefused.Full → self.new.keeper ≡ self.old.keeper }
    {
        // A law, for the proof: only the file of this path changes.
        files_are_changed_alone();
        write_beside(
            &mut self.keeper,
            &mut self.branch,
            &mut self.past,
            &mut self.index,
            &mut self.debts,
            path,
            change,
            kind,
            lines,
            new,
            by,
            paid,
        )
    }
}
