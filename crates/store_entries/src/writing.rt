//! Files of a branch, written into a store too, each with the entry that says so.
ghost use Rattle.std.specs.Prelude.{◌≡◌, ◌≤◌, [], ◌∷◌, Some, IfOk, IfErr, IsErrOf, OnOk, OnErr, option_map, IsSome};
ghost use Rattle.annex_base.specs.Causes.{Rose};
ghost use Rattle.annex_base.specs.declared.kinds.Call.TheVariants as calls;
ghost use Rattle.object_store.specs.Stores.{with_at};
ghost use Rattle.run_data.specs.declared.entry.By.{By};
ghost use Rattle.union_merge.specs.Branch.{file_at, lines_at};
ghost use Rattle.union_merge.specs.LineSet.{IsLine, text_of};
ghost use Rattle.std.specs.Option.{ForSome};
ghost use Rattle.trust_groups.specs.Adding.{lines_and};
ghost use Rattle.trust_groups.specs.Reads.{HaveReadLines};
ghost use Rattle.trust_groups.specs.Settings.{Lines};
ghost use Rattle.node_past.specs.Calls.{Makes};
ghost use Rattle.store_entries.specs.Changes.{AddsNew, lines_after_change, changed_file, after_undo};
ghost use Rattle.node_past.specs.Owing.{first_goes, rest_if};
ghost use Rattle.node_past.specs.Pasts.{AddsTo, FailsFor, IsReady, SamePast};
ghost use Rattle.node_past.specs.Stored.{LeavesRest};

use crate::changing::{Change, Undo, changed, put_back, text_at};
use crate::indexing::grown;
use annex_base::{Call, Items, Line, NoMemory};
use node_past::{NodeRefused, Past};
use object_store::Keeper;
use owed_lines::Debt;
use run_data::{By, EntryKind};
use trust_groups::Settings;
use union_merge::{Branch, files_are_changed_alone};

/// Puts the file into the store, and adds the entry that says so, or that the store failed.
fn put<K: Keeper>(
    keeper: &mut K,
    past: &mut Past,
    path: &[u8],
    bytes: &[u8],
    kind: EntryKind,
    lines: Items<Line>,
    by: By,
) -> Result<(), NodeRefused>
    requires { IsReady past.old }
    ensures past { OnOk result (AddsTo kind lines past.old past.new) }
    ensures files { OnOk result (K.files keeper.new ≡ option_map (λ f. with_at f path.now (Some bytes.now)) (K.files keeper.old)) }
    ensures err { IfErr result (λ e. FailsFor by e calls.PutFile past.old past.new) }
    ensures err_files { OnErr result (K.files keeper.new ≡ K.files keeper.old) }
    ensures rest { LeavesRest (K.contents keeper.old) (K.contents keeper.new) (K.parts keeper.old) (K.parts keeper.new) (K.records keeper.old) (K.records keeper.new) }
    ensures later { K.faults keeper.old ≤ K.faults keeper.new }
    ensures cause { IsErrOf result NodeRefused.StoreFault → Rose (K.faults keeper.old) (K.faults keeper.new) }
    ensures calls { Makes (calls.PutFile ∷ []) calls.PutFile result (K.failing keeper.old) (K.failing keeper.new) }
    ensures not_full { IsErrOf result NodeRefused.Full → ⊥ }
{
    match keeper.put_file(path, bytes) {
        Ok(()) => {
            past.add(kind, lines);
            Ok(())
        }
        Err(fault) => Err(past.fail(fault, Call::PutFile, by)),
    }
}

/// A file that the branch has and the store doesn't have yet: its bytes, and what makes it as it was in the branch.
#[derive(Drop)]
struct Draft<'a> {
    bytes: Vec<u8>,
    undo: Undo<'a>,
}

/// Changes a file of the branch, with room for the entry that says so. All that takes memory is done; where memory runs out, the
/// branch is as it was.
fn drafted<'a>(
    branch: &mut Branch,
    past: &mut Past,
    path: &[u8],
    change: Change<'a>,
) -> Result<Draft<'a>, NodeRefused>
    requires line { IsLine path.now }
    requires new { AddsNew change (lines_at branch.old path.now) }
    ensures ready { OnOk result (IsReady past.new) }
    ensures same { SamePast past.old past.new }
    ensures bytes { IfOk result (λ d. d.bytes.items ≡ text_of (lines_after_change change.entry (lines_at branch.old path.now))) }
    ensures branch { OnOk result (branch.new ≡ changed_file branch.old path.now change.entry) }
    ensures there { OnOk result (IsSome (file_at branch.new path.now)) }
    ensures undo { IfOk result (λ d. after_undo branch.new path.now d.undo ≡ branch.old) }
    ensures err { (by : By) → IfErr result (λ e. FailsFor by e calls.PutFile past.old past.new) }
    ensures err_branch { OnErr result (branch.new ≡ branch.old) }
    ensures no_fault { IsErrOf result NodeRefused.StoreFault → ⊥ }
{
    // A law, for the proof: a file that is given lines has these.
    files_are_changed_alone();
    past.ready()?;
    let undo = changed(branch, path, change)?;
    match text_at(past.alloc, branch, path) {
        Ok(bytes) => Ok(Draft { bytes, undo }),
        Err(NoMemory) => {
            put_back(branch, path, undo);
            Err(NodeRefused::NoMemory)
        }
    }
}

/// Changes a file of the branch, in the store too, by an entry of this kind with the lines that are new. Where the store fails, the
/// branch has the file as it was.
fn write_file<K: Keeper>(
    keeper: &mut K,
    branch: &mut Branch,
    past: &mut Past,
    path: &[u8],
    change: Change<'_>,
    kind: EntryKind,
    lines: Items<Line>,
    by: By,
) -> Result<(), NodeRefused>
    requires line { IsLine path.now }
    requires new { AddsNew change (lines_at branch.old path.now) }
    ensures branch { OnOk result (branch.new ≡ changed_file branch.old path.now change.entry) }
    ensures past { OnOk result (AddsTo kind lines past.old past.new) }
    ensures files { OnOk result (K.files keeper.new ≡ option_map (λ f. with_at f path.now (Some (text_of (lines_after_change change.entry (lines_at branch.old path.now))))) (K.files keeper.old)) }
    ensures err { IfErr result (λ e. FailsFor by e calls.PutFile past.old past.new) }
    ensures err_branch { OnErr result (branch.new ≡ branch.old) }
    ensures err_files { OnErr result (K.files keeper.new ≡ K.files keeper.old) }
    ensures rest { LeavesRest (K.contents keeper.old) (K.contents keeper.new) (K.parts keeper.old) (K.parts keeper.new) (K.records keeper.old) (K.records keeper.new) }
    ensures later { K.faults keeper.old ≤ K.faults keeper.new }
    ensures cause { IsErrOf result NodeRefused.StoreFault → Rose (K.faults keeper.old) (K.faults keeper.new) }
    ensures calls { Makes (calls.PutFile ∷ []) calls.PutFile result (K.failing keeper.old) (K.failing keeper.new) }
    ensures unasked { IsErrOf result NodeRefused.Full → keeper.new ≡ keeper.old }
{
    let draft = drafted(branch, past, path, change)?;
    match put(keeper, past, path, &draft.bytes, kind, lines, by) {
        Ok(()) => Ok(()),
        Err(refused) => {
            put_back(branch, path, draft.undo);
            Err(refused)
        }
    }
}

/// The same, with the index of settings beside the branch: it gets the new lines.
fn write_indexed<K: Keeper>(
    keeper: &mut K,
    branch: &mut Branch,
    past: &mut Past,
    index: &mut Option<Settings>,
    path: &[u8],
    change: Change<'_>,
    kind: EntryKind,
    lines: Items<Line>,
    new: &[Line],
    by: By,
) -> Result<(), NodeRefused>
    requires line { IsLine path.now }
    requires new { AddsNew change (lines_at branch.old path.now) }
    ensures index { OnOk result ((was : Lines) → ForSome index.old (λ i. HaveReadLines i was) → ForSome index.new (λ i. HaveReadLines i (lines_and was path.now new.now))) }
    ensures err_index { OnErr result (index.new ≡ index.old) }
    ensures branch { OnOk result (branch.new ≡ changed_file branch.old path.now change.entry) }
    ensures past { OnOk result (AddsTo kind lines past.old past.new) }
    ensures files { OnOk result (K.files keeper.new ≡ option_map (λ f. with_at f path.now (Some (text_of (lines_after_change change.entry (lines_at branch.old path.now))))) (K.files keeper.old)) }
    ensures err { IfErr result (λ e. FailsFor by e calls.PutFile past.old past.new) }
    ensures err_branch { OnErr result (branch.new ≡ branch.old) }
    ensures err_files { OnErr result (K.files keeper.new ≡ K.files keeper.old) }
    ensures rest { LeavesRest (K.contents keeper.old) (K.contents keeper.new) (K.parts keeper.old) (K.parts keeper.new) (K.records keeper.old) (K.records keeper.new) }
    ensures later { K.faults keeper.old ≤ K.faults keeper.new }
    ensures cause { IsErrOf result NodeRefused.StoreFault → Rose (K.faults keeper.old) (K.faults keeper.new) }
    ensures calls { Makes (calls.PutFile ∷ []) calls.PutFile result (K.failing keeper.old) (K.failing keeper.new) }
    ensures unasked { IsErrOf result NodeRefused.Full → keeper.new ≡ keeper.old }
{
    match write_file(keeper, branch, past, path, change, kind, lines, by) {
        Ok(()) => {
            *index = grown(index.take(), path, new);
            Ok(())
        }
        Err(refused) => Err(refused),
    }
}

/// Whether the first line is no longer owed, after a write that answered so.
fn first_goes(paid: bool, by: By, answer: &Result<(), NodeRefused>) -> bool
    ensures { result ≡ first_goes paid by answer.now }
{
    match answer {
        Ok(()) => paid,
        Err(NodeRefused::StoreFault) => match by {
            By::Script => false,
            By::Job(_) | By::Peer { .. } => true,
        },
        Err(NodeRefused::Full | NodeRefused::BadBundle { .. } | NodeRefused::NoMemory) => false,
    }
}

/// Takes the first debt away, if so.
fn drop_first(debts: &mut Vec<Debt>, goes: bool)
    ensures { debts.new.items ≡ rest_if goes debts.old.items }
{
    if goes && !debts.is_empty() {
        debts.remove(0);
    }
}

/// The same, with the lines that are owed: the first goes where it is paid, and where a job or a peer fails to write a file.
pub fn write_beside<K: Keeper>(
    keeper: &mut K,
    branch: &mut Branch,
    past: &mut Past,
    index: &mut Option<Settings>,
    debts: &mut Vec<Debt>,
    path: &[u8],
    change: Change<'_>,
    kind: EntryKind,
    lines: Items<Line>,
    new: &[Line],
    by: By,
    paid: bool,
) -> Result<(), NodeRefused>
    requires line { IsLine path.now }
    requires new { AddsNew change (lines_at branch.old path.now) }
    ensures debts { debts.new.items ≡ rest_if (first_goes paid by result) debts.old.items }
    ensures index { OnOk result ((was : Lines) → ForSome index.old (λ i. HaveReadLines i was) → ForSome index.new (λ i. HaveReadLines i (lines_and was path.now new.now))) }
    ensures err_index { OnErr result (index.new ≡ index.old) }
    ensures branch { OnOk result (branch.new ≡ changed_file branch.old path.now change.entry) }
    ensures past { OnOk result (AddsTo kind lines past.old past.new) }
    ensures files { OnOk result (K.files keeper.new ≡ option_map (λ f. with_at f path.now (Some (text_of (lines_after_change change.entry (lines_at branch.old path.now))))) (K.files keeper.old)) }
    ensures err { IfErr result (λ e. FailsFor by e calls.PutFile past.old past.new) }
    ensures err_branch { OnErr result (branch.new ≡ branch.old) }
    ensures err_files { OnErr result (K.files keeper.new ≡ K.files keeper.old) }
    ensures rest { LeavesRest (K.contents keeper.old) (K.contents keeper.new) (K.parts keeper.old) (K.parts keeper.new) (K.records keeper.old) (K.records keeper.new) }
    ensures later { K.faults keeper.old ≤ K.faults keeper.new }
    ensures cause { IsErrOf result NodeRefused.StoreFault → Rose (K.faults keeper.old) (K.faults keeper.new) }
    ensures calls { Makes (calls.PutFile ∷ []) calls.PutFile result (K.failing keeper.old) (K.failing keeper.new) }
    ensures unasked { IsErrOf result NodeRefused.Full → keeper.new ≡ keeper.old }
{
    let answer = write_indexed(
        keeper, branch, past, index, path, change, kind, lines, new, by,
    );
    let goes = first_goes(paid, by, &answer);
    drop_first(debts, goes);
    answer
}
