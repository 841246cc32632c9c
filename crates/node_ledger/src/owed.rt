//! The lines that a ledger owes its branch: whether it has a content.
ghost use Rattle.std.specs.Prelude.{◌≡◌, ◌≤◌, ◌<◌, true, List, ℕ, [], ◌∷◌, length, bytes_eq, IfOk, IfErr, IfSome, IsErrOf, OnErr, OnOk, option_map, option_to_list, slice_get};
ghost use Rattle.annex_base.specs.Causes.{Rose};
ghost use Rattle.annex_base.specs.declared.kinds.Call.TheVariants as calls;
ghost use Rattle.node_model.specs.OwedLines.{OwedLine, if_new, owed_for, same_lines, status_line};
ghost use Rattle.hash_dirs.specs.LogPath.{location_path};
ghost use Rattle.run_data.specs.Files.{file_path};
ghost use Rattle.run_data.specs.declared.entry.Entry.{Entry};
ghost use Rattle.run_data.specs.declared.entry.LogFile.{LogFile};
ghost use Rattle.node_past.specs.Calls.{Makes};
ghost use Rattle.node_ledger.specs.Debts.{IsDraftOf, IsFirstDraft, owed_line_of, with_status};
ghost use Rattle.node_ledger.specs.Ledgers.{are_due, due_by, id_known, is_due};
ghost use Rattle.node_past.specs.Owing.{AreDebts, IsDebt, IsFirstOf, is_owing, owed_at, owed_by, owed_by_debt, owed_of};
ghost use Rattle.node_past.specs.declared.setup.Setup.{Setup};
ghost use Rattle.owed_lines.specs.Lines.{line_of};
ghost use Rattle.node_ledger.specs.Refusals.{RefusesFor};

use crate::ledger::Ledger;
use annex_base::{Line, NoMemory, RepoId, Text};
use annex_key::Key;
use branch_lines::{if_new, same_lines, status_line};
use hash_dirs::location_path;
use node_past::{NodeRefused, Past};
use object_store::Keeper;
use owed_lines::{Debt, ToldLine};
use run_data::{By, Entry, EntryKind, LogFile};
use union_merge::LineSet;

/// A line that is owed: by what, and of which repository's copy of the key, which is there or isn't.
#[derive(Clone, Copy)]
pub(crate) struct Due<'a> {
    pub by: By,
    pub repo: u32,
    pub there: bool,
    pub key: &'a Key,
}

/// An entry of a key's location log before it is written: by what, and the file with its new lines.
#[derive(Drop)]
pub(crate) struct Draft {
    pub by: By,
    pub file: LogFile,
    pub path: Text,
    pub new: LineSet,
}

/// The line that is owed where the copy of the repository of this number came or went.
fn copy_due(number: u32, by: By, there: bool, key: &Key) -> Option<Due<'_>>
    ensures owes { option_to_list (option_map owed_line_of result) ≡ owed_for number by there key.now }
    ensures own { IfSome result (λ d. d.repo ≡ number) }
{
    match by {
        By::Script => None,
        By::Job(_) | By::Peer { .. } => Some(Due {
            by,
            repo: number,
            there,
            key,
        }),
    }
}

/// The line that an entry of the repository of this number owes.
fn entry_due(number: u32, entry: &Entry) -> Option<Due<'_>>
    ensures owes { option_to_list (option_map owed_line_of result) ≡ owed_by number entry.now.kind }
    ensures own { IfSome result (λ d. d.repo ≡ number) }
{
    match &entry.kind {
        EntryKind::Gain { by, size: _, key } => copy_due(number, *by, true, key),
        EntryKind::Gone { by, key } => copy_due(number, *by, false, key),
        _ => None,
    }
}

/// The line that the entry at this place owes.
fn place_due(number: u32, history: &[Entry], place: usize) -> Option<Due<'_>>
    ensures owes { option_to_list (option_map owed_line_of result) ≡ owed_of number (slice_get history.now place) }
    ensures own { IfSome result (λ d. d.repo ≡ number) }
{
    match history.get(place) {
        Some(entry) => entry_due(number, entry),
        None => None,
    }
}

/// The line that a job owes since it was told so.
fn told_due(told: &ToldLine) -> Due<'_>
    ensures owes { owed_line_of result ≡ line_of told.now }
    ensures repo { result.repo ≡ told.now.repo }
{
    Due {
        by: By::Job(told.job),
        repo: told.repo,
        there: told.there,
        key: &told.key,
    }
}

/// The line that is owed by this.
fn debt_due<'a>(debt: &'a Debt, past: &'a Past) -> Option<Due<'a>>
    ensures owes { option_to_list (option_map owed_line_of result) ≡ owed_by_debt past.now.setup.number past.now.history.items debt.now }
    ensures among { IsDebt past.now.setup past.now.history.items debt.now → IfSome result (λ d. d.repo < length past.now.setup.repos) }
{
    match debt {
        Debt::Entry(place) => place_due(past.number(), &past.history, *place),
        Debt::Told(told) => Some(told_due(told)),
    }
}

/// The line that is owed by the first of these.
fn first_due<'a>(debts: &'a [Debt], past: &'a Past) -> Option<Due<'a>>
    ensures first { AreDebts past.now.setup past.now.history.items debts.now → IsFirstOf (option_map owed_line_of result) (owed_at past.now.setup.number past.now.history.items debts.now) }
    ensures among { AreDebts past.now.setup past.now.history.items debts.now → IfSome result (λ d. d.repo < length past.now.setup.repos) }
{
    match debts.first() {
        Some(debt) => debt_due(debt, past),
        None => None,
    }
}

fn has_some(debts: &[Debt]) -> bool
    ensures { (s : Setup) (history : List Entry) → AreDebts s history debts.now → result ≡ is_owing (owed_at s.number history debts.now) }
{
    match debts.first() {
        Some(_) => true,
        None => false,
    }
}

fn same_path(path: &[u8], other: &[u8]) -> bool
    ensures { result ≡ bytes_eq path.now other.now }
{
    path == other
}

impl<K: Keeper> Ledger<K> {
    /// The identifier of a repository of the run.
    fn id_of(&self, repo: u32) -> RepoId
        requires { repo < length self.now.setup.repos }
        ensures { result ≡ id_known self.now repo }
    {
        let repos = self.past.setup.repos.as_slice();
        repos[repo as usize]
    }

    /// Whether it owes its branch a line.
    pub fn owes(&self) -> bool
        ensures { result ≡ is_owing self.now.owed }
    {
        has_some(&self.debts)
    }

    /// The first line that it owes.
    fn first_due(&self) -> Option<Due<'_>>
        ensures first { IsFirstOf (option_map owed_line_of result) self.now.owed }
        ensures among { IfSome result (λ d. d.repo < length self.now.setup.repos) }
    {
        first_due(&self.debts, &self.past)
    }

    /// What the location log at this path lacks of the line that says whether a repository has the content.
    fn due(&self, path: &[u8], repo: u32, there: bool) -> Result<LineSet, NoMemory>
        requires { repo < length self.now.setup.repos }
        ensures { (key : List ℕ) → path.now ≡ location_path key → IfOk result (λ s. s ≡ due_by self.now key repo there) }
    {
        let alloc = self.allocator();
        let id = self.id_of(repo);
        let clock = self.past.stamp();
        let branch = self.branch();
        let line = status_line(alloc, branch, path, id, there, clock)?;
        if_new(alloc, branch, path, line.bytes())
    }

    /// Whether new lines of the file of this path are just what this line is due.
    fn pays(&self, due: Due<'_>, path: &[u8], lines: &[Line]) -> Result<bool, NoMemory>
        requires { due.repo < length self.now.setup.repos }
        ensures { IfOk result (λ b. b ≡ is_due self.now path.now lines.now (owed_line_of due.entry)) }
    {
        let here = location_path(self.allocator(), due.key)?;
        let same = same_path(path, here.bytes());
        if !same {
            return Ok(false);
        }
        let new = self.due(here.bytes(), due.repo, due.there)?;
        Ok(same_lines(lines, new.lines()))
    }

    /// Whether new lines of the file of this path are just what the first line that it owes is due.
    pub(crate) fn are_due(&self, path: &[u8], lines: &[Line]) -> Result<bool, NoMemory>
        ensures { (file : LogFile) → path.now ≡ file_path file → IfOk result (λ b. b ≡ are_due self.now file lines.now self.now.owed) }
    {
        match self.first_due() {
            None => Ok(false),
            Some(due) => self.pays(due, path, lines),
        }
    }

    /// The entry that says in the key's location log whether a repository has the content.
    fn drafted(&self, key: &Key, repo: u32, there: bool, by: By) -> Result<Draft, NoMemory>
        requires { repo < length self.now.setup.repos }
        ensures { IfOk result (IsDraftOf self.now (record { by = by; repo = repo; there = there; key = key.now })) }
    {
        // For the proof: the text of a key is in the grammar, so its log has a path.
        let _ = key.text();
        let copy = key.clone()?;
        let file = LogFile::Location(copy);
        let path = file.path(self.allocator())?;
        let new = self.due(path.bytes(), repo, there)?;
        Ok(Draft {
            by,
            file,
            path,
            new,
        })
    }

    /// The entry that pays the first line that it owes.
    fn first_draft(&self) -> Result<Draft, NoMemory>
        requires { is_owing self.now.owed ≡ true }
        ensures { IfOk result (IsFirstDraft self.now) }
    {
        match self.first_due() {
            Some(due) => self.drafted(due.key, due.repo, due.there, due.by),
            None => unreachable!(),
        }
    }

    /// Says in the key's location log, by one entry, whether a repository has the content; where the log says so already, the entry
    /// has no line, and the file is written all the same (git-annex internals: location log; the entry is own).
    pub fn log_status(
        &mut self,
        key: &Key,
        repo: u32,
        there: bool,
        by: By,
    ) -> Result<(), NodeRefused>
        requires { repo < length self.old.setup.repos }
        ensures ok { OnOk result (self.new ≡ with_status self.old self.new.keeper key.now repo there) }
        ensures err { IfErr result (λ e. RefusesFor by e calls.PutFile self.old self.new) }
        ensures contents { K.contents self.new.keeper ≡ K.contents self.old.keeper }
        ensures parts { K.parts self.new.keeper ≡ K.parts self.old.keeper }
        ensures records { K.records self.new.keeper ≡ K.records self.old.keeper }
        ensures later { K.faults self.old.keeper ≤ K.faults self.new.keeper }
        ensures cause { IsErrOf result NodeRefused.StoreFault → Rose (K.faults self.old.keeper) (K.faults self.new.keeper) }
        ensures calls { Makes (calls.PutFile ∷ []) calls.PutFile result (K.failing self.old.keeper) (K.failing self.new.keeper) }
    {
        let draft = self.drafted(key, repo, there, by)?;
        self.log(draft.file, draft.path.bytes(), &draft.new, by)
    }

    /// Pays the first line that it owes, by one entry.
    pub fn pay(&mut self) -> Result<(), NodeRefused>
        requires { is_owing self.old.owed ≡ true }
        ensures ok { (o : OwedLine) (os : List OwedLine) → self.old.owed ≡ o ∷ os → OnOk result (self.new ≡ with_status self.old self.new.keeper o.key o.repo o.there) }
        ensures paid { (o : OwedLine) (os : List OwedLine) → self.old.owed ≡ o ∷ os → OnOk result (self.new.owed ≡ os) }
        ensures err { (o : OwedLine) (os : List OwedLine) → self.old.owed ≡ o ∷ os → IfErr result (λ e. RefusesFor o.by e calls.PutFile self.old self.new) }
        ensures contents { K.contents self.new.keeper ≡ K.contents self.old.keeper }
        ensures parts { K.parts self.new.keeper ≡ K.parts self.old.keeper }
        ensures records { K.records self.new.keeper ≡ K.records self.old.keeper }
        ensures err_files { OnErr result (K.files self.new.keeper ≡ K.files self.old.keeper) }
        ensures later { K.faults self.old.keeper ≤ K.faults self.new.keeper }
        ensures cause { IsErrOf result NodeRefused.StoreFault → Rose (K.faults self.old.keeper) (K.faults self.new.keeper) }
        ensures calls { Makes (calls.PutFile ∷ []) calls.PutFile result (K.failing self.old.keeper) (K.failing self.new.keeper) }
    {
        let draft = self.first_draft()?;
        self.log_paid(draft.file, draft.path.bytes(), &draft.new, draft.by, true)
    }
}
