//! The lines that one running repository owes its branch.
ghost use Rattle.std.specs.Prelude.{◌≡◌, ◌<◌, ◌≤◌, ℕ, length, option_copied, option_map, IfOk, IfSome, OnOk};
ghost use Rattle.node_model.specs.After.{first_state, state_after};
ghost use Rattle.node_model.specs.Jobs.{taken_message};
ghost use Rattle.node_model.specs.SetUp.{SetUp};
ghost use Rattle.node_model.specs.State.{State};
ghost use Rattle.state_jobs.specs.Works.{work_of};
ghost use Rattle.state_owed.specs.Changes.{AddsWithin, IsBefore, IsChangeOf, TalksWithin, changed};
ghost use Rattle.state_owed.specs.Lines.{IsFirst};
ghost use Rattle.state_owed.specs.Owed.{AreOwedOf, AreWithin, HasRoom, StaySame, lines_of};
ghost use Rattle.state_owed.specs.Paying.{owed_so};
ghost use Rattle.run_data.specs.declared.entry.Entry.{Entry};

use crate::changes::{OwedChange, added, change_lines, failed, paid};
use crate::debts::{Debt, first, owed_for};
use crate::paying::is_paid;
use crate::telling::told_by;
use annex_base::{NoMemory, RepoId};
use p2p_wire::Message;
use run_data::{Entry, EntryKind};
use state_jobs::Work;
use std::alloc::Global;
use std::collections::VecDeque;
use union_merge::Branch;

/// The lines that one repository owes its branch, in the order in which they are written (own).
#[derive(Drop)]
pub struct Owed {
    alloc: Global,
    lines: VecDeque<Debt>,
}

impl Owed {
    /// None is owed.
    pub fn new(alloc: Global) -> Owed
        ensures owed { (s : SetUp) → AreOwedOf result (first_state s) }
        ensures within { (count : ℕ) → AreWithin count result }
    {
        Owed {
            alloc,
            lines: VecDeque::new(alloc),
        }
    }

    /// The line that is to be written first.
    pub fn first(&self) -> Option<&Debt>
        ensures { IsFirst (option_copied result) (lines_of self.now) }
    {
        first(&self.lines)
    }

    /// What an entry will change, and room for it. The repository has this place among those with these identifiers, and before the
    /// entry these files; its wall clock says this at the entry, in milliseconds of the script. Where a job talks by the entry,
    /// it is this one as it was before, and it took this message. The lines stay.
    pub fn ready(
        &mut self,
        repo: u32,
        ids: &[RepoId],
        branch: &Branch,
        clock: u64,
        entry: &Entry,
        job: Option<&Work>,
        heard: &Option<Message>,
    ) -> Result<OwedChange, NoMemory>
        requires own { repo < length ids.now }
        requires clock { clock ≤ 1100000000000 }
        requires within { AreWithin (length ids.now) self.old }
        requires job { IfSome (option_map work_of (option_copied job)) (TalksWithin (length ids.now)) }
        requires heard { heard.now ≡ taken_message entry.now.taken }
        ensures change { IfOk result (λ change. (s : SetUp) (st : State) → IsBefore s st entry.now repo ids.now branch.now clock (option_map work_of (option_copied job.entry))
            → AreOwedOf self.old st → IsChangeOf s st entry.now change) }
        ensures within { IfOk result (AddsWithin (length ids.now)) }
        ensures room { OnOk result (HasRoom self.new) }
        ensures same { StaySame self.old self.new }
    {
        let change = self.change(repo, ids, branch, clock, entry, job, heard)?;
        self.lines.reserve(1)?;
        Ok(change)
    }

    /// Takes note of an entry, by what it changes. It takes no memory.
    pub fn note(&mut self, change: OwedChange)
        requires { HasRoom self.old }
        ensures owed { (s : SetUp) (st : State) (e : Entry) → IsChangeOf s st e change → AreOwedOf self.old st → AreOwedOf self.new (state_after s st e) }
        ensures within { (count : ℕ) → AddsWithin count change → AreWithin count self.old → AreWithin count self.new }
    {
        change_lines(&mut self.lines, change);
    }

    fn change(
        &self,
        repo: u32,
        ids: &[RepoId],
        branch: &Branch,
        clock: u64,
        entry: &Entry,
        job: Option<&Work>,
        heard: &Option<Message>,
    ) -> Result<OwedChange, NoMemory>
        requires own { repo < length ids.now }
        requires clock { clock ≤ 1100000000000 }
        requires within { AreWithin (length ids.now) self.now }
        requires job { IfSome (option_map work_of (option_copied job)) (TalksWithin (length ids.now)) }
        ensures change { IfOk result (λ change. changed change (lines_of self.now)
            ≡ owed_so ids.now branch.now clock (option_map work_of (option_copied job.entry)) heard.now repo (lines_of self.now) entry.now.lines entry.now.kind) }
        ensures within { IfOk result (AddsWithin (length ids.now)) }
    {
        match &entry.kind {
            EntryKind::Gain { by, key, .. } => Ok(added(owed_for(repo, *by, true, key)?)),
            EntryKind::Gone { by, key } => Ok(added(owed_for(repo, *by, false, key)?)),
            EntryKind::Talk { .. } => Ok(added(told_by(job, heard)?)),
            EntryKind::Log { file } => {
                let new = entry.lines.as_slice();
                let goes = is_paid(self.alloc, ids, branch, clock, &self.lines, file, new)?;
                Ok(paid(goes))
            }
            EntryKind::Fault { call, by } => Ok(failed(*call, *by)),
            EntryKind::Crash { .. } => Ok(OwedChange::AllGo),
            _ => Ok(OwedChange::Stay),
        }
    }
}
