//! A job of a node begins.
ghost use Rattle.std.specs.Prelude.{◌≡◌, ◌≤◌, ◌<◌, ◌+◌, ◌-◌, ◌^◌, Err, [], None, length, vec_len, IfOk, IsErrOf, OnErr, OnOk};
ghost use Rattle.object_store.specs.Stores.{Parts as StoredParts};
ghost use Rattle.run_data.specs.declared.entry.Entry.{Entry};
ghost use Rattle.run_data.specs.declared.entry.EntryKind.TheVariants.{Begin};
ghost use Rattle.node_steps.specs.Beginning.{Begins, MayBegin};
ghost use Rattle.node_model.specs.After.{state_after};
ghost use Rattle.node_model.specs.SetUp.{SetUp};
ghost use Rattle.node_model.specs.State.{State};
ghost use Rattle.node_steps.specs.Parts.{AreAllFed, AreParts};
ghost use Rattle.node_ledger.specs.Ledgers.{with_entry};
ghost use Rattle.node_past.specs.Pasts.{IsReady, SamePast};
ghost use Rattle.run_data.specs.Histories.{most_entries};

use crate::node::Node;
use annex_base::{Items, Text};
use node_past::Past;
use node_steps::{BeginRefused as JobRefused, Parts, tables_fill_as_states};
use object_store::Keeper;
use run_data::{EntryKind, Job};

/// Why a node doesn't begin a job (own).
#[derive(Clone, Copy, Debug, PartialEq, Eq)]
pub enum BeginRefused {
    /// Four jobs run.
    NoSlot,
    /// Its history has 100,000 entries.
    Full,
    /// Memory ran out.
    NoMemory,
}

/// Begins the job, of a key with these paths, and gives its number.
fn begin_parts(
    parts: &mut Parts,
    past: &mut Past,
    job: &Job,
    paths: Items<Text>,
) -> Result<u32, BeginRefused>
    requires may { MayBegin parts.old.jobs.place job.now.kind job.now.peer }
    requires few { parts.old.jobs.begun < 2 ^ 32 - 1 }
    ensures number { IfOk result (λ n. n ≡ parts.old.jobs.begun + 1) }
    ensures jobs { OnOk result (Begins parts.old.jobs job.now paths parts.new.jobs) }
    ensures rest { parts.new ≡ record parts.old { jobs = parts.new.jobs } }
    ensures fed { OnOk result ((q : StoredParts) → AreAllFed q parts.old → AreAllFed q parts.new) }
    ensures parts { OnOk result ((s : SetUp) (st : State) (e : Entry) → AreParts s st parts.old → e.kind ≡ Begin (parts.old.jobs.begun + 1) job.now → e.taken ≡ None → e.sent ≡ [] → AreParts s (state_after s st e) parts.new) }
    ensures slot { IsErrOf result BeginRefused.NoSlot → 4 ≤ length parts.old.jobs.running }
    ensures full { IsErrOf result BeginRefused.Full → vec_len past.old.history ≡ most_entries }
    ensures free { (result ≡ Err BeginRefused.NoSlot → ⊥) → length parts.old.jobs.running < 4 }
    ensures ready { OnOk result (IsReady past.new) }
    ensures same { SamePast past.old past.new }
    ensures err { OnErr result (parts.new ≡ parts.old) }
{
    if !parts.has_slot() {
        return Err(BeginRefused::NoSlot);
    }
    if past.is_full() {
        return Err(BeginRefused::Full);
    }
    if past.reserve().is_err() {
        return Err(BeginRefused::NoMemory);
    }
    let Ok(copy) = job.clone() else {
        return Err(BeginRefused::NoMemory);
    };
    match parts.begin(past.alloc, copy, paths) {
        Ok(number) => Ok(number),
        Err(JobRefused::NoSlot) => unreachable!(),
        Err(JobRefused::NoMemory) => Err(BeginRefused::NoMemory),
    }
}

impl<K: Keeper> Node<K> {
    /// Begins a job by one entry, and gives its number, one more than were begun: a drop, a get, or a copy or a move, whose peer
    /// is another repository. Its key has these paths in the tree. After a refusal all is as before.
    pub fn begin(&mut self, job: Job, paths: Items<Text>) -> Result<u32, BeginRefused>
        requires may { MayBegin (record { number = self.old.setup.number; ids = self.old.setup.repos }) job.kind job.peer }
        ensures number { IfOk result (λ n. n ≡ self.old.parts.jobs.begun + 1) }
        ensures jobs { OnOk result (Begins self.old.parts.jobs job paths self.new.parts.jobs) }
        ensures ok { IfOk result (λ n. self.new ≡ record (with_entry self.old self.old.keeper self.old.branch (Begin n job) []) { parts = record self.old.parts { jobs = self.new.parts.jobs } }) }
        ensures slot { IsErrOf result BeginRefused.NoSlot → 4 ≤ length self.old.parts.jobs.running }
        ensures free { (result ≡ Err BeginRefused.NoSlot → ⊥) → length self.old.parts.jobs.running < 4 }
        ensures full { IsErrOf result BeginRefused.Full → length self.old.history ≡ most_entries }
        ensures err { OnErr result (self.new ≡ self.old) }
    {
        // For the proof: a law, and what the parts have of the table.
        tables_fill_as_states();
        let ledger = &mut self.ledger;
        let number = begin_parts(&mut self.parts, &mut ledger.past, &job, paths)?;
        // For the proof: what its parts have is sound.
        let _ = self.parts.table();
        let lines = Items::new(ledger.past.alloc);
        let kind = EntryKind::Begin {
            job: number,
            what: job,
        };
        ledger.past.add(kind, lines);
        Ok(number)
    }
}
