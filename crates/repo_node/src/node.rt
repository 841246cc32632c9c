//! A node, and what it shows of itself.
ghost use Rattle.std.specs.Prelude.{◌≡◌, ◌≢◌, ◌≤◌, ◌<◌, ◌^◌, ◌*◌, [], Some, max, length, replicate, slice_get, AllPairs, IfOk, OnOk, OnErr};
ghost use Rattle.std.specs.Option.{option_map};
ghost use Rattle.content_lock.specs.Stored.{Agrees};
ghost use Rattle.link_ring.specs.Ends.{fresh};
ghost use Rattle.object_store.specs.Calls.{one_more};
ghost use Rattle.node_model.specs.SetUp.{SetUp};
ghost use Rattle.node_steps.specs.Sound.{AreSound};
ghost use Rattle.node_steps.specs.Nodes.{MatchesSetup, IsState, state_of, told_of};
ghost use Rattle.node_ledger.specs.Ledgers.{HasFiles};
ghost use Rattle.run_data.specs.Histories.{most_entries};
ghost use Rattle.node_past.specs.Stored.{HasNothing};

use annex_base::{Call, Items, NoMemory, RepoId};
use content_lock::LockTable;
use link_ring::Links;
use node_ledger::Ledger;
use node_past::{Ended, Setup};
use node_steps::{Parts, direct_entries_keep_parts};
use object_store::{FailingKeeper, Keeper};
use run_data::Entry;
use std::alloc::Global;
use std::marker::Model;
use union_merge::Branch;

/// A repository of a run (own). It knows its own store, rows and branch, and of the others what reaches it over its ends. What
/// it has is the state that its history leaves. It has tokens to spend, so it is dissolved and never dropped.
pub struct Node<K: Keeper> {
    /// Its store, its branch, its history, and the lines that it owes the branch.
    pub(crate) ledger: Ledger<K>,
    /// Its lock table, its ends, its sessions and its running jobs.
    pub(crate) parts: Parts,
}

impl<K: Keeper> Model for Node<K> {
    ghost use Rattle.node_steps.specs.Nodes.{NodeView, beside};
    ghost use Rattle.node_steps.specs.Kept.{Stands};

    ghost Value = { NodeView K };

    ghost view = { λ n. beside n.parts n.ledger };

    ghost invariant = { λ n. Stands n.ledger n.parts (K.contents n.ledger.keeper) (K.parts n.ledger.keeper) (K.records n.ledger.keeper) };
}

/// Copies of identifiers.
fn copies_of(alloc: Global, ids: &[RepoId]) -> Result<Items<RepoId>, NoMemory>
    ensures { IfOk result (λ copies. copies ≡ ids.now) }
{
    let mut copies = Vec::new(alloc);
    copies.extend_from_slice(ids)?;
    Ok(Items::from_vec(copies))
}

impl<K: Keeper> Node<K> {
    /// A node before its first entry. Its store is empty, its clock was set at the script's time 0, to its wall clock, and its
    /// links are those that `make_links` gave for as many repositories at its place.
    pub fn new(alloc: Global, setup: Setup, keeper: K, links: Links) -> Result<Node<K>, NoMemory>
        requires empty { HasNothing (K.contents keeper) (K.parts keeper) (K.records keeper) (K.files keeper) }
        requires own { slice_get setup.repos setup.number ≡ Some setup.id }
        requires apart { AllPairs (λ a b. a ≢ b) setup.repos }
        requires offset { setup.offset ≤ 100000000000 }
        requires oldest { 1 ≤ setup.version }
        requires newest { setup.version ≤ 3 }
        requires few { length setup.repos < 2 ^ 32 }
        requires links { links.ends.items ≡ replicate (length setup.repos * 8) fresh }
        ensures node { IfOk result (λ n. n ≡ record { setup = setup; keeper = keeper; parts = n.parts; branch = []; time = 0; count = 0; clock = record { at = 0; to = setup.offset }; history = []; outcomes = []; owed = [] }) }
        ensures table { IfOk result (λ n. n.parts.table ≡ record { holds = []; bars = []; fills = [] }) }
        ensures links { IfOk result (λ n. n.parts.links ≡ replicate (length setup.repos * 8) fresh) }
        ensures jobs { IfOk result (λ n. n.parts.jobs ≡ record { place = record { number = setup.number; ids = setup.repos }; running = []; begun = 0 }) }
    {
        let ids = copies_of(alloc, setup.repos.as_slice())?;
        let parts = Parts::new(
            alloc,
            setup.number,
            setup.id,
            ids,
            setup.version,
            setup.locks,
            links,
        )?;
        // For the proof: a law, and that what the parts have of the table is sound.
        direct_entries_keep_parts();
        let _ = parts.table();
        Ok(Node {
            ledger: Ledger::new(alloc, setup, keeper),
            parts,
        })
    }

    /// Raises the time, in milliseconds of the script, and the count of the last entry. Neither ever falls.
    pub fn advance(&mut self, time: u64, count: u64)
        requires time { time ≤ 1000000000000 }
        requires count { count < 2 ^ 61 }
        ensures { self.new ≡ record self.old { time = max self.old.time time; count = max self.old.count count } }
    {
        self.ledger.advance(time, count);
    }

    /// Its entries, the oldest first. Its rows, its branch and its store are the state that they leave (own).
    pub fn history(&self) -> &[Entry]
        ensures value { result.now ≡ self.now.history }
        ensures few { length self.now.history ≤ most_entries }
        ensures counted { self.now.count < 2 ^ 62 }
        ensures early { self.now.time ≤ 1000000000000 }
        ensures state { (s : SetUp) → MatchesSetup self.now.setup s → IsState s self.now.parts self.now.branch self.now.owed (told_of (K.contents self.now.keeper) (K.parts self.now.keeper)) (state_of s self.now.history) }
        ensures files { HasFiles (K.files self.now.keeper) self.now.branch }
        ensures records { Agrees (K.records self.now.keeper) self.now.parts.table.holds }

        // Its sessions, its jobs and its ends have what is theirs.
        ensures sound { AreSound self.now.parts }
    {
        // For the proof: what its parts have is sound.
        let _ = self.parts.table();
        self.ledger.history()
    }

    /// Its jobs that have ended, in the order of their ends.
    pub fn outcomes(&self) -> &[Ended]
        ensures { result.now ≡ self.now.outcomes }
    {
        self.ledger.outcomes()
    }

    pub fn keeper(&self) -> &K
        ensures { result.now ≡ self.now.keeper }
    {
        self.ledger.keeper()
    }

    pub fn branch(&self) -> &Branch
        ensures { result.now ≡ self.now.branch }
    {
        self.ledger.branch()
    }

    pub fn table(&self) -> &LockTable
        ensures { result.now ≡ self.now.parts.table }
    {
        self.parts.table()
    }

    /// Spends what its jobs and sessions have of it, and hands its store back.
    pub fn dissolve(self) -> K
        ensures { result ≡ self.keeper }
    {
        let Node { ledger, parts } = self;
        parts.dissolve();
        ledger.dissolve()
    }
}

impl<K: FailingKeeper> Node<K> {
    /// Lets one more of the next calls of this kind of its store fail, and changes nothing else.
    pub fn fail_next(&mut self, call: Call) -> Result<(), NoMemory>
        ensures ok { OnOk result (K.failing self.new.keeper ≡ option_map (one_more call) (K.failing self.old.keeper)) }
        ensures err { OnErr result (K.failing self.new.keeper ≡ K.failing self.old.keeper) }
        ensures contents { K.contents self.new.keeper ≡ K.contents self.old.keeper }
        ensures parts { K.parts self.new.keeper ≡ K.parts self.old.keeper }
        ensures records { K.records self.new.keeper ≡ K.records self.old.keeper }
        ensures files { K.files self.new.keeper ≡ K.files self.old.keeper }
        ensures faults { K.faults self.new.keeper ≡ K.faults self.old.keeper }
        ensures rest { self.new ≡ record self.old { keeper = self.new.keeper } }
    {
        self.ledger.fail_next(call)
    }
}
