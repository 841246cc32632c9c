//! A ledger, and what it shows of itself.
ghost use Rattle.std.specs.Prelude.{List, None, nat_le, ◌≡◌, ◌≤◌, ◌<◌, ◌^◌, ℕ, [], Some, max, length, slice_get, OnOk, OnErr};
ghost use Rattle.std.specs.Option.{ForSome, option_map};
ghost use Rattle.object_store.specs.Calls.{one_more};
ghost use Rattle.node_ledger.specs.Ledgers.{HasFiles};
ghost use Rattle.run_data.specs.Histories.{most_entries};

use annex_base::{Call, NoMemory};
use node_past::{Ended, Past, Setup};
use object_store::{FailingKeeper, Keeper};
use owed_lines::Debt;
use run_data::Entry;
use std::alloc::Global;
use std::marker::Model;
use trust_groups::Settings;
use union_merge::Branch;

/// What a repository of a run has beside its lock table, its ends, its sessions and its jobs (own): its store, its branch, its history, and the
/// lines that it owes the branch.
pub struct Ledger<K: Keeper> {
    pub keeper: K,
    pub branch: Branch,
    pub past: Past,
    /// The index of the branch's settings; none after a line couldn't be added to it for want of memory.
    pub index: Option<Settings>,
    /// What owes the lines that are owed, the first to be paid first.
    pub debts: Vec<Debt>,
}

impl<K: Keeper> Model for Ledger<K> {
    ghost use Rattle.node_ledger.specs.Ledgers.{HasFiles, LedgerView};
    ghost use Rattle.node_past.specs.Owing.{AreDebts, owed_at};
    ghost use Rattle.store_entries.specs.Indexed.{IsIndexed};

    ghost Value = { LedgerView K };

    ghost view = { λ n. record { setup = n.past.setup; keeper = n.keeper; parts = tt; branch = n.branch; time = n.past.time; count = n.past.count; clock = n.past.clock; history = n.past.history.items; outcomes = n.past.outcomes.items; owed = owed_at n.past.setup.number n.past.history.items n.debts.items } };

    // The store has the branch's files, the index is that of the branch, and each debt is one line, of one of the repositories.
    ghost invariant = { λ n. HasFiles (K.files n.keeper) n.branch × IsIndexed n.index n.branch × AreDebts n.past.setup n.past.history.items n.debts.items };
}

impl<K: Keeper> Ledger<K> {
    /// A ledger before its first entry. Its store has no file, and its clock was set at the script's time 0, to its wall clock.
    pub fn new(alloc: Global, setup: Setup, keeper: K) -> Ledger<K>
        requires files { ForSome (K.files keeper) (λ f. (path : List ℕ) → f path ≡ None) }
        requires own { slice_get setup.repos setup.number ≡ Some setup.id }
        requires offset { setup.offset ≤ 100000000000 }
        ensures { result ≡ record { setup = setup; keeper = keeper; parts = tt; branch = []; time = 0; count = 0; clock = record { at = 0; to = setup.offset }; history = []; outcomes = []; owed = [] } }
    {
        Ledger {
            keeper,
            branch: Branch::new(alloc),
            past: Past::new(alloc, setup),
            index: Some(Settings::new(alloc)),
            debts: Vec::new(alloc),
        }
    }

    /// The allocator of all that it takes.
    pub fn allocator(&self) -> Global {
        self.past.alloc
    }

    /// Raises the time, in milliseconds of the script, and the count of the last entry. Neither ever falls.
    pub fn advance(&mut self, time: u64, count: u64)
        requires time { time ≤ 1000000000000 }
        requires count { count < 2 ^ 61 }
        ensures { self.new ≡ record self.old { time = max self.old.time time; count = max self.old.count count } }
    {
        self.past.advance(time, count);
    }

    /// The place of its repository among those of the run.
    pub fn number(&self) -> u32
        ensures value { result ≡ self.now.setup.number }
        ensures there { result < length self.now.setup.repos }
    {
        self.past.number()
    }

    /// Whether it has as many entries as it may have.
    pub fn is_full(&self) -> bool
        ensures { result ≡ nat_le most_entries (length self.now.history) }
    {
        self.past.is_full()
    }

    /// Its entries, the oldest first. Its store has the files of its branch.
    pub fn history(&self) -> &[Entry]
        ensures value { result.now ≡ self.now.history }
        ensures few { length self.now.history ≤ most_entries }
        ensures counted { self.now.count < 2 ^ 62 }
        ensures early { self.now.time ≤ 1000000000000 }
        ensures files { HasFiles (K.files self.now.keeper) self.now.branch }
    {
        &self.past.history
    }

    /// Its jobs that have ended, in the order of their ends.
    pub fn outcomes(&self) -> &[Ended]
        ensures { result.now ≡ self.now.outcomes }
    {
        &self.past.outcomes
    }

    pub fn keeper(&self) -> &K
        ensures { result.now ≡ self.now.keeper }
    {
        &self.keeper
    }

    pub fn branch(&self) -> &Branch
        ensures { result.now ≡ self.now.branch }
    {
        &self.branch
    }

    /// Hands its store back.
    pub fn dissolve(self) -> K
        ensures { result ≡ self.keeper }
    {
        let Ledger {
            keeper,
            branch: _,
            past: _,
            index: _,
            debts: _,
        } = self;
        keeper
    }
}

impl<K: FailingKeeper> Ledger<K> {
    /// Lets one more of the next calls of this kind of its store fail, and changes nothing else.
    pub fn fail_next(&mut self, call: Call) -> Result<(), NoMemory>
        ensures ok { OnOk result (K.failing self.new.keeper ≡ option_map (one_more call) (K.failing self.old.keeper)) }
        ensures err { OnErr result (K.failing self.new.keeper ≡ K.failing self.old.keeper) }
        ensures contents { K.contents self.new.keeper ≡ K.contents self.old.keeper }
        ensures parts { K.parts self.new.keeper ≡ K.parts self.old.keeper }
        ensures records { K.records self.new.keeper ≡ K.records self.old.keeper }
        ensures files { K.files self.new.keeper ≡ K.files self.old.keeper }
        ensures faults { K.faults self.new.keeper ≡ K.faults self.old.keeper }
        ensures rest { self.new ≡ record self.old { keeper = self.new.keeper } }
    {
        self.keeper.fail_next(call)
    }
}
