//! The next entries of a repository.
ghost use Rattle.std.specs.Prelude.{◌≡◌, ◌<◌, ◌≤◌, ◌^◌, [], Some, length, max, nat_le, nat_lt, slice_get, vec_capacity, vec_len, IfErr, IsErrOf, OnOk, ◌+◌};
ghost use Rattle.annex_base.specs.declared.kinds.Call.{Call};
ghost use Rattle.object_store.specs.declared.keeper.KeeperFault.TheVariants as faults;
ghost use Rattle.run_data.specs.declared.entry.By.{By};
ghost use Rattle.node_past.specs.Calls.{refusal_of};
ghost use Rattle.node_past.specs.Pasts.{AddsTo, Crashes, FailsFor, IsReady, SamePast, Enters};
ghost use Rattle.run_data.specs.Histories.{most_entries};
ghost use Rattle.node_model.specs.OwedLines.{stamp_at};

use crate::past::Past;
use crate::refused::NodeRefused;
use crate::setup::{SetClock, Setup};
use annex_base::{Call, Items, Line, NoMemory, Stamp};
use object_store::KeeperFault;
use run_data::{By, Entry, EntryKind, FrameView};
use std::alloc::Global;

/// The script's time 0 in milliseconds since 1970 (own).
const SCRIPT_START: u64 = 1_700_000_000_000;

/// How many entries a history has at most.
const MOST_ENTRIES: usize = 100_000;

impl Past {
    /// The past before the first entry. Its clock was set at the script's time 0, to its wall clock.
    pub fn new(alloc: Global, setup: Setup) -> Past
        requires own { slice_get setup.repos setup.number ≡ Some setup.id }
        requires offset { setup.offset ≤ 100000000000 }
        ensures setup { result.setup ≡ setup }
        ensures time { result.time ≡ 0 }
        ensures clock { result.clock ≡ record { at = 0; to = setup.offset } }
        ensures count { result.count ≡ 0 }
        ensures history { result.history.items ≡ [] }
        ensures outcomes { result.outcomes.items ≡ [] }
    {
        let clock = SetClock {
            at: 0,
            to: setup.offset,
        };
        Past {
            alloc,
            setup,
            time: 0,
            clock,
            count: 0,
            history: Vec::new(alloc),
            outcomes: Vec::new(alloc),
        }
    }

    /// The place of its repository among those of the run.
    pub fn number(&self) -> u32
        ensures value { result ≡ self.now.setup.number }
        ensures there { result < length self.now.setup.repos }
    {
        self.setup.number
    }

    /// Its wall clock as a stamp.
    pub fn stamp(&self) -> Stamp
        ensures { result ≡ stamp_at (self.now.time + self.now.setup.offset) }
    {
        let clock = self.time + self.setup.offset;
        Stamp {
            nanos: (SCRIPT_START + clock) * 1_000_000,
        }
    }

    /// Raises the time, in milliseconds of the script, and the count of the last entry. Neither ever falls.
    pub fn advance(&mut self, time: u64, count: u64)
        requires time { time ≤ 1000000000000 }
        requires count { count < 2 ^ 61 }
        ensures time { self.new.time ≡ max self.old.time time }
        ensures count { self.new.count ≡ max self.old.count count }
        ensures setup { self.new.setup ≡ self.old.setup }
        ensures clock { self.new.clock ≡ self.old.clock }
        ensures history { self.new.history ≡ self.old.history }
        ensures outcomes { self.new.outcomes ≡ self.old.outcomes }
    {
        self.time = self.time.max(time);
        self.count = self.count.max(count);
    }

    /// Whether it has as many entries as it may have.
    pub fn is_full(&self) -> bool
        ensures { result ≡ nat_le most_entries (vec_len self.now.history) }
    {
        self.history.len() >= MOST_ENTRIES
    }

    /// Whether so many more entries are more than it may have.
    pub fn lacks(&self, count: usize) -> bool
        ensures { result ≡ nat_lt most_entries (vec_len self.now.history + count) }
    {
        MOST_ENTRIES - self.history.len() < count
    }

    /// Reserves the places of so many more entries.
    pub fn reserve_places(&mut self, count: usize) -> Result<(), NoMemory>
        ensures room { OnOk result (vec_len self.new.history + count ≤ vec_capacity self.new.history) }
        ensures same { SamePast self.old self.new }
    {
        self.history.reserve(count)?;
        Ok(())
    }

    /// Reserves the place of one more entry.
    pub fn reserve(&mut self) -> Result<(), NoMemory>
        requires { vec_len self.old.history < most_entries }
        ensures ready { OnOk result (IsReady self.new) }
        ensures same { SamePast self.old self.new }
    {
        self.history.reserve(1)?;
        Ok(())
    }

    /// The same, for a step that a full history refuses.
    pub fn ready(&mut self) -> Result<(), NodeRefused>
        ensures ready { OnOk result (IsReady self.new) }
        ensures same { SamePast self.old self.new }
        ensures err { IfErr result (λ e. (by : By) (call : Call) → FailsFor by e call self.old self.new) }
        ensures no_fault { IsErrOf result NodeRefused.StoreFault → ⊥ }
    {
        if self.is_full() {
            return Err(NodeRefused::Full);
        }
        self.reserve()?;
        Ok(())
    }

    /// Adds an entry that takes no frame and sends none.
    pub fn add(&mut self, kind: EntryKind, lines: Items<Line>)
        requires { IsReady self.old }
        ensures { AddsTo kind lines self.old self.new }
    {
        let entry = Entry {
            time: self.time,
            count: self.count + 1,
            repo: Some(self.setup.number),
            kind,
            taken: None,
            sent: Items::new(self.alloc),
            lines,
        };
        self.history.push(entry).unwrap();
        self.count += 1;
    }

    /// Adds an entry that took this frame, if one, and sent these.
    pub fn enter(&mut self, kind: EntryKind, taken: Option<FrameView>, sent: Items<FrameView>)
        requires { IsReady self.old }
        ensures entry { Enters kind taken sent [] self.old self.new }
        ensures outcomes { self.new.outcomes ≡ self.old.outcomes }
        ensures room { vec_capacity self.new.history ≡ vec_capacity self.old.history }
    {
        let entry = Entry {
            time: self.time,
            count: self.count + 1,
            repo: Some(self.setup.number),
            kind,
            taken,
            sent,
            lines: Items::new(self.alloc),
        };
        self.history.push_reserved(entry);
        self.count += 1;
    }

    /// Adds the entry of a crash, which sends these frames, and sets the clock to this, in milliseconds, at the past's time.
    pub fn crash(&mut self, clock: u64, sent: Items<FrameView>)
        requires ready { IsReady self.old }
        requires near { clock ≤ 100000000000 }
        ensures entry { Crashes clock sent [] self.old self.new }
        ensures room { vec_capacity self.new.outcomes ≡ vec_capacity self.old.outcomes }
    {
        self.enter(EntryKind::Crash { clock }, None, sent);
        self.clock = SetClock {
            at: self.time,
            to: clock,
        };
    }

    /// A call of the store failed in a step for the script, a job or a peer: where it wasn't for want of memory, an entry says so.
    pub fn fail(&mut self, fault: KeeperFault, call: Call, by: By) -> NodeRefused
        requires { IsReady self.old }
        ensures entry { FailsFor by result call self.old self.new }
        ensures failed { result ≡ NodeRefused.StoreFault → fault ≡ faults.Failed }
        ensures told { fault ≡ faults.Failed → result ≡ NodeRefused.StoreFault }
        ensures answer { result ≡ refusal_of fault }
        ensures not_full { result ≡ NodeRefused.Full → ⊥ }
    {
        match fault {
            KeeperFault::NoMemory => NodeRefused::NoMemory,
            KeeperFault::Failed => {
                let lines = Items::new(self.alloc);
                self.add(EntryKind::Fault { call, by }, lines);
                NodeRefused::StoreFault
            }
        }
    }
}
