//! What the answers of the nodes are to a line.
ghost use Rattle.std.specs.Prelude.{◌≡◌, ◌⊎◌, ◌<◌, ◌≤◌, ℕ, length, slice_get, Some, Err, Ok, OnErr, OnOk};
ghost use Rattle.fleet_model.specs.Nodes.{NodeView};
ghost use Rattle.fleet_model.specs.Stored.{store_view};
ghost use Rattle.fleet_entries.specs.AtDriver.{OnlyAddsEntries};
ghost use Rattle.fleet_entries.specs.Telling.{AreFew, EndsShort, Tells};

use crate::running::Running;
use crate::stop::FleetStop;
use fleet_model::{BeginRefused, NodeRefused, Turn};
use growth_laws::runs_grow;
use object_store::FailingKeeper;

impl<K: FailingKeeper> Running<K> {
    /// The history of this repository is full.
    fn full(&self, repo: u32) -> FleetStop
        ensures stop { result ≡ FleetStop.Full repo }
        ensures few { AreFew self.now.nodes }
    {
        // For the proof: no history is longer than it may be.
        self.nodes.histories_are_few();
        FleetStop::Full { repo }
    }

    /// What the answer of a node to a step of the script is to its line: a failed store call ends the step, not the line.
    pub fn after_step(&self, repo: u32, done: Result<(), NodeRefused>) -> Result<(), FleetStop>
        requires bundle { (at : ℕ) → done ≡ Err (NodeRefused.BadBundle at) → ⊥ }
        ensures ok { OnOk result ((done ≡ Ok tt) ⊎ (done ≡ Err NodeRefused.StoreFault)) }
        ensures full { (r : ℕ) → result ≡ Err (FleetStop.Full r) → (r ≡ repo) × (done ≡ Err NodeRefused.Full) }
        ensures few { (r : ℕ) → result ≡ Err (FleetStop.Full r) → AreFew self.now.nodes }
    {
        match done {
            Ok(()) | Err(NodeRefused::StoreFault) => Ok(()),
            Err(NodeRefused::Full) => Err(self.full(repo)),
            Err(NodeRefused::NoMemory) => Err(FleetStop::NoMemory),
            // What a node gives as its bundle is one.
            Err(NodeRefused::BadBundle { .. }) => unreachable!(),
        }
    }

    /// What the answer of a node to a job is to its line: where four jobs run, nothing is done.
    pub fn after_begin(&self, repo: u32, begun: Result<u32, BeginRefused>) -> Result<(), FleetStop>
        ensures ok { OnOk result (((n : ℕ) × (begun ≡ Ok n)) ⊎ (begun ≡ Err BeginRefused.NoSlot)) }
        ensures full { (r : ℕ) → result ≡ Err (FleetStop.Full r) → (r ≡ repo) × (begun ≡ Err BeginRefused.Full) }
        ensures few { (r : ℕ) → result ≡ Err (FleetStop.Full r) → AreFew self.now.nodes }
    {
        match begun {
            Ok(_) | Err(BeginRefused::NoSlot) => Ok(()),
            Err(BeginRefused::Full) => Err(self.full(repo)),
            Err(BeginRefused::NoMemory) => Err(FleetStop::NoMemory),
        }
    }

    /// What a turn of a node is to its line.
    pub fn after_turn(&self, repo: u32, turn: Turn) -> Result<(), FleetStop>
        ensures ok { OnOk result ((turn ≡ Turn.Moved) ⊎ (turn ≡ Turn.Idle)) }
        ensures full { (r : ℕ) → result ≡ Err (FleetStop.Full r) → (r ≡ repo) × (turn ≡ Turn.Full) }
        ensures few { (r : ℕ) → result ≡ Err (FleetStop.Full r) → AreFew self.now.nodes }
    {
        match turn {
            Turn::Moved | Turn::Idle => Ok(()),
            Turn::Full => Err(self.full(repo)),
            Turn::NoMemory => Err(FleetStop::NoMemory),
        }
    }

    /// Ends a call of a node, after which the line is to go on so: adds copies of the entries that the node has made since it had so
    /// many. Where memory ran out for the node, none is added.
    pub fn end_call(
        &mut self,
        repo: u32,
        had: usize,
        line: Result<(), FleetStop>,
    ) -> Result<(), FleetStop>
        requires there { repo < length self.old.nodes }
        requires had { (n : NodeView K) → slice_get self.old.nodes repo ≡ Some n → had ≤ length n.history }
        ensures ok { OnOk result ((line ≡ Ok tt) × Tells (λ k. store_view (K.contents k) (K.parts k) (K.failing k) (K.faults k)) repo had self.old self.new) }
        ensures full { (r : ℕ) → result ≡ Err (FleetStop.Full r) → (line ≡ Err (FleetStop.Full r)) × Tells (λ k. store_view (K.contents k) (K.parts k) (K.failing k) (K.faults k)) repo had self.old self.new }
        ensures stopped { OnErr result (EndsShort (λ k. store_view (K.contents k) (K.parts k) (K.failing k) (K.faults k)) repo had self.old self.new) }
        ensures short { line ≡ Err FleetStop.NoMemory → self.new.run ≡ self.old.run }
        ensures nodes { self.new.nodes ≡ self.old.nodes }
        ensures rest { OnlyAddsEntries self.old self.new }
    {
        // A law: each start of a run is a run.
        runs_grow();
        if let Err(FleetStop::NoMemory) = line {
            return line;
        }
        self.tell(repo, had)?;
        line
    }
}
