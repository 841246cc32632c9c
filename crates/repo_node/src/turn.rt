//! One turn of a node: a line that is owed, or else the step of a session, or else of a job.
ghost use Rattle.std.specs.Prelude.{◌≡◌, ◌≢◌, ◌≤◌, true, false, length, map, is_some, IfOk, OnErr, ◌<◌};
ghost use Rattle.std.specs.List.{list_any};
ghost use Rattle.std.specs.Option.{ForSome};
ghost use Rattle.link_ring.specs.Ends.{after_drop, has_frames};
ghost use Rattle.node_ends.specs.Joined.{StayPaired};
ghost use Rattle.node_model.specs.SetUp.{SetUp};
ghost use Rattle.node_model.specs.Step.{step};
ghost use Rattle.object_store.specs.Stores.{AreSmallParts};
ghost use Rattle.node_steps.specs.Nodes.{MatchesSetup, told_of};
ghost use Rattle.run_data.specs.Histories.{most_entries};
ghost use Rattle.node_past.specs.Stored.{TellsSame, store_view};
ghost use Rattle.repo_node.specs.Turns.{turn_full, turn_made};
ghost use Rattle.node_steps.specs.Turning.{Adds, HasStep, IsIdle, StepsBy};
ghost use Rattle.node_steps.specs.Stepping.{AddsIf, MovesSo, ReadySo};

use crate::node::Node;
use annex_base::NoMemory;
use node_ends::dropped_frames_change_no_end;
use node_steps::{is_ready, step};
use object_store::Keeper;

/// What a turn did (own).
#[derive(Clone, Copy, Debug, PartialEq, Eq)]
pub enum Turn {
    /// It made one entry.
    Moved,
    /// No step was ready.
    Idle,
    /// A step was ready, but the history has 100,000 entries.
    Full,
    /// Memory ran out.
    NoMemory,
}

fn turn_of(moved: Result<bool, NoMemory>) -> Turn
    ensures { result ≡ turn_made moved }
{
    match moved {
        Ok(true) => Turn::Moved,
        Ok(false) => Turn::Idle,
        Err(NoMemory) => Turn::NoMemory,
    }
}

fn turn_of_full(ready: Result<bool, NoMemory>) -> Turn
    ensures { result ≡ turn_full ready }
{
    match ready {
        Ok(true) => Turn::Full,
        Ok(false) => Turn::Idle,
        Err(NoMemory) => Turn::NoMemory,
    }
}

impl<K: Keeper> Node<K> {
    /// Whether a frame is at hand at one of its ends. Where none is, a turn that is idle leaves the node as it was.
    pub fn has_frames(&self) -> bool
        ensures any { result ≡ list_any has_frames self.now.parts.links }
        ensures kept { result ≡ false → map after_drop self.now.parts.links ≡ self.now.parts.links }
    {
        self.parts.have_frames()
    }

    /// Drops, at each end, the frames that are never taken.
    fn drop_old(&mut self)
        ensures links { self.new ≡ record self.old { parts = record self.old.parts { links = map after_drop self.old.parts.links } } }
        ensures paired { StayPaired self.old.parts.links self.new.parts.links }
    {
        self.parts.drop_old();
    }

    /// Whether a step is ready; nothing changes.
    fn is_ready(&mut self) -> Result<bool, NoMemory>
        ensures ready { IfOk result (λ b. ForSome (told_of (K.contents self.old.keeper) (K.parts self.old.keeper)) (λ c. ReadySo b step self.old)) }
        ensures same { self.new ≡ self.old }
    {
        is_ready(&self.ledger, &mut self.parts)
    }

    /// Makes the first step that is ready, by one entry, and tells whether there was one.
    fn step(&mut self) -> Result<bool, NoMemory>
        requires { length self.old.history < most_entries }
        ensures adds { IfOk result (λ b. AddsIf b self.old.parts.links (store_view (K.contents self.old.keeper) (K.parts self.old.keeper) (K.failing self.old.keeper) (K.faults self.old.keeper)) (store_view (K.contents self.new.keeper) (K.parts self.new.keeper) (K.failing self.new.keeper) (K.faults self.new.keeper)) self.old self.new) }
        ensures step { IfOk result (λ b. ForSome (told_of (K.contents self.old.keeper) (K.parts self.old.keeper)) (λ c. MovesSo b step (store_view (K.contents self.old.keeper) (K.parts self.old.keeper) (K.failing self.old.keeper) (K.faults self.old.keeper)) (store_view (K.contents self.new.keeper) (K.parts self.new.keeper) (K.failing self.new.keeper) (K.faults self.new.keeper)) self.old self.new)) }
        ensures told_parts { is_some (K.parts self.new.keeper) ≡ is_some (K.parts self.old.keeper) }
        ensures small { AreSmallParts (K.parts self.old.keeper) → AreSmallParts (K.parts self.new.keeper) }
        ensures told_contents { is_some (K.parts self.old.keeper) ≡ true → is_some (K.contents self.new.keeper) ≡ is_some (K.contents self.old.keeper) }
        ensures err_store { OnErr result (TellsSame (K.contents self.old.keeper) (K.contents self.new.keeper) (K.parts self.old.keeper) (K.parts self.new.keeper) (K.records self.old.keeper) (K.records self.new.keeper) (K.files self.old.keeper) (K.files self.new.keeper) (K.failing self.old.keeper) (K.failing self.new.keeper)) }
        ensures paired { StayPaired self.old.parts.links self.new.parts.links }
        ensures later { K.faults self.old.keeper ≤ K.faults self.new.keeper }
        ensures err { OnErr result (self.new ≡ record self.old { keeper = self.new.keeper }) }
    {
        step(&mut self.ledger, &mut self.parts)
    }

    /// Makes the first step that is ready, by one entry: it writes the first line that is owed; else the first session, in order of
    /// client and slot, that has a step makes it; else the first job, in order of slot. Frames that are never taken are dropped at
    /// its ends first. All memory is taken before the step.
    pub fn turn(&mut self) -> Turn
        // Its entry is the step that the definitions have, and that step's calls are those that it made of its store, at every look
        // that finds what belongs to it, where the store tells its contents and its parts.
        ensures moved { result ≡ Turn.Moved → Adds (map after_drop self.old.parts.links) (store_view (K.contents self.old.keeper) (K.parts self.old.keeper) (K.failing self.old.keeper) (K.faults self.old.keeper)) (store_view (K.contents self.new.keeper) (K.parts self.new.keeper) (K.failing self.new.keeper) (K.faults self.new.keeper)) self.old self.new }
        ensures step { result ≡ Turn.Moved → ForSome (told_of (K.contents self.old.keeper) (K.parts self.old.keeper)) (λ c. StepsBy step (store_view (K.contents self.old.keeper) (K.parts self.old.keeper) (K.failing self.old.keeper) (K.faults self.old.keeper)) (store_view (K.contents self.new.keeper) (K.parts self.new.keeper) (K.failing self.new.keeper) (K.faults self.new.keeper)) self.old self.new) }
        ensures idle { result ≡ Turn.Idle → ForSome (told_of (K.contents self.old.keeper) (K.parts self.old.keeper)) (λ c. (s : SetUp) → MatchesSetup self.old.setup s → IsIdle self.old s) }
        ensures full { result ≡ Turn.Full → length self.old.history ≡ most_entries }
        ensures ready { result ≡ Turn.Full → ForSome (told_of (K.contents self.old.keeper) (K.parts self.old.keeper)) (λ c. (s : SetUp) → MatchesSetup self.old.setup s → HasStep self.old s) }

        // Else only those frames are gone.
        ensures stays { result ≢ Turn.Moved → self.new ≡ record self.old { keeper = self.new.keeper; parts = record self.old.parts { links = map after_drop self.old.parts.links } } }
        ensures unasked { result ≢ Turn.Moved → result ≢ Turn.NoMemory → self.new.keeper ≡ self.old.keeper }
        ensures short { result ≡ Turn.NoMemory → TellsSame (K.contents self.old.keeper) (K.contents self.new.keeper) (K.parts self.old.keeper) (K.parts self.new.keeper) (K.records self.old.keeper) (K.records self.new.keeper) (K.files self.old.keeper) (K.files self.new.keeper) (K.failing self.old.keeper) (K.failing self.new.keeper) }
        ensures told_parts { is_some (K.parts self.new.keeper) ≡ is_some (K.parts self.old.keeper) }
        ensures small { AreSmallParts (K.parts self.old.keeper) → AreSmallParts (K.parts self.new.keeper) }
        ensures told_contents { is_some (K.parts self.old.keeper) ≡ true → is_some (K.contents self.new.keeper) ≡ is_some (K.contents self.old.keeper) }
        ensures paired { StayPaired self.old.parts.links self.new.parts.links }
        ensures later { K.faults self.old.keeper ≤ K.faults self.new.keeper }
    {
        // A law, for the proof: a look finds the same without those frames.
        dropped_frames_change_no_end();
        self.drop_old();
        // For the proof: how many entries it has at most.
        let _ = self.history();
        if self.ledger.is_full() {
            return turn_of_full(self.is_ready());
        }
        turn_of(self.step())
    }
}
