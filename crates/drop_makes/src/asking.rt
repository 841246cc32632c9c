//! The requests of a drop.
ghost use Rattle.std.specs.Prelude.{◌≡◌, nat_lt, IfOk};

use crate::ending::is_expired;
use crate::knowing::Knowing;
use annex_base::NoMemory;
use drop_proof::Side;
use p2p_wire::Message;
use run_data::FrameView;
use step_effects::{is_order, says_order};

impl Knowing<'_> {
    ghost use Rattle.std.specs.Prelude.{ℕ, Some};
    ghost use Rattle.std.specs.Option.{option_copied};
    ghost use Rattle.drop_proof.specs.declared.rule.Side.TheVariants.{Remote};
    ghost use Rattle.node_model.specs.DropStep.{asks_copy, asks_lock, asks_target, first_end, orders, times};
    ghost use Rattle.node_model.specs.JobStep.{key_of};
    ghost use Rattle.node_model.specs.Jobs.{side_of};
    ghost use Rattle.node_model.specs.SetUp.{SetUp};
    ghost use Rattle.node_model.specs.State.{State};
    ghost use Rattle.p2p_wire.specs.Messages.{order_of};
    ghost use Rattle.step_judging.specs.Rules.{effect_of};
    ghost use Rattle.step_judging.specs.Same.{same_effect};
    ghost use Rattle.drop_makes.specs.Knowings.{drop_in};

    /// Whether it orders the removal, with this deadline, in seconds on the target's clock.
    fn orders(&self, taken: Option<&FrameView>, deadline: Option<u128>) -> bool
        ensures { (s : SetUp) (st : State) → result ≡ same_effect (orders (drop_in self.now.turn.now self.now.logs.now s st) (option_copied taken.entry) deadline (order_of deadline (key_of (drop_in self.now.turn.now self.now.logs.now s st)))) (effect_of self.now.turn.now.told.now) }
    {
        let turn = self.turn;
        let target = turn.target();
        let key = turn.key();
        let need = self.logs.need();
        let is = is_order(
            &turn.told.kind,
            turn.work.number,
            target,
            deadline,
            need,
            key,
        );
        let said = says_order(turn.at(target), deadline, key, turn.told.sent.as_slice());
        turn.sends(is, taken, said)
    }

    fn asks_target(&self, version: u64, taken: Option<&FrameView>) -> bool
        ensures { (s : SetUp) (st : State) → result ≡ same_effect (asks_target (drop_in self.now.turn.now self.now.logs.now s st) version (option_copied taken.entry) (first_end (drop_in self.now.turn.now self.now.logs.now s st))) (effect_of self.now.turn.now.told.now) }
    {
        match self.first_end() {
            None => self.orders(taken, None),
            Some(_) => self.asks_time(version, taken),
        }
    }

    /// Whether it asks for the target's time, unless the version is too old for that.
    fn asks_time(&self, version: u64, taken: Option<&FrameView>) -> bool
        ensures { (s : SetUp) (st : State) (end : ℕ) → result ≡ same_effect (asks_target (drop_in self.now.turn.now self.now.logs.now s st) version (option_copied taken.entry) (Some end)) (effect_of self.now.turn.now.told.now) }
    {
        let turn = self.turn;
        if is_old(version) {
            turn.quietly(turn.talks(), taken)
        } else {
            turn.says_to(turn.talks(), taken, turn.target(), &Message::GetTimestamp)
        }
    }

    fn asks_lock(&self, taken: Option<&FrameView>, peer: u32) -> Result<bool, NoMemory>
        ensures { IfOk result (λ b. (s : SetUp) (st : State) → b ≡ same_effect (asks_lock (drop_in self.now.turn.now self.now.logs.now s st) (option_copied taken.entry) peer) (effect_of self.now.turn.now.told.now)) }
    {
        let message = Message::LockContent(self.turn.key().copy()?);
        Ok(self.turn.says_to(self.turn.talks(), taken, peer, &message))
    }

    /// Whether it asks a peer, whose connection speaks this version.
    pub fn asks_copy(
        &self,
        version: u64,
        taken: Option<&FrameView>,
        peer: u32,
    ) -> Result<bool, NoMemory>
        ensures { IfOk result (λ b. (s : SetUp) (st : State) → b ≡ same_effect (asks_copy (drop_in self.now.turn.now self.now.logs.now s st) version (option_copied taken.entry) peer (side_of (drop_in self.now.turn.now self.now.logs.now s st).w)) (effect_of self.now.turn.now.told.now)) }
    {
        match self.turn.side() {
            Side::Local => self.asks_lock(taken, peer),
            Side::Remote => self.asks_far(version, taken, peer),
        }
    }

    fn asks_far(&self, version: u64, taken: Option<&FrameView>, peer: u32) -> Result<bool, NoMemory>
        ensures { IfOk result (λ b. (s : SetUp) (st : State) → b ≡ same_effect (asks_copy (drop_in self.now.turn.now self.now.logs.now s st) version (option_copied taken.entry) peer Remote) (effect_of self.now.turn.now.told.now)) }
    {
        if self.turn.target() == peer {
            Ok(self.asks_target(version, taken))
        } else {
            self.asks_lock(taken, peer)
        }
    }

    /// Whether it orders the removal by this timestamp of the target, in seconds, or ends, since a lock has ended.
    pub(crate) fn times(&self, frame: &FrameView, time: u64) -> bool
        ensures { (s : SetUp) (st : State) → result ≡ same_effect (times (drop_in self.now.turn.now self.now.logs.now s st) frame.now time (first_end (drop_in self.now.turn.now self.now.logs.now s st))) (effect_of self.now.turn.now.told.now) }
    {
        match self.first_end() {
            None => self.orders(Some(frame), None),
            Some(end) => self.times_by(frame, time, end),
        }
    }

    /// The same, where the first of its locks ends then.
    fn times_by(&self, frame: &FrameView, time: u64, end: u128) -> bool
        ensures { (s : SetUp) (st : State) → result ≡ same_effect (times (drop_in self.now.turn.now self.now.logs.now s st) frame.now time (Some end)) (effect_of self.now.turn.now.told.now) }
    {
        let clock = self.clock();
        if clock < end {
            let deadline = u128::from(time) + (end - clock) / 1000;
            self.orders(Some(frame), Some(deadline))
        } else {
            let is = is_expired(self.turn.ended(), end, clock);
            self.turn.ends(Some(frame), is, false)
        }
    }
}

/// Whether such a version knows no deadlines.
fn is_old(version: u64) -> bool
    ensures { result ≡ nat_lt version 3 }
{
    version < 3
}
