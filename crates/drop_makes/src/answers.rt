//! The answers that a drop takes.
ghost use Rattle.std.specs.Prelude.{◌≡◌, ◌^◌, ℕ, nat_lt, IfOk};
ghost use Rattle.run_data.specs.declared.entry.FrameView.{FrameView};
ghost use Rattle.node_model.specs.DropStep.{takes_drop};
ghost use Rattle.node_model.specs.JobStep as steps;
ghost use Rattle.state_jobs.specs.Phases.{phase_of};
ghost use Rattle.drop_makes.specs.Answers.{step_by};

use crate::knowing::Knowing;
use annex_base::NoMemory;
use drop_proof::Side;
use p2p_wire::Message;
use run_data::FrameView;
use state_jobs::Phase;

/// What an answer is to a drop: one that it hears, the refusal of a lock, the time of its target, or one that isn't permitted.
#[derive(Clone, Copy, Debug)]
pub(crate) enum Answer {
    Heard,
    Unlocked,
    Timed(u64),
    Wrong,
}

/// What this message is to a drop that stands there.
fn answer_in(phase: Phase, message: &Message) -> Answer
    ensures { (t : steps.Turn) (f : FrameView) (peer : ℕ) → takes_drop t f peer (phase_of phase) message.now ≡ step_by result t f peer }
{
    match (phase, message) {
        (Phase::AsksLock { .. }, Message::Success) => Answer::Heard,
        (Phase::AsksLock { .. }, Message::Failure) => Answer::Unlocked,
        (Phase::AsksLook { .. }, Message::Success | Message::Failure) => Answer::Heard,
        (Phase::AsksTime, Message::Timestamp(time)) => Answer::Timed(*time),
        (Phase::Orders, Message::Success | Message::Failure) => Answer::Heard,
        _ => Answer::Wrong,
    }
}

/// Whether a node may tell this time, in seconds.
fn is_small(time: u64) -> bool
    ensures { result ≡ nat_lt time (2 ^ 61) }
{
    time < 1 << 61
}

impl Knowing<'_> {
    ghost use Rattle.std.specs.Prelude.{Some};
    ghost use Rattle.drop_proof.specs.declared.rule.Side.TheVariants.{Remote};
    ghost use Rattle.node_model.specs.DropStep.{takes_drop, takes_time};
    ghost use Rattle.node_model.specs.JobStep.{key_of, says_to, talk};
    ghost use Rattle.node_model.specs.Jobs.{side_of};
    ghost use Rattle.node_model.specs.SetUp.{SetUp};
    ghost use Rattle.node_model.specs.State.{State};
    ghost use Rattle.p2p_wire.specs.declared.message.Message.TheVariants.{CheckPresent};
    ghost use Rattle.step_judging.specs.Rules.{effect_of};
    ghost use Rattle.step_judging.specs.Same.{same_effect};
    ghost use Rattle.drop_makes.specs.Knowings.{drop_in};

    /// Whether it takes this time of the target.
    fn takes_time(&self, frame: &FrameView, peer: u32, time: u64) -> bool
        ensures { (s : SetUp) (st : State) → result ≡ same_effect (takes_time (drop_in self.now.turn.now self.now.logs.now s st) frame.now peer time (side_of (drop_in self.now.turn.now self.now.logs.now s st).w)) (effect_of self.now.turn.now.told.now) }
    {
        match self.turn.side() {
            Side::Remote => self.takes_far_time(frame, peer, time),
            Side::Local => self.turn.wrong_message(frame, peer),
        }
    }

    fn takes_far_time(&self, frame: &FrameView, peer: u32, time: u64) -> bool
        ensures { (s : SetUp) (st : State) → result ≡ same_effect (takes_time (drop_in self.now.turn.now self.now.logs.now s st) frame.now peer time Remote) (effect_of self.now.turn.now.told.now) }
    {
        if is_small(time) {
            self.times(frame, time)
        } else {
            self.turn.wrong_message(frame, peer)
        }
    }

    /// Whether it asks for a look, since it was given no lock.
    fn asks_look(&self, frame: &FrameView, peer: u32) -> Result<bool, NoMemory>
        ensures { IfOk result (λ b. (s : SetUp) (st : State) → b ≡ same_effect (says_to (drop_in self.now.turn.now self.now.logs.now s st) (talk (drop_in self.now.turn.now self.now.logs.now s st)) (Some frame.now) peer (CheckPresent (key_of (drop_in self.now.turn.now self.now.logs.now s st)))) (effect_of self.now.turn.now.told.now)) }
    {
        let message = Message::CheckPresent(self.turn.key().copy()?);
        Ok(
            self.turn
                .says_to(self.turn.talks(), Some(frame), peer, &message),
        )
    }

    /// Whether it takes this message of a peer.
    pub fn takes_drop(
        &self,
        frame: &FrameView,
        peer: u32,
        message: &Message,
    ) -> Result<bool, NoMemory>
        ensures { IfOk result (λ b. (s : SetUp) (st : State) → b ≡ same_effect (takes_drop (drop_in self.now.turn.now self.now.logs.now s st) frame.now peer (drop_in self.now.turn.now self.now.logs.now s st).w.phase message.now) (effect_of self.now.turn.now.told.now)) }
    {
        match answer_in(self.turn.work.phase, message) {
            Answer::Heard => Ok(self.turn.hears(frame)),
            Answer::Unlocked => self.asks_look(frame, peer),
            Answer::Timed(time) => Ok(self.takes_time(frame, peer, time)),
            Answer::Wrong => Ok(self.turn.wrong_message(frame, peer)),
        }
    }
}
