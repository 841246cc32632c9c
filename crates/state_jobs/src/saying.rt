//! What a job's words and pieces make of it.
ghost use Rattle.std.specs.Prelude.{◌≡◌, ℕ, ◌+◌, ◌^◌, ◌≤◌};
ghost use Rattle.node_model.specs.Jobs.{put_from, says, says_some, sends, source_cause, word_taken};
ghost use Rattle.node_model.specs.Sessions.{line_in};
ghost use Rattle.state_jobs.specs.Phases.{IsBelow, phase_of};
ghost use Rattle.state_jobs.specs.Works.{HasRoom, work_of};

use crate::phase::{Phase, puts_answer, puts_bytes, puts_more};
use crate::work::Work;
use p2p_wire::Message;
use run_data::{FrameText, SourceCause};

/// Where a get's refused source leaves it: what it took, and where it had asked.
fn source_cause(start: u64, word: &Option<Message>) -> SourceCause
    ensures { result ≡ source_cause start word.now }
{
    match word {
        Some(Message::Valid) => SourceCause::Wrong,
        _ if start == 0 => SourceCause::Absent,
        _ => SourceCause::Invalid,
    }
}

fn put_from(peer: u32, left: u64, taken: &Option<Message>) -> Phase
    ensures value { phase_of result ≡ put_from peer left taken.now }
    ensures small { (limit : ℕ) → 2 ^ 64 ≤ limit → IsBelow limit result }
{
    match taken {
        Some(Message::PutFrom(start)) => puts_more(peer, *start, u128::from(*start), left),
        _ => Phase::PutsOffer { peer },
    }
}

impl Work {
    fn word_taken(&mut self, word: &Option<Message>)
        requires { HasRoom self.old }
        ensures work { work_of self.new ≡ word_taken (work_of self.old) word.now (phase_of self.old.phase) }
        ensures small { (limit : ℕ) → 2 ^ 64 ≤ limit → IsBelow limit self.old.phase → IsBelow (limit + 2 ^ 64) self.new.phase }
    {
        if let Phase::GetsWord { peer, start, .. } = self.phase {
            self.fails_with(peer, source_cause(start, word));
        }
    }

    /// It said this to a peer, at this time, after it took that.
    fn says(&mut self, time: u64, peer: u32, taken: &Option<Message>, message: &Message)
        requires { HasRoom self.old }
        ensures work { work_of self.new ≡ says (work_of self.old) time peer taken.now message.now }
        ensures small { (limit : ℕ) → 2 ^ 64 ≤ limit → IsBelow limit self.old.phase → IsBelow (limit + 2 ^ 64) self.new.phase }
    {
        match message {
            Message::Version(_) => self.to_phase(Phase::Greets { peer }),
            Message::Get { start, .. } => self.to_phase(Phase::GetsData {
                peer,
                start: *start,
            }),
            Message::Put { .. } => self.to_phase(Phase::PutsOffer { peer }),
            Message::Data(count) => self.to_phase(put_from(peer, *count, taken)),
            Message::Valid => self.to_phase(puts_answer(self.phase)),
            Message::LockContent(_) => self.to_phase(Phase::AsksLock { peer, since: time }),
            Message::CheckPresent(_) => self.to_phase(Phase::AsksLook { peer }),
            Message::GetTimestamp => self.to_phase(Phase::AsksTime),
            Message::Remove(_) | Message::RemoveBefore { .. } => self.to_phase(Phase::Orders),
            Message::Failure => self.word_taken(taken),
            _ => {}
        }
    }

    /// It sent a frame with this body, whose message, if it is one, is this.
    pub(crate) fn sends(
        &mut self,
        time: u64,
        peer: u32,
        taken: &Option<Message>,
        body: &FrameText,
        told: &Option<Message>,
    )
        requires room { HasRoom self.old }
        requires small { IsBelow (2 ^ 127) self.old.phase }
        requires told { told.now ≡ line_in body.now }
        ensures work { work_of self.new ≡ sends (work_of self.old) time peer taken.now body.now }
        ensures small { (limit : ℕ) → 2 ^ 64 ≤ limit → IsBelow limit self.old.phase → IsBelow (limit + 2 ^ 64) self.new.phase }
    {
        match body {
            FrameText::Opening => self.to_phase(Phase::Opens { peer }),
            FrameText::Closing => {}
            FrameText::Bytes(count) => self.to_phase(puts_bytes(*count, self.phase)),
            FrameText::Line(_) => self.says_some(time, peer, taken, told),
        }
    }

    fn says_some(&mut self, time: u64, peer: u32, taken: &Option<Message>, told: &Option<Message>)
        requires { HasRoom self.old }
        ensures work { work_of self.new ≡ says_some (work_of self.old) time peer taken.now told.now }
        ensures small { (limit : ℕ) → 2 ^ 64 ≤ limit → IsBelow limit self.old.phase → IsBelow (limit + 2 ^ 64) self.new.phase }
    {
        if let Some(message) = told {
            self.says(time, peer, taken, message);
        }
    }
}
