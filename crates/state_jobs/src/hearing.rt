//! What a frame makes of a job that says nothing by the entry.
ghost use Rattle.std.specs.Prelude.{◌≡◌, ℕ, ◌+◌, ◌^◌, ◌≤◌};
ghost use Rattle.node_model.specs.Jobs.{after_frame, after_gain, after_line, listens};
ghost use Rattle.node_model.specs.Sessions.{line_in};
ghost use Rattle.state_jobs.specs.Phases.{IsBelow, phase_of};
ghost use Rattle.state_jobs.specs.Works.{HasRoom, work_of};

use crate::phase::{Ending, Heard, Phase, gets_bytes, gets_more};
use crate::work::Work;
use p2p_wire::Message;
use run_data::FrameText;

impl Work {
    /// It took this message.
    fn listens(&mut self, message: &Message)
        requires { HasRoom self.old }
        ensures work { work_of self.new ≡ listens (work_of self.old) (phase_of self.old.phase) message.now }
        ensures small { (limit : ℕ) → 2 ^ 64 ≤ limit → IsBelow limit self.old.phase → IsBelow (limit + 2 ^ 64) self.new.phase }
    {
        match (self.phase, message) {
            (Phase::AsksLock { peer, since }, Message::Success) => {
                self.hears(peer, Heard::Held { since })
            }
            (Phase::AsksLook { peer }, Message::Success) => self.hears(peer, Heard::Seen),
            (Phase::AsksLook { peer }, Message::Failure) => self.hears(peer, Heard::Unseen),
            (Phase::Orders, Message::Success) => self.to_phase(Phase::Removed),
            (Phase::Orders, Message::Failure) => self.to_phase(Phase::Denied),
            (Phase::Greets { .. }, Message::Version(version)) => {
                self.to_phase(Phase::Ends(Ending::OldProtocol { version: *version }))
            }
            (Phase::GetsData { peer, start }, Message::Data(count)) => {
                self.to_phase(gets_more(peer, start, u128::from(start), *count))
            }
            (Phase::PutsOffer { .. }, Message::AlreadyHave) => {
                self.after_transfer(Ending::Copied { start: None })
            }
            (Phase::PutsOffer { .. }, Message::Error(_)) => {
                self.to_phase(Phase::Ends(Ending::Busy))
            }
            (Phase::PutsOffer { .. } | Phase::PutsAnswer { .. }, Message::Failure) => {
                self.to_phase(Phase::Ends(Ending::Rejected))
            }
            (Phase::PutsAnswer { start, .. }, Message::Success) => {
                self.after_transfer(Ending::Copied { start: Some(start) })
            }
            _ => {}
        }
    }

    fn after_line(&mut self, heard: &Option<Message>)
        requires { HasRoom self.old }
        ensures work { work_of self.new ≡ after_line (work_of self.old) heard.now }
        ensures small { (limit : ℕ) → 2 ^ 64 ≤ limit → IsBelow limit self.old.phase → IsBelow (limit + 2 ^ 64) self.new.phase }
    {
        if let Some(message) = heard {
            self.listens(message);
        }
    }

    /// It took a frame with this body, whose message, if it is one, is this.
    pub(crate) fn after_frame(&mut self, body: &FrameText, heard: &Option<Message>)
        requires room { HasRoom self.old }
        requires small { IsBelow (2 ^ 127) self.old.phase }
        requires heard { heard.now ≡ line_in body.now }
        ensures work { work_of self.new ≡ after_frame (work_of self.old) body.now }
        ensures small { (limit : ℕ) → 2 ^ 64 ≤ limit → IsBelow limit self.old.phase → IsBelow (limit + 2 ^ 64) self.new.phase }
    {
        match body {
            FrameText::Bytes(count) => self.to_phase(gets_bytes(*count, self.phase)),
            FrameText::Line(_) => self.after_line(heard),
            FrameText::Opening | FrameText::Closing => {}
        }
    }

    /// The content that it gets is there.
    pub(crate) fn after_gain(&mut self)
        ensures work { work_of self.new ≡ after_gain (work_of self.old) (phase_of self.old.phase) }
        ensures small { (limit : ℕ) → 2 ^ 64 ≤ limit → IsBelow limit self.old.phase → IsBelow (limit + 2 ^ 64) self.new.phase }
    {
        if let Phase::GetsWord { peer, start, .. } = self.phase {
            self.after_transfer(Ending::Got {
                source: peer,
                start,
            });
        }
    }
}
