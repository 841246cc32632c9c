//! A job's steps without a frame, and its failed calls of the store.
ghost use Rattle.std.specs.Prelude.{◌≡◌, ℕ, Some};
ghost use Rattle.drop_proof.specs.declared.rule.Side.TheVariants.{Remote};
ghost use Rattle.run_data.specs.declared.entry.FrameView.{FrameView};
ghost use Rattle.node_model.specs.Jobs.{Drops, Ends, Greets, RowsAndEnds, claims, fault_of, fault_phase, first_look, learns, quiet, side_of, stores_fault, taken_message, to_phase, version_said};
ghost use Rattle.node_model.specs.Rows.{option_is};
ghost use Rattle.node_model.specs.Sessions.{line_in};
ghost use Rattle.state_jobs.specs.Around.{AreRows};
ghost use Rattle.state_jobs.specs.Phases.{IsBelow, ending_of, part_of, phase_of};
ghost use Rattle.state_jobs.specs.Works.{HasRoom, work_of};

use crate::phase::{Ending, Heard, Part, Phase};
use crate::work::Work;
use annex_base::Call;
use drop_proof::Side;
use p2p_wire::Message;
use run_data::{Cause, FrameView};
use state_rows::Rows;

impl Work {
    /// Its first step, without a frame, where its content is there, or isn't, and has this bar.
    fn first_look(&mut self, repo: u32, here: bool, barred: Option<u32>)
        requires { HasRoom self.old }
        ensures work { work_of self.new ≡ first_look repo (work_of self.old) (part_of self.old.part) here barred }
        ensures small { (limit : ℕ) → IsBelow limit self.old.phase → IsBelow limit self.new.phase }
    {
        match (self.part, here, barred) {
            (Part::Gets, true, _) => self.after_transfer(Ending::Here),
            (Part::Drops, _, None) => self.hears(repo, Heard::Lacks(Cause::Absent)),
            (Part::Drops, _, Some(_)) => self.hears(repo, Heard::Lacks(Cause::Barred)),
            _ => self.to_phase(Phase::Next),
        }
    }

    /// It took and sent nothing.
    pub(crate) fn quiet(&mut self, repo: u32, rows: &Rows)
        requires { HasRoom self.old }
        ensures work { (x : RowsAndEnds) → AreRows x rows.now → work_of self.new ≡ quiet x repo (work_of self.old) (phase_of self.old.phase) }
        ensures small { (limit : ℕ) → IsBelow limit self.old.phase → IsBelow limit self.new.phase }
    {
        match self.phase {
            Phase::Fresh => {
                let size = rows.size(&self.what.key);
                let barred = rows.bar(&self.what.key);
                self.first_look(repo, size.is_some(), barred);
            }
            Phase::Next => {
                let version = self.version;
                self.to_phase(Phase::Ends(Ending::OldProtocol { version }));
            }
            _ => {}
        }
    }

    fn stores_fault(&self) -> Ending
        ensures { ending_of result ≡ stores_fault (part_of self.now.part) }
    {
        match self.part {
            Part::Drops => Ending::DropFault,
            Part::Gets | Part::Puts => Ending::TransferFault,
        }
    }

    fn ends_by_fault(&mut self)
        ensures work { work_of self.new ≡ to_phase (work_of self.old) (Ends (stores_fault (part_of self.old.part))) }
        ensures small { (limit : ℕ) → IsBelow limit self.old.phase → IsBelow limit self.new.phase }
    {
        let ending = self.stores_fault();
        self.to_phase(Phase::Ends(ending));
    }

    fn fault_at_drop(&mut self, repo: u32)
        requires { HasRoom self.old }
        ensures work { part_of self.old.part ≡ Drops → work_of self.new ≡ fault_phase repo (work_of self.old) Drops (side_of (work_of self.old)) (phase_of self.old.phase) }
        ensures small { (limit : ℕ) → IsBelow limit self.old.phase → IsBelow limit self.new.phase }
    {
        match self.side() {
            Side::Local => self.ends_by_fault(),
            Side::Remote => self.fault_at_remote(repo),
        }
    }

    fn fault_at_remote(&mut self, repo: u32)
        requires { HasRoom self.old }
        ensures work { part_of self.old.part ≡ Drops → work_of self.new ≡ fault_phase repo (work_of self.old) Drops Remote (phase_of self.old.phase) }
        ensures small { (limit : ℕ) → IsBelow limit self.old.phase → IsBelow limit self.new.phase }
    {
        match self.phase {
            Phase::Fresh => self.hears(repo, Heard::Lacks(Cause::Fault)),
            _ => self.ends_by_fault(),
        }
    }

    fn fault_phase(&mut self, repo: u32)
        requires { HasRoom self.old }
        ensures work { work_of self.new ≡ fault_phase repo (work_of self.old) (part_of self.old.part) (side_of (work_of self.old)) (phase_of self.old.phase) }
        ensures small { (limit : ℕ) → IsBelow limit self.old.phase → IsBelow limit self.new.phase }
    {
        match self.part {
            Part::Drops => self.fault_at_drop(repo),
            Part::Gets | Part::Puts => self.ends_by_fault(),
        }
    }

    /// A call of the store failed.
    pub(crate) fn fault(&mut self, repo: u32, time: u64, call: Call)
        requires { HasRoom self.old }
        ensures work { work_of self.new ≡ fault_of repo (work_of self.old) time call }
        ensures small { (limit : ℕ) → IsBelow limit self.old.phase → IsBelow limit self.new.phase }
    {
        match call {
            Call::PutFile => {}
            Call::Unhold => {
                if let Phase::AsksTime = self.phase {
                    self.to_phase(Phase::Late { time });
                }
            }
            _ => self.fault_phase(repo),
        }
    }

    /// A get that asks a peer, or finds none to ask, fills the key.
    pub(crate) fn claims(&mut self)
        ensures work { work_of self.new ≡ claims (work_of self.old) (part_of self.old.part) (phase_of self.old.phase) }
        ensures phase { self.new.phase ≡ self.old.phase }
        ensures room { HasRoom self.old → HasRoom self.new }
    {
        if let (Part::Gets, Phase::Fresh) = (self.part, self.phase) {
            self.fills = true;
        }
    }

    fn has_peer(&self, peer: u32) -> bool
        ensures { result ≡ option_is self.now.what.peer peer }
    {
        match self.what.peer {
            Some(other) => other == peer,
            None => false,
        }
    }

    fn learns_from(&mut self, peer: u32, heard: &Option<Message>)
        ensures work { (f : FrameView) → heard.now ≡ line_in f.body → work_of self.new ≡ learns (work_of self.old) (Greets peer) (Some f) }
        ensures phase { self.new.phase ≡ self.old.phase }
        ensures room { HasRoom self.old → HasRoom self.new }
    {
        if self.has_peer(peer) {
            self.version = version_said(self.version, heard);
        }
    }

    fn learns(&mut self, heard: &Option<Message>)
        ensures work { (f : FrameView) → heard.now ≡ line_in f.body → work_of self.new ≡ learns (work_of self.old) (phase_of self.old.phase) (Some f) }
        ensures phase { self.new.phase ≡ self.old.phase }
        ensures room { HasRoom self.old → HasRoom self.new }
    {
        match self.phase {
            Phase::Greets { peer } => self.learns_from(peer, heard),
            _ => {}
        }
    }

    /// The version that its peer answers, by the frame that it took and its message.
    pub(crate) fn learns_of(&mut self, taken: &Option<FrameView>, heard: &Option<Message>)
        requires { heard.now ≡ taken_message taken.now }
        ensures work { work_of self.new ≡ learns (work_of self.old) (phase_of self.old.phase) taken.now }
        ensures phase { self.new.phase ≡ self.old.phase }
        ensures room { HasRoom self.old → HasRoom self.new }
    {
        match taken {
            Some(_) => self.learns(heard),
            None => {}
        }
    }
}

fn version_said(was: u64, heard: &Option<Message>) -> u64
    ensures { result ≡ version_said was heard.now }
{
    match heard {
        Some(Message::Version(version)) => *version,
        _ => was,
    }
}
