//! How an entry moves its job.
ghost use Rattle.std.specs.Prelude.{◌≡◌, ◌^◌, ℕ, ◌+◌, ◌≤◌};
ghost use Rattle.node_model.specs.Jobs.{RowsAndEnds, claims, hears_frame, learns, partner, talks, talks_on, work_kind};
ghost use Rattle.state_jobs.specs.Around.{AreEndedBy, AreRows, IsTalkOf};
ghost use Rattle.state_jobs.specs.Phases.{IsBelow, part_of, phase_of};
ghost use Rattle.state_jobs.specs.Works.{HasRoom, work_of};

use crate::phase::{Heard, Phase, partner};
use crate::work::Work;
use p2p_wire::Message;
use run_data::{Entry, EntryKind};
use state_ends::{Connection, Ends};
use state_rows::Rows;

/// What an entry's job says and hears: the messages of the frame that the entry took, and of the first that it sent.
#[derive(Drop)]
pub struct Talk {
    pub heard: Option<Message>,
    pub told: Option<Message>,
}

impl Work {
    fn hears_frame(&mut self, repo: u32, rows: &Rows, talk: &Talk, entry: &Entry)
        requires room { HasRoom self.old }
        requires small { IsBelow (2 ^ 127) self.old.phase }
        requires talk { IsTalkOf entry.now talk.now }
        ensures work { (x : RowsAndEnds) → AreRows x rows.now → work_of self.new ≡ hears_frame x repo (work_of self.old) entry.now.taken }
        ensures small { (limit : ℕ) → 2 ^ 64 ≤ limit → IsBelow limit self.old.phase → IsBelow (limit + 2 ^ 64) self.new.phase }
    {
        match &entry.taken {
            None => self.quiet(repo, rows),
            Some(frame) => self.after_frame(&frame.body, &talk.heard),
        }
    }

    fn talks(&mut self, repo: u32, rows: &Rows, talk: &Talk, entry: &Entry)
        requires room { HasRoom self.old }
        requires small { IsBelow (2 ^ 127) self.old.phase }
        requires talk { IsTalkOf entry.now talk.now }
        ensures work { (x : RowsAndEnds) → AreRows x rows.now → work_of self.new ≡ talks x repo (work_of self.old) entry.now entry.now.sent }
        ensures small { (limit : ℕ) → 2 ^ 64 ≤ limit → IsBelow limit self.old.phase → IsBelow (limit + 2 ^ 64) self.new.phase }
    {
        match entry.sent.as_slice() {
            [frame, ..] => self.sends(entry.time, frame.peer, &talk.heard, &frame.body, &talk.told),
            [] => self.hears_frame(repo, rows, talk, entry),
        }
    }

    fn talks_on(
        &mut self,
        repo: u32,
        rows: &Rows,
        ends: &Ends,
        talk: &Talk,
        entry: &Entry,
        partner: Option<u32>,
    )
        requires room { HasRoom self.old }
        requires small { IsBelow (2 ^ 127) self.old.phase }
        requires talk { IsTalkOf entry.now talk.now }
        ensures work { (x : RowsAndEnds) → AreRows x rows.now → AreEndedBy x entry.now ends.now → work_of self.new ≡ talks_on x repo (work_of self.old) entry.now partner }
        ensures small { (limit : ℕ) → 2 ^ 64 ≤ limit → IsBelow limit self.old.phase → IsBelow (limit + 2 ^ 64) self.new.phase }
    {
        match partner {
            None => self.talks(repo, rows, talk, entry),
            Some(peer) => {
                let at = Connection {
                    peer,
                    slot: self.slot,
                };
                let standing = ends.end(at, true);
                if standing.opened {
                    self.talks(repo, rows, talk, entry);
                } else {
                    self.closed(repo, peer);
                }
            }
        }
    }

    fn learns_and_talks(&mut self, repo: u32, rows: &Rows, ends: &Ends, talk: &Talk, entry: &Entry)
        requires room { HasRoom self.old }
        requires small { IsBelow (2 ^ 127) self.old.phase }
        requires talk { IsTalkOf entry.now talk.now }
        ensures work { (x : RowsAndEnds) → AreRows x rows.now → AreEndedBy x entry.now ends.now
            → work_of self.new ≡ talks_on x repo (learns (claims (work_of self.old) (part_of self.old.part) (phase_of self.old.phase)) (phase_of self.old.phase) entry.now.taken) entry.now (partner self.old.what.peer (phase_of self.old.phase)) }
        ensures small { (limit : ℕ) → 2 ^ 64 ≤ limit → IsBelow limit self.old.phase → IsBelow (limit + 2 ^ 64) self.new.phase }
    {
        let at = partner(self.what.peer, self.phase);
        self.claims();
        self.learns_of(&entry.taken, &talk.heard);
        self.talks_on(repo, rows, ends, talk, entry, at);
    }

    /// The entry, which is one of this job, moves it.
    pub fn moves(&mut self, repo: u32, rows: &Rows, ends: &Ends, talk: &Talk, entry: &Entry)
        requires room { HasRoom self.old }
        requires small { IsBelow (2 ^ 127) self.old.phase }
        requires talk { IsTalkOf entry.now talk.now }
        ensures work { (x : RowsAndEnds) → AreRows x rows.now → AreEndedBy x entry.now ends.now → work_of self.new ≡ work_kind x repo (work_of self.old) entry.now entry.now.kind }
        ensures small { (limit : ℕ) → 2 ^ 64 ≤ limit → IsBelow limit self.old.phase → IsBelow (limit + 2 ^ 64) self.new.phase }
    {
        match &entry.kind {
            EntryKind::Fault { call, .. } => self.fault(repo, entry.time, *call),
            EntryKind::Bar { .. } => self.to_phase(Phase::Next),
            EntryKind::Share { .. } => self.hears(repo, Heard::Held { since: entry.time }),
            EntryKind::Gone { .. } => self.to_phase(Phase::Removed),
            EntryKind::Gain { .. } => self.after_gain(),
            _ => self.learns_and_talks(repo, rows, ends, talk, entry),
        }
    }
}
