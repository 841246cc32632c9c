//! A repository crashes: all its ends are closed, and its sessions and jobs are given up.
ghost use Rattle.std.specs.Prelude.{◌≡◌, ◌≤◌, ◌<◌, ◌+◌, ◌^◌, ◌==◌, List, [], All, None, find, length, vec_capacity};
ghost use Rattle.std.specs.declared.option.Option.{Option};
ghost use Rattle.std.specs.Option.{option_map};
ghost use Rattle.run_data.specs.declared.entry.Entry.{Entry};
ghost use Rattle.run_data.specs.declared.entry.EntryKind.TheVariants as kinds;
ghost use Rattle.object_store.specs.Stores.{Contents, Parts as StoredParts};
ghost use Rattle.object_store.specs.declared.keeper.HoldRecord.{HoldRecord};
ghost use Rattle.content_lock.specs.Stored.{Agrees};
ghost use Rattle.node_model.specs.After.{state_after};
ghost use Rattle.node_model.specs.AnyTime.{closes_all};
ghost use Rattle.node_model.specs.SetUp.{SetUp};
ghost use Rattle.node_model.specs.State.{State};
ghost use Rattle.node_ends.specs.Joined.{StayPaired};
ghost use Rattle.running_jobs.specs.Tasks.{number_of, slot_of};
ghost use Rattle.node_parts.specs.Parts.{AreAllFed, AreParts};
ghost use Rattle.node_parts.specs.Posting.{PostsPieces, stamp_of};
ghost use Rattle.node_parts.specs.Steps.{Leaves};

use crate::done::Done;
use crate::moment::{Moment, stamp_at};
use crate::parts::Parts;
use node_crash::{close_all_ends, restart};
use node_ends::ends_go_on;
use run_data::{EntryKind, FrameView};

impl Parts {
    /// How many frames a crash sends at most.
    pub fn most_closes(&self) -> usize
        ensures { result ≡ length self.now.links }
    {
        self.jobs.repositories() as usize * 8
    }

    /// The number of the job in this slot, if one runs there.
    pub fn job_in(&self, slot: u32) -> Option<u32>
        ensures { result ≡ option_map number_of (find (λ t. slot_of t == slot) self.now.jobs.running) }
    {
        self.jobs.in_slot(slot)
    }

    /// Crashes: each end that is open sends a Close, in order of the peer's number, of side, the client's first, and of slot; these
    /// take their places on a list that is empty. Bars are off, each hold is kept for ten minutes of a clock that is set to this, in
    /// milliseconds, each session is as new, and no job runs. It takes no memory.
    pub fn crash(&mut self, moment: Moment, clock: u64, listing: Vec<FrameView>) -> Done
        requires early { clock + 600000 < 2 ^ 62 }
        requires empty { listing.items ≡ [] }
        requires room { length self.old.links ≤ vec_capacity listing }
        requires fresh { All (λ h. h.number < moment.number) self.old.table.holds }
        ensures kind { result.kind ≡ kinds.Crash clock }
        ensures taken { result.taken ≡ None }
        ensures owes { result.owes ≡ None }

        // Of each state that these are: it is the entry that a crash makes, and they are those of the state after it.
        ensures sent { (s : SetUp) (st : State) → AreParts s st self.old → result.sent ≡ closes_all s st }
        ensures parts { (s : SetUp) (st : State) (e : Entry) → AreParts s st self.old → e.kind ≡ result.kind → e.taken ≡ result.taken → e.sent ≡ result.sent → AreParts s (state_after s st e) self.new }
        ensures leaves { Leaves moment.number self.old self.new result }
        ensures posts { (known : Option Contents) → PostsPieces (stamp_of moment self.old.jobs.place.number) result.kind self.old known self.new.links result.taken result.sent }
        ensures fed { (q : StoredParts) → AreAllFed q self.old → AreAllFed q self.new }
        ensures agrees { (known : Option (List HoldRecord)) → Agrees known self.old.table.holds → Agrees known self.new.table.holds }
        ensures jobs { self.new.jobs ≡ record self.old.jobs { running = [] } }
        ensures paired { StayPaired self.old.links self.new.links }
    {
        // A law, for the proof that the ends are those of the state after the entry.
        ends_go_on();
        let own = self.jobs.number();
        let count = self.jobs.repositories();
        let stamp = stamp_at(moment.time, moment.count, own);
        let sent = close_all_ends(&mut self.ends, own, count, stamp, listing);
        restart(&mut self.sessions, &mut self.jobs, &mut self.table, clock);
        Done {
            kind: EntryKind::Crash { clock },
            taken: None,
            sent,
            owes: None,
        }
    }
}
