//! One end of a connection is closed.
ghost use Rattle.std.specs.Prelude.{◌≡◌, ◌<◌, [], List, true, false, None, All, is_some, length, map, vec_capacity, vec_len};
ghost use Rattle.std.specs.declared.option.Option.{Option};
ghost use Rattle.std.specs.Option.{ForSome};
ghost use Rattle.annex_base.specs.Lists.{Member};
ghost use Rattle.run_data.specs.declared.entry.Entry.{Entry};
ghost use Rattle.run_data.specs.declared.entry.EntryKind.{EntryKind};
ghost use Rattle.object_store.specs.Stores.{Contents, Parts as StoredParts};
ghost use Rattle.object_store.specs.declared.keeper.HoldRecord.{HoldRecord};
ghost use Rattle.content_lock.specs.Stored.{Agrees};
ghost use Rattle.node_model.specs.After.{state_after};
ghost use Rattle.node_model.specs.Ends.{EndName};
ghost use Rattle.node_model.specs.SetUp.{SetUp};
ghost use Rattle.node_model.specs.State.{State};
ghost use Rattle.node_ends.specs.Ends.{IsEndOf, end_at, link_at, name_of};
ghost use Rattle.node_ends.specs.Going.{AreAfter};
ghost use Rattle.node_ends.specs.Joined.{StayPaired};
ghost use Rattle.node_sessions.specs.Sessions.{OwnAll, connection_of};
ghost use Rattle.node_parts.specs.Closing.{Shuts};
ghost use Rattle.node_parts.specs.Parts.{AreAllFed, AreParts};
ghost use Rattle.node_parts.specs.Posting.{PostsPieces, stamp_of};
ghost use Rattle.node_parts.specs.Sending.{PostsOnly};
ghost use Rattle.node_parts.specs.Steps.{LeavesSo, close_made, made_of};

use crate::done::Done;
use crate::moment::{Moment, stamp_at};
use crate::parts::Parts;
use crate::serving::close_if;
use annex_base::{EntryStamp, Items};
use content_lock::LockTable;
use node_ends::{EndId, Ends, ends_go_on};
use node_sessions::{Sessions, sessions_stay};
use run_data::{EntryKind, FrameView};
use running_jobs::jobs_stay;

/// Whether the end is open and, where it is a server's, has its session.
fn may_close(ends: &Ends, sessions: &Sessions, id: EndId) -> bool
    requires there { is_some (link_at ends.now (name_of id)) ≡ true }
    ensures opened { result ≡ true → (end_at ends.now (name_of id)).opened ≡ true }
    ensures among { result ≡ true → id.client ≡ false → Member (id.peer, id.slot) (map connection_of sessions.now) }
    ensures shut { result ≡ false → Member (id.peer, id.slot) (map connection_of sessions.now) → (end_at ends.now (name_of id)).opened ≡ false }
{
    if !ends.is_open(id) {
        return false;
    }
    if id.client {
        return true;
    }
    sessions.has(id.peer, id.slot)
}

/// Sends a Close at an end that is open, and lists it. It takes no memory.
fn close(ends: &mut Ends, id: EndId, stamp: EntryStamp, listing: Vec<FrameView>) -> Done
    requires opened { (end_at ends.old (name_of id)).opened ≡ true }
    requires empty { listing.items ≡ [] }
    requires room { vec_len listing < vec_capacity listing }
    ensures made { made_of result ≡ close_made (name_of id) (end_at ends.old (name_of id)) }
    ensures owes { result.owes ≡ None }
    ensures after { AreAfter ends.old ends.new result.taken result.sent }
    ensures posts { PostsOnly [] stamp result.kind ends.old ends.new result.taken result.sent }
    ensures paired { StayPaired ends.old ends.new }
    ensures count { length ends.new ≡ length ends.old }
{
    // A law, for the proof: the ends are as they were where nothing was sent yet.
    ends_go_on();
    let sent = close_if(ends, id, stamp, true, listing);
    let EndId { peer, slot, client } = id;
    Done {
        kind: EntryKind::Close { peer, slot, client },
        taken: None,
        sent: Items::from_vec(sent),
        owes: None,
    }
}

/// Closes the session of an end, if it is a server's.
fn shut(sessions: &mut Sessions, table: &mut LockTable, id: EndId)
    requires owns { OwnAll table.old sessions.old }
    requires among { id.client ≡ false → Member (id.peer, id.slot) (map connection_of sessions.old) }
    ensures { Shuts (name_of id) sessions.old sessions.new table.old table.new }
{
    // A law, for the proof: a client's end leaves the sessions as they are.
    sessions_stay();
    if id.client {
        return;
    }
    sessions.closed(id.peer, id.slot, table);
}

impl Parts {
    /// Whether the end is open.
    pub fn is_open(&self, id: EndId) -> bool
        requires there { is_some (link_at self.now.links (name_of id)) ≡ true }
        ensures { result ≡ (end_at self.now.links (name_of id)).opened }
    {
        self.ends.is_open(id)
    }

    /// Closes the connection of an end that is open: the end sends a Close, which takes its place on a list that is empty; where the
    /// end is a server's, a hold that its session guards is kept, a part that it fills stays, and the session is as new. A job sees
    /// at its next step that its connection was closed. None comes, and nothing changes, where the end isn't open. It takes no memory.
    pub fn close_end(&mut self, id: EndId, moment: Moment, listing: Vec<FrameView>) -> Option<Done>
        requires there { is_some (link_at self.old.links (name_of id)) ≡ true }
        requires empty { listing.items ≡ [] }
        requires room { vec_len listing < vec_capacity listing }
        requires fresh { All (λ h. h.number < moment.number) self.old.table.holds }
        ensures opened { ForSome result (λ d. (end_at self.old.links (name_of id)).opened ≡ true) }
        ensures made { ForSome result (λ d. made_of d ≡ close_made (name_of id) (end_at self.old.links (name_of id))) }
        ensures owes { ForSome result (λ d. d.owes ≡ None) }

        // Over a store that tells, of each state that these are: they are those of the state after the entry; and where there is none,
        // the end isn't open.
        ensures parts { ForSome result (λ d. (s : SetUp) (st : State) (e : Entry) → AreParts s st self.old → e.kind ≡ d.kind → e.taken ≡ d.taken → e.sent ≡ d.sent → AreParts s (state_after s st e) self.new) }
        ensures shut { result ≡ None → (s : SetUp) (st : State) → AreParts s st self.old → IsEndOf s (name_of id) → (end_at self.old.links (name_of id)).opened ≡ false }
        ensures leaves { LeavesSo moment.number self.old self.new result }
        ensures posts { ForSome result (λ d. (known : Option Contents) → PostsPieces (stamp_of moment self.old.jobs.place.number) d.kind self.old known self.new.links d.taken d.sent) }
        ensures fed { (q : StoredParts) → AreAllFed q self.old → AreAllFed q self.new }
        ensures agrees { (known : Option (List HoldRecord)) → Agrees known self.old.table.holds → Agrees known self.new.table.holds }
        ensures jobs { self.new.jobs ≡ self.old.jobs }

        // No end is opened.
        ensures opens { (a : EndName) → (end_at self.new.links a).opened ≡ true → (end_at self.old.links a).opened ≡ true }
        ensures paired { StayPaired self.old.links self.new.links }
    {
        // Laws, for the proof that the ends and the jobs are those of the state after the entry.
        ends_go_on();
        jobs_stay();
        if !may_close(&self.ends, &self.sessions, id) {
            return None;
        }
        let stamp = stamp_at(moment.time, moment.count, self.jobs.number());
        let done = close(&mut self.ends, id, stamp, listing);
        shut(&mut self.sessions, &mut self.table, id);
        Some(done)
    }
}
