//! The moving parts of a repository.
ghost use Rattle.std.specs.Prelude.{◌≡◌, ℕ, ◌≤◌, ◌<◌, ◌+◌, ◌-◌, ◌*◌, ◌^◌, List, [], true, false, All, None, Some, IfOk, IfSome, IsErrOf, OnErr, OnOk, is_some, length, map, nat_lt, replicate, slice_get};
ghost use Rattle.std.specs.List.{list_any};
ghost use Rattle.std.specs.Option.{ForSome, option_map};
ghost use Rattle.annex_base.specs.Causes.{Rose};
ghost use Rattle.run_data.specs.declared.entry.Entry.{Entry};
ghost use Rattle.run_data.specs.declared.entry.EntryKind.TheVariants.{Begin};
ghost use Rattle.run_data.specs.declared.run.RepoView.{RepoView};
ghost use Rattle.object_store.specs.Stores.{AreSmallParts, Parts as StoredParts};
ghost use Rattle.content_lock.specs.Stored.{Agrees};
ghost use Rattle.link_ring.specs.Ends.{after_drop, fresh, has_frames};
ghost use Rattle.node_model.specs.After.{first_state, state_after};
ghost use Rattle.node_model.specs.Look.{Effect};
ghost use Rattle.node_model.specs.SessionStep.{session_step};
ghost use Rattle.node_model.specs.SetUp.{SetUp};
ghost use Rattle.node_model.specs.State.{State};
ghost use Rattle.content_lock.specs.CallsMade.{MakesCalls, fewer};
ghost use Rattle.node_ends.specs.Joined.{AreCarried, AreJoined, StayPaired};
ghost use Rattle.node_sessions.specs.Sessions.{IsSetUp};
ghost use Rattle.running_jobs.specs.Beginning.{Begins, MayBegin};
ghost use Rattle.node_parts.specs.Kinds.{IsQuiet};
ghost use Rattle.node_parts.specs.Parts.{AreAllFed, AreParts};
ghost use Rattle.node_parts.specs.Posting.{PostsPieces, stamp_of};
ghost use Rattle.node_parts.specs.Sound.{AreSound};
ghost use Rattle.node_parts.specs.Steps.{HasPart, LeavesSo, Serves, WhereServed, failed_by};
ghost use Rattle.node_parts.specs.Stored.{contents_then, parts_then};

use crate::done::Done;
use crate::moment::{Moment, stamp_at};
use crate::serving::{listing, serve_if};
use annex_base::{Items, NoMemory, RepoId, Text};
use content_lock::LockTable;
use link_ring::Links;
use node_ends::{Ends, carry_ends, ends_begin_closed, ends_go_on};
use node_sessions::{
    Sessions, looks_see_parts, sessions_and_jobs_fill, sessions_entries_are_no_jobs,
    sessions_make_their_own_entries, sessions_of_closed_ends_are_new, sessions_stay,
};
use object_store::Keeper;
use run_data::Job;
use running_jobs::{BeginRefused, Jobs, Place, jobs_stay};
use std::alloc::Global;
use std::marker::Model;

/// The moving parts of a repository: its lock table, its ends, its sessions and its running jobs (own). They have tokens to
/// spend, so they are dissolved and never dropped.
pub struct Parts {
    pub(crate) table: LockTable,
    pub(crate) ends: Ends,
    pub(crate) sessions: Sessions,
    pub(crate) jobs: Jobs,
}

impl Model for Parts {
    ghost use Rattle.node_parts.specs.Parts.{PartsView};
    ghost use Rattle.node_parts.specs.Sound.{AreSound};

    ghost Value = { PartsView };

    ghost view = { λ p. record { table = p.table; links = p.ends; sessions = p.sessions; jobs = p.jobs } };

    ghost invariant = { λ p. AreSound (record { table = p.table; links = p.ends; sessions = p.sessions; jobs = p.jobs }) };
}

impl Parts {
    /// The parts before the first entry of the repository of this number among those with these identifiers: its links are those
    /// that `link_ring::make_links` gave for as many repositories at its place. The version is the greatest that it speaks, 1 to
    /// 3; it gives holds to its peers, or doesn't.
    pub fn new(
        alloc: Global,
        number: u32,
        id: RepoId,
        ids: Items<RepoId>,
        version: u8,
        locks: bool,
        links: Links,
    ) -> Result<Parts, NoMemory>
        requires own { slice_get ids number ≡ Some id }
        requires few { length ids < 2 ^ 32 }
        requires links { links.ends.items ≡ replicate (length ids * 8) fresh }
        ensures table { IfOk result (λ p. p.table ≡ record { holds = []; bars = []; fills = [] }) }
        ensures links { IfOk result (λ p. p.links ≡ replicate (length ids * 8) fresh) }
        ensures jobs { IfOk result (λ p. p.jobs ≡ record { place = record { number = number; ids = ids }; running = []; begun = 0 }) }
        ensures parts { IfOk result (λ p. (s : SetUp) → IsSetUp s id version locks number (length ids) → map (λ (repo : RepoView). repo.id) s.repos ≡ ids → AreParts s (first_state s) p) }
        ensures fed { IfOk result (λ p. (q : StoredParts) → AreAllFed q p) }
    {
        // A law, for the proof that the ends are those of the first state.
        ends_begin_closed();
        let count = ids.as_slice().len();
        let table = LockTable::new(alloc)?;
        let sessions = Sessions::new(alloc, id, version, locks, number, count as u32)?;
        let ends = Ends::new(links, count);
        let jobs = Jobs::new(alloc, Place::new(number, ids));
        Ok(Parts {
            table,
            ends,
            sessions,
            jobs,
        })
    }

    /// Its rows. What the parts have of them and of the ends is theirs, whatever a store tells.
    pub fn table(&self) -> &LockTable
        ensures rows { result.now ≡ self.now.table }
        ensures sound { AreSound self.now }
    {
        &self.table
    }

    /// How many jobs were begun.
    pub fn begun(&self) -> u32
        ensures { result ≡ self.now.jobs.begun }
    {
        self.jobs.begun()
    }

    /// Whether a job may begin: fewer than four run.
    pub fn has_slot(&self) -> bool
        ensures { result ≡ nat_lt (length self.now.jobs.running) 4 }
    {
        self.jobs.running() < 4
    }

    /// Begins a job, and gives its number: a drop, a get, a copy or a move; its peer, if it has one, is another repository. Its key has
    /// these paths in the tree. After a refusal all is as before.
    pub fn begin(
        &mut self,
        alloc: Global,
        what: Job,
        paths: Items<Text>,
    ) -> Result<u32, BeginRefused>
        requires may { MayBegin self.old.jobs.place what.kind what.peer }
        requires few { self.old.jobs.begun < 2 ^ 32 - 1 }
        ensures number { IfOk result (λ n. n ≡ self.old.jobs.begun + 1) }
        ensures jobs { OnOk result (Begins self.old.jobs what paths self.new.jobs) }
        ensures rest { self.new ≡ record self.old { jobs = self.new.jobs } }
        ensures free { OnOk result (length self.old.jobs.running < 4) }
        ensures full { IsErrOf result BeginRefused.NoSlot → 4 ≤ length self.old.jobs.running }
        ensures short { IsErrOf result BeginRefused.NoMemory → length self.old.jobs.running < 4 }
        ensures err { OnErr result (self.new ≡ self.old) }
        ensures parts { OnOk result ((s : SetUp) (st : State) (e : Entry) → AreParts s st self.old → e.kind ≡ Begin (self.old.jobs.begun + 1) what → e.taken ≡ None → e.sent ≡ [] → AreParts s (state_after s st e) self.new) }
        ensures fed { OnOk result ((q : StoredParts) → AreAllFed q self.old → AreAllFed q self.new) }
    {
        // Laws, for the proof that the ends and the sessions are those of the state after the entry.
        ends_go_on();
        sessions_stay();
        self.jobs.begin(alloc, what, paths)
    }

    /// Whether a frame is at hand at one of the ends. Where none is, `drop_old` changes nothing.
    pub fn have_frames(&self) -> bool
        ensures any { result ≡ list_any has_frames self.now.links }
        ensures kept { result ≡ false → map after_drop self.now.links ≡ self.now.links }
    {
        self.ends.have_frames()
    }

    /// Drops, at each end, the frames that are never taken.
    pub fn drop_old(&mut self)
        ensures links { self.new ≡ record self.old { links = map after_drop self.old.links } }
        ensures paired { StayPaired self.old.links self.new.links }
        ensures parts { (s : SetUp) (st : State) → AreParts s st self.old → AreParts s st self.new }
    {
        self.ends.drop_old();
    }

    /// The step of the first session that has one: its frames are taken and sent. After NoMemory all is as before.
    pub fn serve<K: Keeper>(
        &mut self,
        alloc: Global,
        keeper: &mut K,
        moment: Moment,
    ) -> Result<Option<Done>, NoMemory>
        requires agrees { Agrees (K.records keeper.old) self.old.table.holds }
        requires fresh { All (λ h. h.number < moment.number) self.old.table.holds }

        // Over a store that tells: of each state that these and the store are, at each look that finds the part that is asked for,
        // this is the step of its sessions; and there is such a part.
        ensures step { IfOk result (λ o. ForSome (K.contents keeper.old) (λ c. Serves self.old self.new c (K.parts keeper.old) (K.contents keeper.new) moment.clock moment.time moment.number o)) }
        ensures asked { IfOk result (λ o. ForSome (K.parts keeper.old) (λ q. AreAllFed q self.old → ForSome o (λ d. HasPart (Some q) self.old d.kind d.taken))) }

        // At the same looks it makes the calls of its store that that step makes; where one was to fail, it tells that call.
        ensures calls { IfOk result (λ o. ForSome (K.contents keeper.old) (λ c. WhereServed self.old c (K.parts keeper.old) moment.clock moment.time moment.number o (λ s st k. ForSome (session_step s st k) (λ (m : Effect). MakesCalls m.calls (failed_by o) (K.failing keeper.old) (K.failing keeper.new))))) }
        ensures left { IfOk result (λ o. K.failing keeper.new ≡ option_map (fewer (failed_by o)) (K.failing keeper.old)) }
        ensures contents { IfOk result (λ o. K.contents keeper.new ≡ contents_then (K.contents keeper.old) (K.parts keeper.old) o) }
        ensures parts { IfOk result (λ o. K.parts keeper.new ≡ parts_then self.old (K.parts keeper.old) o) }
        ensures leaves { IfOk result (LeavesSo moment.number self.old self.new) }
        ensures posts { IfOk result (λ o. ForSome o (λ d. PostsPieces (stamp_of moment self.old.jobs.place.number) d.kind self.old (K.contents keeper.old) self.new.links d.taken d.sent)) }
        ensures kind { IfOk result (λ o. ForSome o (λ d. IsQuiet d.kind)) }
        ensures owes { IfOk result (λ o. ForSome o (λ d. d.owes ≡ None)) }
        ensures fed { ForSome (K.parts keeper.old) (λ q. AreAllFed q self.old → ForSome (K.parts keeper.new) (λ q'. AreAllFed q' self.new)) }
        ensures told_contents { is_some (K.parts keeper.old) ≡ true → is_some (K.contents keeper.new) ≡ is_some (K.contents keeper.old) }
        ensures told_parts { is_some (K.parts keeper.new) ≡ is_some (K.parts keeper.old) }
        ensures small { AreSmallParts (K.parts keeper.old) → AreSmallParts (K.parts keeper.new) }
        ensures files { K.files keeper.new ≡ K.files keeper.old }
        ensures agrees { Agrees (K.records keeper.new) self.new.table.holds }
        ensures place { self.new.jobs ≡ self.old.jobs }
        ensures paired { StayPaired self.old.links self.new.links }
        ensures later { K.faults keeper.old ≤ K.faults keeper.new }
        ensures cause { IfOk result (λ o. IfSome (failed_by o) (λ call. Rose (K.faults keeper.old) (K.faults keeper.new))) }
        ensures unasked { IfOk result (λ o. o ≡ None → keeper.new ≡ keeper.old) }
        ensures err { OnErr result (self.new ≡ self.old) }
        ensures err_contents { OnErr result (K.contents keeper.new ≡ K.contents keeper.old) }
        ensures err_parts { OnErr result (K.parts keeper.new ≡ K.parts keeper.old) }
        ensures err_records { OnErr result (K.records keeper.new ≡ K.records keeper.old) }
        ensures err_failing { OnErr result (K.failing keeper.new ≡ K.failing keeper.old) }
    {
        let Moment {
            time,
            clock,
            count,
            number,
        } = moment;
        // Laws, for the proof that a look sees a part and the keys filled, and that all parts are then the state's and the store's.
        ends_go_on();
        jobs_stay();
        looks_see_parts();
        sessions_and_jobs_fill();
        sessions_entries_are_no_jobs();
        sessions_make_their_own_entries();
        sessions_of_closed_ends_are_new();
        let stamp = stamp_at(time, count, self.jobs.number());
        let shows = clock.read(time);
        let room = listing(alloc)?;
        let served = self.sessions.step(
            alloc,
            &mut self.ends,
            &mut self.table,
            keeper,
            shows,
            number,
        )?;
        Ok(serve_if(&mut self.ends, stamp, served, room))
    }

    /// Carries the frames of all connections with another repository to the ends that take them.
    pub fn carry(&mut self, other: &mut Parts)
        requires joined { AreJoined self.old.jobs.place.number other.old.jobs.place.number self.old.links other.old.links }
        ensures first { AreCarried self.old.jobs.place.number other.old.jobs.place.number self.old.links self.new.links other.old.links }
        ensures second { AreCarried other.old.jobs.place.number self.old.jobs.place.number other.old.links other.new.links self.old.links }
        ensures joined { AreJoined self.old.jobs.place.number other.old.jobs.place.number self.new.links other.new.links }
        ensures rest { self.new ≡ record self.old { links = self.new.links } }
        ensures other_rest { other.new ≡ record other.old { links = other.new.links } }
        ensures parts { (s : SetUp) (st : State) → AreParts s st self.old → AreParts s st self.new }
        ensures other_parts { (s : SetUp) (st : State) → AreParts s st other.old → AreParts s st other.new }
    {
        let number = self.jobs.number();
        let other_number = other.jobs.number();
        carry_ends(&mut self.ends, number, &mut other.ends, other_number);
    }

    /// Spends what its jobs and sessions have of its table.
    pub fn dissolve(self) {
        let Parts {
            mut table,
            ends: _,
            sessions,
            mut jobs,
        } = self;
        sessions.end(&mut table);
        jobs.end_all(&mut table);
        jobs.dissolve();
    }
}
