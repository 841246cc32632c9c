//! The step of the running jobs, and whether there is one.
ghost use Rattle.std.specs.Prelude.{◌≡◌, ◌≤◌, ◌<◌, All, true, None, Some, IfOk, IfSome, OnErr, is_some, length};
ghost use Rattle.std.specs.Option.{ForSome, option_map, option_or};
ghost use Rattle.annex_base.specs.Causes.{Rose};
ghost use Rattle.object_store.specs.Stores.{AreSmallParts, Contents};
ghost use Rattle.trust_groups.specs.View.{settings_of};
ghost use Rattle.content_lock.specs.Stored.{Agrees};
ghost use Rattle.node_model.specs.Look.{Look, Effect};
ghost use Rattle.node_model.specs.SessionStep.{session_step};
ghost use Rattle.node_model.specs.SetUp.{SetUp};
ghost use Rattle.node_model.specs.State.{State};
ghost use Rattle.node_model.specs.Turns.{job_step};
ghost use Rattle.content_lock.specs.CallsMade.{MakesCalls, fewer};
ghost use Rattle.node_ends.specs.Joined.{StayPaired};
ghost use Rattle.node_parts.specs.Jobs.{JobsGoOn};
ghost use Rattle.node_parts.specs.Kinds.{IsQuiet};
ghost use Rattle.node_parts.specs.Parts.{AreAllFed};
ghost use Rattle.node_parts.specs.Posting.{PostsPieces, stamp_of};
ghost use Rattle.node_parts.specs.Steps.{Acts, HasPart, LeavesSo, OwesTold, SeesParts, WhereActed, failed_by, session_asked};
ghost use Rattle.node_parts.specs.Stored.{contents_then, parts_then};

use crate::acting::act;
use crate::done::Done;
use crate::moment::{Moment, stamp_at};
use crate::parts::Parts;
use annex_base::NoMemory;
use content_lock::others_keep_their_shares;
use job_frames::jobs_make_their_own_entries;
use node_ends::ends_go_on;
use node_sessions::{sessions_and_jobs_fill, sessions_stay};
use object_store::Keeper;
use p2p_server::others_leave_it;
use running_jobs::{jobs_see_parts, jobs_send_where_there_is_room, nameless_are_asked};
use std::alloc::Global;
use trust_groups::Settings;

impl Parts {
    /// The step of the first job, in order of slot, that has one: its frames are taken and sent. A job that ends is off the list.
    /// After NoMemory all is as before.
    pub fn act<K: Keeper>(
        &mut self,
        alloc: Global,
        settings: &Settings,
        keeper: &mut K,
        moment: Moment,
    ) -> Result<Option<Done>, NoMemory>
        requires agrees { Agrees (K.records keeper.old) self.old.table.holds }
        requires fresh { All (λ h. h.number < moment.number) self.old.table.holds }

        // Over a store that tells: of each state that these and the store are, with these settings, at each look that finds the part that
        // is asked for, this is the step of its jobs; and there is such a part, for which no session is asked.
        ensures step { IfOk result (λ o. ForSome (K.contents keeper.old) (λ c. Acts self.old self.new c (K.parts keeper.old) (K.contents keeper.new) moment.clock (settings_of settings.now) moment.time moment.number o)) }
        ensures asked { IfOk result (λ o. ForSome (K.parts keeper.old) (λ q. AreAllFed q self.old → ForSome o (λ d. HasPart (Some q) self.old d.kind d.taken))) }
        ensures no_session { IfOk result (λ o. ForSome o (λ d. session_asked self.old.sessions d.taken ≡ None)) }

        // At the same looks it makes the calls of its store that that step makes; where one was to fail, it tells that call.
        ensures calls { IfOk result (λ o. ForSome (K.contents keeper.old) (λ c. WhereActed self.old c (K.parts keeper.old) moment.clock (settings_of settings.now) moment.time moment.number o (λ s st k. ForSome (job_step s st k) (λ (m : Effect). MakesCalls m.calls (failed_by o) (K.failing keeper.old) (K.failing keeper.new))))) }
        ensures left { IfOk result (λ o. K.failing keeper.new ≡ option_map (fewer (failed_by o)) (K.failing keeper.old)) }
        ensures contents { IfOk result (λ o. K.contents keeper.new ≡ contents_then (K.contents keeper.old) (K.parts keeper.old) o) }
        ensures parts { IfOk result (λ o. K.parts keeper.new ≡ parts_then self.old (K.parts keeper.old) o) }
        ensures leaves { IfOk result (LeavesSo moment.number self.old self.new) }
        ensures posts { IfOk result (λ o. ForSome o (λ d. PostsPieces (stamp_of moment self.old.jobs.place.number) d.kind self.old (K.contents keeper.old) self.new.links d.taken d.sent)) }
        ensures jobs { IfOk result (λ o. ForSome o (JobsGoOn self.old self.new)) }
        ensures kind { IfOk result (λ o. ForSome o (λ d. IsQuiet d.kind)) }
        ensures owes { IfOk result (λ o. ForSome o (OwesTold self.old)) }
        ensures among { IfOk result (λ o. ForSome o (λ d. ForSome d.owes (λ t. t.repo < length self.old.jobs.place.ids))) }
        ensures fed { ForSome (K.parts keeper.old) (λ q. AreAllFed q self.old → ForSome (K.parts keeper.new) (λ q'. AreAllFed q' self.new)) }
        ensures told_contents { is_some (K.parts keeper.old) ≡ true → is_some (K.contents keeper.new) ≡ is_some (K.contents keeper.old) }
        ensures told_parts { is_some (K.parts keeper.new) ≡ is_some (K.parts keeper.old) }
        ensures small { AreSmallParts (K.parts keeper.old) → AreSmallParts (K.parts keeper.new) }
        ensures sessions { self.new.sessions ≡ self.old.sessions }
        ensures place { self.new.jobs.place ≡ self.old.jobs.place }
        ensures begun { self.new.jobs.begun ≡ self.old.jobs.begun }
        ensures files { K.files keeper.new ≡ K.files keeper.old }
        ensures agrees { Agrees (K.records keeper.new) self.new.table.holds }
        ensures paired { StayPaired self.old.links self.new.links }
        ensures later { K.faults keeper.old ≤ K.faults keeper.new }
        ensures cause { IfOk result (λ o. IfSome (failed_by o) (λ call. Rose (K.faults keeper.old) (K.faults keeper.new))) }
        ensures unasked { IfOk result (λ o. o ≡ None → keeper.new ≡ keeper.old) }
        ensures err { OnErr result (self.new ≡ self.old) }
        ensures err_contents { OnErr result (K.contents keeper.new ≡ K.contents keeper.old) }
        ensures err_parts { OnErr result (K.parts keeper.new ≡ K.parts keeper.old) }
        ensures err_records { OnErr result (K.records keeper.new ≡ K.records keeper.old) }
        ensures err_failing { OnErr result (K.failing keeper.new ≡ K.failing keeper.old) }
    {
        // Laws, for the proof that the step is the state's: what it reads and sends, the part that it sees, and the keys filled, the ends
        // and the sessions then; and that each session has its share still.
        ends_go_on();
        jobs_make_their_own_entries();
        jobs_see_parts();
        jobs_send_where_there_is_room();
        nameless_are_asked();
        others_keep_their_shares();
        others_leave_it();
        sessions_and_jobs_fill();
        sessions_stay();
        let Moment {
            time,
            clock,
            count,
            number,
        } = moment;
        let stamp = stamp_at(time, count, self.jobs.number());
        let repositories = self.jobs.repositories();
        let acted = self.jobs.step(
            alloc,
            clock,
            settings,
            &mut self.ends,
            &mut self.table,
            keeper,
            time,
            number,
        )?;
        match acted {
            None => Ok(None),
            Some(acted) => Ok(Some(act(&mut self.ends, stamp, repositories, acted))),
        }
    }

    /// Whether a session or a job has a step; nothing changes.
    pub fn is_ready(&mut self, alloc: Global, moment: Moment) -> Result<bool, NoMemory>
        ensures ready { IfOk result (λ b. (c : Contents) (s : SetUp) (st : State) (k : Look) → SeesParts self.old c moment.clock moment.time moment.number s st k → is_some (option_or (session_step s st k) (job_step s st k)) ≡ b) }
        ensures same { self.new ≡ self.old }
    {
        // Laws, for the proof that the logs see a repository without an identifier as one that is asked, and that the table fills what
        // the state does.
        nameless_are_asked();
        sessions_and_jobs_fill();
        let Moment {
            time,
            clock,
            count: _,
            number: _,
        } = moment;
        if self.sessions.is_ready(&mut self.ends) {
            return Ok(true);
        }
        self.jobs.is_ready(alloc, clock, &mut self.ends, time)
    }
}
