//! The sessions of a repository.
ghost use Rattle.std.specs.Prelude.{◌≡◌, ◌≤◌, ◌+◌, ◌*◌, ◌<◌, ◌^◌, ◌||◌, ℕ, Bool, List, All, true, false, Some, None, IfOk, IfSome, OnErr, is_some, length, map};
ghost use Rattle.std.specs.declared.option.Option.{Option};
ghost use Rattle.std.specs.Option.{ForSome, option_map};
ghost use Rattle.annex_base.specs.Causes.{Rose};
ghost use Rattle.annex_base.specs.Lists.{Member};
ghost use Rattle.run_data.specs.declared.entry.By.{By};
ghost use Rattle.run_data.specs.declared.entry.EntryKind.TheVariants.{Close, Crash};
ghost use Rattle.object_store.specs.Stores.{AreSmallParts, Parts};
ghost use Rattle.object_store.specs.declared.keeper.HoldRecord.{HoldRecord};
ghost use Rattle.content_lock.specs.CallsMade.{MakesCalls, fewer};
ghost use Rattle.content_lock.specs.Rows.{Rows, bar_at, is_filling};
ghost use Rattle.content_lock.specs.Stored.{Agrees};
ghost use Rattle.content_lock.specs.Tokens.{Owns, ShareView};
ghost use Rattle.link_ring.specs.Ends.{EndView};
ghost use Rattle.node_model.specs.AnyTime.{all_ends};
ghost use Rattle.node_model.specs.Ends.{End, EndName};
ghost use Rattle.node_model.specs.Look.{Look, Effect};
ghost use Rattle.node_model.specs.Sessions.{Session as EndSession, new_session};
ghost use Rattle.node_model.specs.Rows.{holds_after};
ghost use Rattle.node_model.specs.SessionStep.{session_step};
ghost use Rattle.node_model.specs.SetUp.{SetUp};
ghost use Rattle.node_model.specs.State.{State};
ghost use Rattle.node_ends.specs.Ends.{AreEnds, SeesEnds};
ghost use Rattle.p2p_server.specs.Bounds.{IsKind};
ghost use Rattle.p2p_server.specs.Talking.{AreAfterStep, place_of};
ghost use Rattle.node_sessions.specs.Pieces.{PieceBy};
ghost use Rattle.node_sessions.specs.Serving.{AreAfterIf, JudgedBy, Sees, ServesIf, StepsSo, closing_made, failed_by, sessions_after};
ghost use Rattle.node_sessions.specs.Sessions.{AreFilled, AreSessions, AreAllFed, HaveEnds, IsOther, IsSetUp, LeavesPartsOf, OwnAll, connection_of, fills_in};
ghost use Rattle.node_sessions.specs.Stored.{contents_left, parts_left};

use crate::beginning::all_sessions;
use crate::ending::{close_all, close_at, end_all, find_session, has_session};
use crate::served::Served;
use crate::serving::serve;
use crate::turn::first_turn;
use annex_base::{NoMemory, RepoId};
use content_lock::LockTable;
use node_ends::{Ends, ends_are_there, frames_wait_at_ends};
use object_store::Keeper;
use p2p_server::{Place, Session, others_leave_it};
use std::alloc::Global;
use std::marker::Model;

/// The sessions of a repository, one for each connection of which it is the server, which contracts see as their list by client
/// and slot (own).
pub struct Sessions {
    list: Vec<Session>,
}

impl Model for Sessions {
    ghost use Rattle.std.specs.Prelude.{List};
    ghost use Rattle.p2p_server.specs.declared.session.Session.{Session};

    ghost Value = { List Session };

    ghost view = { λ s. s.list.items };
}

impl Sessions {
    /// The sessions of the repository of this number among so many, with this identifier: each is that of a connection that isn't
    /// open. The version is the greatest that it speaks, 1 to 3; it gives holds to its peers, or doesn't.
    pub fn new(
        alloc: Global,
        id: RepoId,
        version: u8,
        locks: bool,
        number: u32,
        count: u32,
    ) -> Result<Sessions, NoMemory>
        ensures sessions { IfOk result (λ xs. (s : SetUp) → IsSetUp s id version locks number count → AreSessions s (λ a. new_session) xs) }
        ensures owns { IfOk result (λ xs. (rows : Rows) → All (λ h. h.kept ≡ true) rows.holds → OwnAll rows xs) }
        ensures fills { IfOk result (λ xs. (key : List ℕ) → fills_in xs key ≡ false) }
        ensures fed { IfOk result (λ xs. (p : Parts) → AreAllFed p xs) }
        ensures there { IfOk result (λ xs. (links : List EndView) → length links ≡ count * 8 → HaveEnds links xs) }
    {
        // A law, for the proof that each session's end is there.
        ends_are_there();
        let place = Place {
            id,
            version,
            locks,
            peer: 0,
            slot: 0,
        };
        let list = all_sessions(alloc, &place, number, count)?;
        Ok(Sessions { list })
    }

    /// Whether there is a session with this client and slot.
    pub fn has(&self, peer: u32, slot: u32) -> bool
        ensures yes { result ≡ true → Member (peer, slot) (map connection_of self.now) }
        ensures no { result ≡ false → Member (peer, slot) (map connection_of self.now) → ⊥ }
    {
        has_session(&self.list, peer, slot)
    }

    /// The connection with this client and slot was closed, by an entry that says so and sends a Close at the server's end: a hold
    /// that its session guards is kept, a part that it fills stays, and it is as new.
    pub fn closed(&mut self, peer: u32, slot: u32, table: &mut LockTable)
        requires owns { OwnAll table.old self.old }
        requires among { Member (peer, slot) (map connection_of self.old) }
        ensures sessions { (s : SetUp) (st : State) (c : End) → AreSessions s st.sessions self.old → AreSessions s (sessions_after st (Some (closing_made peer slot c))) self.new }
        ensures after { AreAfterStep (Close peer slot false) table.old table.new }
        ensures numbers { (n : ℕ) → All (λ h. h.number < n) table.old.holds → All (λ h. h.number < n) table.new.holds }
        ensures owns { OwnAll table.new self.new }
        ensures places { map place_of self.new ≡ map place_of self.old }
        ensures there { (links : List EndView) → HaveEnds links self.old → HaveEnds links self.new }
        ensures others { (by : By) (share : Option ShareView) → IsOther by self.old → Owns by share table.old.holds → Owns by share table.new.holds }
        ensures filled { (others : List ℕ → Bool) → AreFilled table.old self.old others → AreFilled table.new self.new others }
        ensures fed { (p : Parts) → AreAllFed p self.old → AreAllFed p self.new }
        ensures agrees { (known : Option (List HoldRecord)) → Agrees known table.old.holds → Agrees known table.new.holds }
    {
        let at = find_session(&self.list, peer, slot);
        close_at(&mut self.list, at, table);
    }

    /// All connections were closed, by a crash: holds that the sessions guard are kept, parts that they fill stay, and each is as new.
    /// They have nothing of any table then on which nobody has a hold.
    pub fn all_closed(&mut self, table: &mut LockTable)
        requires { OwnAll table.old self.old }
        ensures sessions { (s : SetUp) (was now : EndName → EndSession) → AreSessions s was self.old → ((a : EndName) → a.client ≡ false → Member a (all_ends s) → now a ≡ new_session) → AreSessions s now self.new }
        ensures owns { OwnAll table.new self.new }
        ensures bare { (rows : Rows) → ((by : By) → Owns by None rows.holds) → OwnAll rows self.new }
        ensures fills { (key : List ℕ) → fills_in self.new key ≡ false }
        ensures there { (links : List EndView) → HaveEnds links self.old → HaveEnds links self.new }
        ensures fed { (p : Parts) → AreAllFed p self.old → AreAllFed p self.new }
        ensures others { (by : By) (share : Option ShareView) → IsOther by self.old → Owns by share table.old.holds → Owns by share table.new.holds }
        ensures filled { (others : List ℕ → Bool) → AreFilled table.old self.old others → AreFilled table.new self.new others }
        ensures numbers { (n : ℕ) → All (λ h. h.number < n) table.old.holds → All (λ h. h.number < n) table.new.holds }
        ensures agrees { (known : Option (List HoldRecord)) → Agrees known table.old.holds → Agrees known table.new.holds }
        ensures bars { (key : List ℕ) → bar_at table.new key ≡ bar_at table.old key }
        ensures crash { (clock : ℕ) → holds_after table.new.holds (Crash clock) ≡ holds_after table.old.holds (Crash clock) }
    {
        close_all(&mut self.list, table);
    }

    /// Spends the sessions: holds that they guard are kept, and parts that they fill stay.
    pub fn end(self, table: &mut LockTable)
        requires { OwnAll table.old self }
        ensures others { (by : By) (share : Option ShareView) → IsOther by self → Owns by share table.old.holds → Owns by share table.new.holds }
        ensures filled { (others : List ℕ → Bool) → AreFilled table.old self others → (key : List ℕ) → is_filling table.new key ≡ others key }
        ensures numbers { (n : ℕ) → All (λ h. h.number < n) table.old.holds → All (λ h. h.number < n) table.new.holds }
        ensures agrees { (known : Option (List HoldRecord)) → Agrees known table.old.holds → Agrees known table.new.holds }
        ensures bars { (key : List ℕ) → bar_at table.new key ≡ bar_at table.old key }
        ensures crash { (clock : ℕ) → holds_after table.new.holds (Crash clock) ≡ holds_after table.old.holds (Crash clock) }
    {
        let Sessions { list } = self;
        end_all(list, table);
    }

    /// Whether a session has a step: its end has room, and a frame waits there, or it is sending a content on an open connection.
    pub fn is_ready(&self, ends: &mut Ends) -> bool
        requires there { HaveEnds ends.old self.now }

        // Of each state and look that these are: the state's sessions have a step.
        ensures ready { (s : SetUp) (st : State) (k : Look) → AreEnds ends.old s st → SeesEnds ends.old s k → AreSessions s st.sessions self.now → is_some (session_step s st k) ≡ result }
        ensures ends { ends.new ≡ ends.old }
    {
        // A law, for the proof that what waits at an end for a look is what waits there.
        frames_wait_at_ends();
        first_turn(&self.list, ends).is_some()
    }

    /// The step of the sessions: the first that has a step makes it, and the answer says what is to be done at its end. A session
    /// has a step where its end has room and a frame waits there, or it is sending a content on an open connection. The clock is
    /// the repository's, in milliseconds; the number is that of the entry that is to be made. After NoMemory all is as before.
    pub fn step<K: Keeper>(
        &mut self,
        alloc: Global,
        ends: &mut Ends,
        table: &mut LockTable,
        keeper: &mut K,
        clock: u64,
        number: u64,
    ) -> Result<Option<Served>, NoMemory>
        requires agrees { Agrees (K.records keeper.old) table.old.holds }
        requires early { clock + 600000 < 2 ^ 62 }
        requires fresh { All (λ h. h.number < number) table.old.holds }
        requires owns { OwnAll table.old self.old }
        requires there { HaveEnds ends.old self.old }

        // Of each state and look that these are, at which the entry's call fails: this is the step of the state's sessions.
        ensures step { IfOk result (λ o. (s : SetUp) (st : State) (k : Look)
            → Sees ends.old table.old (K.contents keeper.old) (K.parts keeper.old) clock number self.old o s st k
            → StepsSo ends.old o self.new table.new (K.contents keeper.new) s st k) }

        // It makes the calls of its store that that step makes, and where one was to fail, it tells that call.
        ensures calls { IfOk result (λ o. (s : SetUp) (st : State) (k : Look)
            → Sees ends.old table.old (K.contents keeper.old) (K.parts keeper.old) clock number self.old o s st k
            → ForSome (session_step s st k) (λ (m : Effect). MakesCalls m.calls (failed_by o) (K.failing keeper.old) (K.failing keeper.new))) }
        ensures left { IfOk result (λ o. K.failing keeper.new ≡ option_map (fewer (failed_by o)) (K.failing keeper.old)) }
        ensures contents { IfOk result (λ o. K.contents keeper.new ≡ contents_left (K.contents keeper.old) (K.parts keeper.old) o) }
        ensures left_parts { IfOk result (λ o. K.parts keeper.new ≡ parts_left self.old ends.old o (K.parts keeper.old)) }
        ensures small { AreSmallParts (K.parts keeper.old) → AreSmallParts (K.parts keeper.new) }
        ensures serves { IfOk result (ServesIf ends.old) }
        ensures among { IfOk result (λ o. ForSome o (λ v. Member (v.peer, v.slot) (map connection_of self.old))) }
        ensures same { ends.new ≡ ends.old }
        ensures idle { IfOk result (λ o. o ≡ None → self.new ≡ self.old) }
        ensures unasked { IfOk result (λ o. o ≡ None → keeper.new ≡ keeper.old) }

        // The holds and bars are those that the entry leaves, also where the store doesn't tell its contents; and the entry is a
        // session's.
        ensures after { IfOk result (λ o. AreAfterIf o table.old table.new) }
        ensures kind { IfOk result (λ o. ForSome o (λ v. IsKind number v.kind)) }
        ensures bars { (key : List ℕ) → bar_at table.new key ≡ bar_at table.old key }
        ensures numbers { (n : ℕ) → number < n → All (λ h. h.number < n) table.new.holds }
        ensures owns { OwnAll table.new self.new }
        ensures places { map place_of self.new ≡ map place_of self.old }
        ensures there { (links : List EndView) → HaveEnds links self.old → HaveEnds links self.new }

        // What others have stays theirs.
        ensures others { (by : By) (share : Option ShareView) → IsOther by self.old → Owns by share table.old.holds → Owns by share table.new.holds }
        ensures filled { (others : List ℕ → Bool) → AreFilled table.old self.old others → AreFilled table.new self.new others }
        ensures parts { LeavesPartsOf self.old (K.parts keeper.old) (K.parts keeper.new) }
        ensures fed { ForSome (K.parts keeper.old) (λ p. AreAllFed p self.old → ForSome (K.parts keeper.new) (λ p'. AreAllFed p' self.new)) }

        // The files stay, and a store that tells its parts and its contents goes on to tell its contents.
        ensures files { K.files keeper.new ≡ K.files keeper.old }
        ensures told { is_some (K.parts keeper.old) ≡ true → is_some (K.contents keeper.new) ≡ is_some (K.contents keeper.old) }

        ensures judged { IfOk result (JudgedBy self.old) }

        // A piece that is said is of the content that its session is sending, from the place on to which it has come.
        ensures pieces { IfOk result (PieceBy (K.contents keeper.old) self.old) }
        ensures agrees { Agrees (K.records keeper.new) table.new.holds }
        ensures later { K.faults keeper.old ≤ K.faults keeper.new }
        ensures cause { IfOk result (λ o. IfSome (failed_by o) (λ call. Rose (K.faults keeper.old) (K.faults keeper.new))) }
        ensures err { OnErr result ((self.new ≡ self.old) × (table.new ≡ table.old)) }
        ensures err_contents { OnErr result (K.contents keeper.new ≡ K.contents keeper.old) }
        ensures err_parts { OnErr result (K.parts keeper.new ≡ K.parts keeper.old) }
        ensures err_records { OnErr result (K.records keeper.new ≡ K.records keeper.old) }
        ensures err_failing { OnErr result (K.failing keeper.new ≡ K.failing keeper.old) }
    {
        // Laws, for the proof: a look finds what waits at the ends, and a part that stays is what its session took.
        frames_wait_at_ends();
        others_leave_it();
        match first_turn(&self.list, ends) {
            None => Ok(None),
            Some(first) => {
                let served = serve(
                    &mut self.list,
                    first,
                    alloc,
                    ends,
                    table,
                    keeper,
                    clock,
                    number,
                )?;
                Ok(Some(served))
            }
        }
    }
}
