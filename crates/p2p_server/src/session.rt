//! A session at a server's end of a connection.
ghost use Rattle.std.specs.Prelude.{◌≡◌, ◌≤◌, ◌+◌, ◌<◌, ◌^◌, ℕ, Bool, List, All, true, false, Some, None, IfOk, OnOk, OnErr, IfSome, is_some};
ghost use Rattle.std.specs.declared.option.Option.{Option};
ghost use Rattle.std.specs.Option.{ForSome, option_map};
ghost use Rattle.annex_base.specs.Causes.{Rose};
ghost use Rattle.run_data.specs.declared.entry.By.{By};
ghost use Rattle.run_data.specs.declared.entry.FrameText.{FrameText};
ghost use Rattle.run_data.specs.declared.entry.FrameView.{FrameView};
ghost use Rattle.object_store.specs.Stores.{AreSmallParts, Contents, Parts};
ghost use Rattle.object_store.specs.declared.keeper.HoldRecord.{HoldRecord};
ghost use Rattle.node_model.specs.Ends.{EndName, server_end};
ghost use Rattle.node_model.specs.Look.{Look, failed_in};
ghost use Rattle.node_model.specs.Rows.{same_owner};
ghost use Rattle.node_model.specs.Sessions.{new_session, session_after};
ghost use Rattle.node_model.specs.SessionStep.{gives_next, here, is_filled, on_frame};
ghost use Rattle.node_model.specs.SetUp.{SetUp};
ghost use Rattle.node_model.specs.State.{State};
ghost use Rattle.content_lock.specs.Rows.{Rows, bar_at, is_filling};
ghost use Rattle.content_lock.specs.Stored.{Agrees};
ghost use Rattle.content_lock.specs.Tokens.{Owns, ShareView};
ghost use Rattle.session_state.specs.Answers.{as_said, contents_after, owner_at, reply_of, size_in};
ghost use Rattle.session_state.specs.Bounds.{FitsMore, IsKind, IsReplyIf};
ghost use Rattle.content_lock.specs.CallsMade.{MakesCalls, fewer};
ghost use Rattle.session_state.specs.Giving.{IsPieceOf, failed_more, is_giving, reply_more, session_sent};
ghost use Rattle.session_state.specs.SessionCalls.{calls_next};
ghost use Rattle.session_state.specs.States.{IsScene, HaveRows, Stand, stand_after, stand_of};
ghost use Rattle.p2p_server.specs.Talking.{AreAfterStep, Brings, FillsSo, HasFillOf, IsFedOf, IsJudgedOf, SaysSo, SeesPartOf, SeesSize, guarded_in, label_in, parts_after_of, place_of, session_of, share_of};
ghost use Rattle.node_model.specs.Sessions as sessions;

use crate::hearing::hear;
use annex_base::NoMemory;
use content_lock::LockTable;
use object_store::Keeper;
use run_data::EntryKind;
use session_sending::{next_of, sent};
use session_state::{Doing, Incoming, More, Place, Scene, SessionState, Step, spend};
use std::alloc::Global;

/// A session at a server's end of a connection (git-annex P2P protocol). That of a closed one is new.
pub struct Session {
    pub(crate) state: SessionState,
}

impl Session {
    /// The session of a connection that isn't open.
    pub fn new(place: Place) -> Session
        ensures session { session_of result ≡ new_session }
        ensures place { place_of result ≡ place }
        ensures share { share_of result ≡ None }
        ensures fills { (rows : Rows) → HasFillOf rows result }
        ensures fed { (p : Parts) → IsFedOf p result }
    {
        let state = SessionState {
            place,
            spoken: 0,
            doing: Doing::Waits,
        };
        Session { state }
    }

    /// Where it stands.
    pub fn place(&self) -> Place
        ensures { result ≡ place_of self.now }
    {
        self.state.place
    }

    /// Whether it is sending a content.
    pub fn is_giving(&self) -> bool
        ensures { result ≡ is_giving (session_of self.now).doing }
    {
        match &self.state.doing {
            Doing::Gives(_) => true,
            _ => false,
        }
    }

    /// The answer to a frame, and what follows from it: the step of the definitions (git-annex P2P protocol; what this
    /// leaves open is own). The clock is the repository's, in milliseconds; the number is that of the entry that is to
    /// be made. After NoMemory all is as before.
    pub fn take<K: Keeper>(
        &mut self,
        alloc: Global,
        table: &mut LockTable,
        keeper: &mut K,
        incoming: &Incoming,
        now: u64,
        number: u64,
    ) -> Result<Step, NoMemory>
        requires agrees { Agrees (K.records keeper.old) table.old.holds }
        requires early { now + 600000 < 2 ^ 62 }
        requires fresh { All (λ h. h.number < number) table.old.holds }
        requires owns { Owns (owner_at (place_of self.old)) (share_of self.old) table.old.holds }
        requires fills { HasFillOf table.old self.old }

        // Of each state that the session, the table and the store are: the answer is the definitions', and the rows are
        // those after its entry. The failed call is the one that the entry tells.
        ensures step { IfOk result (λ step. (s : SetUp) (st : State) (k : Look) (a : EndName) (body : FrameText)
            → IsScene (record { place = place_of self.old; clock = now; number = number }) s st k a
            → HaveRows table.old (K.contents keeper.old) (stand_of st) → ((key : List ℕ) → is_filled s st key ≡ is_filling table.old key)
            → st.sessions a ≡ session_of self.old → Brings body incoming.now
            → SeesPartOf (K.parts keeper.old) self.old incoming.now k.part k.right → k.fails ≡ failed_in step.kind
            → reply_of step ≡ as_said (on_frame (here s st k a) (st.sessions a) body)) }
        ensures calls { IfOk result (λ step. (s : SetUp) (st : State) (k : Look) (a : EndName) (body : FrameText)
            → IsScene (record { place = place_of self.old; clock = now; number = number }) s st k a
            → HaveRows table.old (K.contents keeper.old) (stand_of st) → ((key : List ℕ) → is_filled s st key ≡ is_filling table.old key)
            → st.sessions a ≡ session_of self.old → Brings body incoming.now
            → SeesPartOf (K.parts keeper.old) self.old incoming.now k.part k.right → k.fails ≡ failed_in step.kind
            → MakesCalls (on_frame (here s st k a) (st.sessions a) body).calls k.fails (K.failing keeper.old) (K.failing keeper.new)) }
        ensures left { IfOk result (λ step. K.failing keeper.new ≡ option_map (fewer (failed_in step.kind)) (K.failing keeper.old)) }
        ensures rows { IfOk result (λ step. (stand : Stand) (part : ℕ) (right : Bool) → HaveRows table.old (K.contents keeper.old) stand
            → SeesPartOf (K.parts keeper.old) self.old incoming.now part right → HaveRows table.new (K.contents keeper.new) (stand_after step.kind stand)) }

        // The holds and bars are those that its entry leaves, also where the store doesn't tell its contents. Numbers of holds
        // stay below that of the next entry; replies are short. The entry is a session's.
        ensures after { IfOk result (λ step. AreAfterStep step.kind table.old table.new) }
        ensures kind { IfOk result (λ step. IsKind number step.kind) }
        ensures bars { IfOk result (λ step. (key : List ℕ) → bar_at table.new key ≡ bar_at table.old key) }
        ensures reply { IfOk result (λ step. IsReplyIf step.reply) }
        ensures numbers { (n : ℕ) → number < n → All (λ h. h.number < n) table.new.holds }

        // And it goes on as the definitions' session does, over what is sent of the step.
        ensures next { IfOk result (λ step. (size : List ℕ → Option ℕ) (sent : List FrameView) (f : FrameView)
            → Brings f.body incoming.now → SaysSo step sent → SeesSize (K.contents keeper.old) incoming.now size
            → session_of self.new ≡ session_after size step.kind (session_of self.old) sent (Some f)) }

        // The part that it takes grows by what comes, and is spent at the verdict; what it has summed stays the store's part. A
        // content comes only of a part whose sum is its key's, also where the store doesn't tell its parts.
        ensures parts { IfOk result (λ step. K.parts keeper.new ≡ parts_after_of self.old incoming.now step.kind (K.parts keeper.old)) }
        ensures small { AreSmallParts (K.parts keeper.old) → AreSmallParts (K.parts keeper.new) }
        ensures fed { OnOk result (ForSome (K.parts keeper.old) (λ p. IsFedOf p self.old → ForSome (K.parts keeper.new) (λ p'. IsFedOf p' self.new))) }
        ensures judged { IfOk result (λ step. IsJudgedOf self.old step.kind) }
        ensures filled { OnOk result (FillsSo (session_of self.old).doing (session_of self.new).doing (is_filling table.old) (is_filling table.new)) }
        ensures place { place_of self.new ≡ place_of self.old }
        ensures guards { label_in (share_of self.new) ≡ guarded_in (session_of self.new).doing }
        ensures owns { Owns (owner_at (place_of self.new)) (share_of self.new) table.new.holds }
        ensures fills { HasFillOf table.new self.new }
        ensures others { (by : By) (share : Option ShareView) → same_owner (owner_at (place_of self.old)) by ≡ false → Owns by share table.old.holds → Owns by share table.new.holds }
        ensures agrees { Agrees (K.records keeper.new) table.new.holds }
        ensures later { K.faults keeper.old ≤ K.faults keeper.new }
        ensures cause { IfOk result (λ step. IfSome (failed_in step.kind) (λ call. Rose (K.faults keeper.old) (K.faults keeper.new))) }
        ensures err { OnErr result ((self.new ≡ self.old) × (table.new ≡ table.old)) }
        ensures err_contents { OnErr result (K.contents keeper.new ≡ K.contents keeper.old) }
        ensures err_parts { OnErr result (K.parts keeper.new ≡ K.parts keeper.old) }
        ensures err_records { OnErr result (K.records keeper.new ≡ K.records keeper.old) }
        ensures err_failing { OnErr result (K.failing keeper.new ≡ K.failing keeper.old) }

        // The files stay. A store that tells its contents still does; of a commit it must tell the part, too.
        ensures files { K.files keeper.new ≡ K.files keeper.old }
        ensures told { is_some (K.parts keeper.old) ≡ true → is_some (K.contents keeper.new) ≡ is_some (K.contents keeper.old) }
        ensures contents { IfOk result (λ step. K.contents keeper.new ≡ contents_after (K.contents keeper.old) (K.parts keeper.old) step.kind) }
    {
        let scene = Scene {
            place: self.state.place,
            clock: now,
            number,
        };
        hear(&mut self.state, alloc, table, keeper, incoming, scene)
    }

    /// What is sent next of a content, where nothing has come. After Gone and Fault the connection is closed, and the session
    /// is as new. After NoMemory all is as before.
    pub fn more<K: Keeper>(&mut self, alloc: Global, keeper: &mut K) -> Result<More, NoMemory>
        ensures step { IfOk result (λ more. (s : SetUp) (st : State) (k : Look) (a : EndName) (c : Contents)
            → a ≡ server_end (place_of self.old).peer (place_of self.old).slot → K.contents keeper.old ≡ Some c → ((key : List ℕ) → size_in c key ≡ st.content key)
            → st.sessions a ≡ session_of self.old → k.fails ≡ failed_more more
            → gives_next (here s st k a) (st.sessions a).doing ≡ reply_more (place_of self.old) more) }
        ensures bytes { IfOk result (λ more. ForSome (K.contents keeper.old) (λ c. IsPieceOf c (session_of self.old).doing more)) }
        ensures some { is_giving (session_of self.old).doing ≡ true → IfOk result (λ more. more ≡ More.Nothing → ⊥) }
        ensures short { IfOk result FitsMore }
        ensures next { IfOk result (λ more. session_of self.new ≡ session_sent more (session_of self.old)) }
        ensures place { place_of self.new ≡ place_of self.old }
        ensures share { share_of self.new ≡ share_of self.old }
        ensures fills { (rows : Rows) → HasFillOf rows self.old → HasFillOf rows self.new }
        ensures fed { (p : Parts) → IsFedOf p self.old → IsFedOf p self.new }
        ensures err { OnErr result (self.new ≡ self.old) }
        ensures contents { K.contents keeper.new ≡ K.contents keeper.old }
        ensures parts { K.parts keeper.new ≡ K.parts keeper.old }
        ensures records { K.records keeper.new ≡ K.records keeper.old }
        ensures files { K.files keeper.new ≡ K.files keeper.old }
        ensures told { is_some (K.contents keeper.new) ≡ is_some (K.contents keeper.old) }
        ensures later { K.faults keeper.old ≤ K.faults keeper.new }
        ensures cause { IfOk result (λ more. IfSome (failed_more more) (λ call. Rose (K.faults keeper.old) (K.faults keeper.new))) }
        ensures calls { IfOk result (λ more. MakesCalls (calls_next (session_of self.old).doing) (failed_more more) (K.failing keeper.old) (K.failing keeper.new)) }
        ensures err_failing { OnErr result (K.failing keeper.new ≡ K.failing keeper.old) }
    {
        let Doing::Gives(giving) = &self.state.doing else {
            return Ok(More::Nothing);
        };
        let more = next_of(self.state.place, alloc, keeper, giving)?;
        sent(&mut self.state, &more);
        Ok(more)
    }

    /// The connection was closed: a hold that the session guards is kept, a part that it fills stays, and it is as new.
    pub fn closed(&mut self, table: &mut LockTable)
        requires owns { Owns (owner_at (place_of self.old)) (share_of self.old) table.old.holds }
        requires fills { HasFillOf table.old self.old }
        ensures session { session_of self.new ≡ new_session }
        ensures place { place_of self.new ≡ place_of self.old }
        ensures after { AreAfterStep (EntryKind.Close (place_of self.old).peer (place_of self.old).slot false) table.old table.new }
        ensures numbers { (n : ℕ) → All (λ h. h.number < n) table.old.holds → All (λ h. h.number < n) table.new.holds }
        ensures filled { FillsSo (session_of self.old).doing sessions.Waits (is_filling table.old) (is_filling table.new) }
        ensures share { share_of self.new ≡ None }
        ensures owns { Owns (owner_at (place_of self.new)) (share_of self.new) table.new.holds }
        ensures fills { HasFillOf table.new self.new }
        ensures fed { (p : Parts) → IsFedOf p self.new }
        ensures others { (by : By) (share : Option ShareView) → same_owner (owner_at (place_of self.old)) by ≡ false → Owns by share table.old.holds → Owns by share table.new.holds }
        ensures agrees { (known : Option (List HoldRecord)) → Agrees known table.old.holds → Agrees known table.new.holds }
    {
        self.state.reset(table);
    }

    /// Spends the session, as `closed` does.
    pub fn end(self, table: &mut LockTable)
        requires owns { Owns (owner_at (place_of self)) (share_of self) table.old.holds }
        requires fills { HasFillOf table.old self }
        ensures after { AreAfterStep (EntryKind.Close (place_of self).peer (place_of self).slot false) table.old table.new }
        ensures numbers { (n : ℕ) → All (λ h. h.number < n) table.old.holds → All (λ h. h.number < n) table.new.holds }
        ensures filled { FillsSo (session_of self).doing sessions.Waits (is_filling table.old) (is_filling table.new) }
        ensures owns { Owns (owner_at (place_of self)) None table.new.holds }
        ensures others { (by : By) (share : Option ShareView) → same_owner (owner_at (place_of self)) by ≡ false → Owns by share table.old.holds → Owns by share table.new.holds }
        ensures agrees { (known : Option (List HoldRecord)) → Agrees known table.old.holds → Agrees known table.new.holds }
    {
        let Session { state } = self;
        let SessionState {
            place: _,
            spoken: _,
            doing,
        } = state;
        spend(doing, table);
    }
}
