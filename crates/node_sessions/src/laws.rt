//! The laws of the sessions of a repository. Each is the contract of a function that does nothing.
ghost use Rattle.std.specs.Prelude.{◌≡◌, ◌&&◌, ◌||◌, ℕ, [], List, Some, None, false, bytes_eq};
ghost use Rattle.std.specs.List.{list_any};
ghost use Rattle.std.specs.declared.option.Option.{Option};
ghost use Rattle.link_ring.specs.Ends.{EndView};
ghost use Rattle.run_data.specs.declared.entry.Entry.{Entry};
ghost use Rattle.run_data.specs.declared.entry.EntryKind.{EntryKind};
ghost use Rattle.run_data.specs.declared.entry.EntryKind.TheVariants.{Crash};
ghost use Rattle.node_model.specs.After.{state_after};
ghost use Rattle.node_model.specs.Ends.{EndName, sent_at, taken_at};
ghost use Rattle.node_model.specs.Files.{lines_after};
ghost use Rattle.node_model.specs.Look.{Look, Effect};
ghost use Rattle.node_model.specs.Sessions.{new_session};
ghost use Rattle.node_model.specs.SessionStep.{is_filled, session_step};
ghost use Rattle.node_model.specs.SetUp.{SetUp};
ghost use Rattle.node_model.specs.Slots.{job_of};
ghost use Rattle.node_model.specs.State.{State};
ghost use Rattle.node_ends.specs.Ends.{end_at};
ghost use Rattle.object_store.specs.Stores.{Parts};
ghost use Rattle.p2p_server.specs.declared.session.Session.{Session};
ghost use Rattle.p2p_server.specs.Bounds.{IsKind};
ghost use Rattle.node_sessions.specs.declared.served.Served.{Served};
ghost use Rattle.node_sessions.specs.Kinds.{IsOfSession};
ghost use Rattle.node_sessions.specs.Serving.{HasPart, ServesAt, end_by, ends_after, made_by, sessions_after};
ghost use Rattle.node_sessions.specs.Sessions.{AreSessions, AreAllFed, fills_in};

use key_verify::verdicts_are_matches;

/// Whatever a session is asked of a part, a store that tells its parts has an answer, so that a look may find it (own).
pub fn looks_see_parts()
    ensures { (p : Parts) (xs : List Session) (links : List EndView) (o : Option Served) → AreAllFed p xs → HasPart (Some p) xs links o }
{
    // A law, for the proof that the verdict on what a session took is Right exactly where that is the key's content.
    verdicts_are_matches();
}

/// Where the sessions of the server's ends that are closed are new, the keys that a state fills are those whose bytes a session takes, or a job (own).
pub fn sessions_and_jobs_fill()
    ensures { (s : SetUp) (st : State) (xs : List Session) (key : List ℕ) → AreSessions s st.sessions xs → ((a : EndName) → a.client ≡ false → (st.ends a).opened ≡ false → st.sessions a ≡ new_session)
        → is_filled s st key ≡ (fills_in xs key || list_any (λ w. w.fills && bytes_eq w.what.key key) st.works) }
{}

/// The sessions of the server's ends that are closed are new after a step of the sessions, where they were so before (own).
pub fn sessions_of_closed_ends_are_new()
    ensures { (links : List EndView) (v : Served) (st : State) → ServesAt links v → st.ends (end_by v) ≡ end_at links (end_by v) → ((a : EndName) → a.client ≡ false → (st.ends a).opened ≡ false → st.sessions a ≡ new_session)
        → (a : EndName) → a.client ≡ false → (ends_after st (Some (made_by links v)) a).opened ≡ false → sessions_after st (Some (made_by links v)) a ≡ new_session }
{}

/// An entry that takes and sends nothing at a server's end leaves the sessions as they are (own).
pub fn sessions_stay()
    ensures { (s : SetUp) (st : State) (e : Entry) (xs : List Session) → AreSessions s st.sessions xs → ((a : EndName) → a.client ≡ false → (taken_at a e.taken ≡ None) × (sent_at a e.sent ≡ []))
        → AreSessions s (state_after s st e).sessions xs }
{}

/// What a session makes is an entry of its own, which adds no lines (own).
pub fn sessions_make_their_own_entries()
    ensures { (s : SetUp) (st : State) (k : Look) (m : Effect) → session_step s st k ≡ Some m → IsOfSession m.kind × (m.lines ≡ []) }
{}

/// An entry of a session is none of a job, and no crash, and adds no lines to a file (own).
pub fn sessions_entries_are_no_jobs()
    ensures { (n : ℕ) (kind : EntryKind) → IsKind n kind → (job_of kind ≡ None) × ((clock : ℕ) → kind ≡ Crash clock → ⊥) × ((path : List ℕ) (was lines : List (List ℕ)) → lines_after path was kind lines ≡ was) }
{}
