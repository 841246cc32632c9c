//! Which keys are being filled.
ghost use Rattle.std.specs.Prelude.{◌≡◌, ◌<◌, ◌^◌, ◌&&◌, ◌==◌, bytes_eq, length, not};
ghost use Rattle.std.specs.List.{list_any};
ghost use Rattle.node_model.specs.Ends.{server_end};
ghost use Rattle.node_model.specs.Sessions.{is_filling};
ghost use Rattle.node_model.specs.SessionStep.{is_filled, session_fills};
ghost use Rattle.node_model.specs.SetUp.{SetUp, served_connections, slots};
ghost use Rattle.node_model.specs.State.{State};
ghost use Rattle.state_jobs.specs.Works.{work_of};
ghost use Rattle.state_sessions.specs.Doings.{doing_of};
ghost use Rattle.state_sessions.specs.Sessions.{session_of};
ghost use Rattle.state_works.specs.Jobs.{works_of};
ghost use Rattle.step_state.specs.States.{IsStateOf};

use annex_key::Key;
use run_data::RepoView;
use state_ends::Connection;
use state_jobs::Work;
use state_sessions::{Doing, Sessions};
use state_works::Jobs;
use step_state::RepoState;

fn is_filling(key: &Key, doing: &Doing) -> bool
    ensures { result ≡ is_filling key.now (doing_of doing.now) }
{
    match doing {
        Doing::Wants { key: filled, .. } => *filled == *key,
        Doing::Takes { key: filled, .. } => *filled == *key,
        Doing::Took { key: filled, .. } => *filled == *key,
        _ => false,
    }
}

/// Whether the session of the connection takes the bytes of the key.
fn takes(sessions: &Sessions, at: Connection, key: &Key) -> bool
    ensures { result ≡ is_filling key.now (session_of sessions.now at.peer at.slot).doing }
{
    match sessions.session(at) {
        Some(session) => is_filling(key, &session.doing),
        None => false,
    }
}

/// Whether it does on a connection that is open.
fn fills_at(state: &RepoState, key: &Key, peer: u32, slot: u32) -> bool
    ensures { (s : SetUp) (st : State) → IsStateOf state.now s st → result ≡ session_fills st key.now (server_end peer slot) }
{
    let at = Connection { peer, slot };
    state.ends().end(at, false).opened && takes(state.sessions(), at, key)
}

fn peer_fills(state: &RepoState, key: &Key, peer: u32) -> bool
    ensures { (s : SetUp) (st : State) → IsStateOf state.now s st → result ≡ list_any (λ slot. session_fills st key.now (server_end peer slot)) slots }
{
    fills_at(state, key, peer, 0)
        || fills_at(state, key, peer, 1)
        || fills_at(state, key, peer, 2)
        || fills_at(state, key, peer, 3)
}

/// Whether it is another repository, and a session with it takes the bytes of the key.
fn other_fills(state: &RepoState, key: &Key, own: u32, peer: u32) -> bool
    ensures { (s : SetUp) (st : State) → IsStateOf state.now s st
        → result ≡ (not (peer == own) && list_any (λ slot. session_fills st key.now (server_end peer slot)) slots) }
{
    peer != own && peer_fills(state, key, peer)
}

/// Whether a session with another repository takes the bytes of the key.
fn sessions_fill(repos: &[RepoView], state: &RepoState, key: &Key) -> bool
    requires { length repos.now < 2 ^ 32 }
    ensures { (s : SetUp) (st : State) → s.repos ≡ repos.now → IsStateOf state.now s st
        → result ≡ list_any (λ c. session_fills st key.now (server_end c.0 c.1)) (served_connections s) }
{
    let own = state.number();
    for peer in 0..repos.len() as u32 {
        if other_fills(state, key, own, peer) {
            return true;
        }
    }
    false
}

fn job_fills(work: &Work, key: &Key) -> bool
    ensures { result ≡ (work.now.fills && bytes_eq work.now.what.key key.now) }
{
    work.fills && work.what.key == *key
}

fn any_fills(works: &[Work], key: &Key) -> bool
    ensures { result ≡ list_any (λ w. w.fills && bytes_eq w.what.key key.now) works.now }
{
    works.iter().any(|work| job_fills(work, key))
}

/// Whether a job takes the bytes of the key.
fn jobs_fill(jobs: &Jobs, key: &Key) -> bool
    ensures { result ≡ list_any (λ w. w.fills && bytes_eq w.what.key key.now) (works_of jobs.now) }
{
    any_fills(jobs.running(), key)
}

/// Whether a session or a get of the repository takes the bytes of the key. All repositories are given, in order of number.
pub fn is_filled(repos: &[RepoView], state: &RepoState, key: &Key) -> bool
    requires { length repos.now < 2 ^ 32 }
    ensures { (s : SetUp) (st : State) → s.repos ≡ repos.now → IsStateOf state.now s st → result ≡ is_filled s st key.now }
{
    sessions_fill(repos, state, key) || jobs_fill(state.jobs(), key)
}
