//! Whether an entry is what the session of its frame makes.
ghost use Rattle.std.specs.Prelude.{◌≡◌, ◌&&◌, ◌==◌, ◌+◌, ◌<◌, ◌^◌, ◌∷◌, [], ℕ, Bool, false, List, Some, None, length, nat_lt, not, slice_get, if◌then◌else◌, IfOk};
ghost use Rattle.std.specs.Option.{option_copied};
ghost use Rattle.std.specs.declared.option.Option.{Option};
ghost use Rattle.annex_base.specs.declared.kinds.Word.{Word};
ghost use Rattle.run_data.specs.declared.entry.FrameView.{FrameView};
ghost use Rattle.node_model.specs.Ends.{end_takes, may_take, server_end};
ghost use Rattle.node_model.specs.SessionStep.{gives_next, here, is_filled, on_frame};
ghost use Rattle.node_model.specs.SetUp.{SetUp};
ghost use Rattle.node_model.specs.Slots.{job_of};
ghost use Rattle.node_model.specs.State.{State};
ghost use Rattle.step_judging.specs.Rules.{effect_of, is_effect};
ghost use Rattle.step_judging.specs.Same.{same_lines};
ghost use Rattle.step_judging.specs.Telling.{look_of};
ghost use Rattle.step_judging.specs.Told.{connection_told, is_served, session_told};
ghost use Rattle.step_state.specs.States.{IsStateOf, made_of};
ghost use Rattle.step_effects.specs.Sendings.{name_of};
ghost use Rattle.session_makes.specs.Scenes.{here_in, is_reply, is_reply_if};

use crate::messages::hears_frame;
use crate::pieces::gives_next;
use crate::scene::Scene;
use annex_base::NoMemory;
use run_data::{Entry, FrameText, FrameView, RepoView};
use state_ends::{Connection, Standing};
use state_sessions::{Doing, Session};
use std::alloc::Global;
use step_effects::EndAt;
use step_state::RepoState;

/// Whether the end may take the frame.
fn may_take(was: Standing, frame: &FrameView) -> bool
    ensures { result ≡ may_take was frame.now }
{
    match &frame.body {
        FrameText::Opening => !was.opened && was.epoch < u128::from(frame.epoch),
        _ => was.opened && u128::from(frame.epoch) == was.epoch,
    }
}

/// How the end stands after it took the frame.
fn after_taking(was: Standing, frame: &FrameView) -> Standing
    ensures { result ≡ end_takes was frame.now.epoch frame.now.body }
{
    match &frame.body {
        FrameText::Opening => Standing {
            epoch: u128::from(frame.epoch),
            opened: true,
            sent: 0,
        },
        FrameText::Closing => Standing {
            epoch: was.epoch,
            opened: false,
            sent: was.sent,
        },
        _ => was,
    }
}

fn is_other(count: usize, own: u32, peer: u32, slot: u32) -> bool
    ensures { result ≡ (nat_lt peer count && not (peer == own) && nat_lt slot 4) }
{
    (peer as usize) < count && peer != own && slot < 4
}

/// Whether the repository is the server of the connection.
fn is_served(repos: &[RepoView], own: u32, peer: u32, slot: u32) -> bool
    ensures { (s : SetUp) → s.repos ≡ repos.now → s.number ≡ own → result ≡ is_served s (peer, slot) }
{
    is_other(repos.len(), own, peer, slot)
}

/// What the session of this repository reads.
fn scene_at<'a>(
    repos: &'a [RepoView],
    state: &'a RepoState,
    told: &'a Entry,
    repo: &RepoView,
    at: EndAt,
) -> Scene<'a>
    requires { made_of state.now + 1 < 2 ^ 56 }
    ensures at { result.at ≡ at }
    ensures repos { result.repos.now ≡ repos.now }
    ensures state { result.state.now ≡ state.now }
    ensures told { result.told.now ≡ told.now }
    ensures here { (s : SetUp) (st : State) (words : ℕ → Option Word) → s.repos ≡ repos.now → IsStateOf state.now s st → slice_get repos.now s.number ≡ Some repo.now
        → here_in result (is_filled s st) ≡ here s st (look_of st words told.now) (name_of result.at) }
{
    Scene {
        at,
        id: repo.id,
        version: repo.version,
        locks: repo.locks,
        clock: state.clock(told.time),
        number: state.made() + 1,
        rows: state.rows(),
        repos,
        state,
        told,
    }
}

fn connection(scene: &Scene<'_>) -> Connection
    ensures { result ≡ record { peer = scene.now.at.peer; slot = scene.now.at.slot } }
{
    Connection {
        peer: scene.at.peer,
        slot: scene.at.slot,
    }
}

/// The session answers the frame.
fn answers(alloc: Global, scene: &Scene<'_>, body: &FrameText) -> Result<bool, NoMemory>
    requires { length scene.now.repos.now < 2 ^ 32 }
    ensures { IfOk result (λ b. (s : SetUp) (st : State) → s.repos ≡ scene.now.repos.now → IsStateOf scene.now.state.now s st
        → b ≡ is_reply scene.now (on_frame (here_in scene.now (is_filled s st)) (st.sessions (server_end scene.now.at.peer scene.now.at.slot)) body.now)) }
{
    match scene.state.sessions().session(connection(scene)) {
        Some(session) => hears_frame(alloc, scene, session, body),
        None => {
            let session = Session {
                version: 0,
                doing: Doing::Waits,
            };
            hears_frame(alloc, scene, &session, body)
        }
    }
}

/// It gives the next piece of a content, or its word on the pieces.
fn gives(scene: &Scene<'_>) -> bool
    ensures { (filled : List ℕ → Bool) (s : SetUp) (st : State) → IsStateOf scene.now.state.now s st
        → result ≡ is_reply_if scene.now (gives_next (here_in scene.now filled) (st.sessions (server_end scene.now.at.peer scene.now.at.slot)).doing) }
{
    match scene.state.sessions().session(connection(scene)) {
        Some(session) => gives_next(scene, &session.doing),
        None => false,
    }
}

/// The end at which the session of a frame's connection sends.
fn end_at(frame: &FrameView, was: Standing) -> EndAt
    ensures { result ≡ record { peer = frame.now.peer; slot = frame.now.slot; client = false; was = was } }
{
    EndAt {
        peer: frame.peer,
        slot: frame.slot,
        client: false,
        was,
    }
}

/// How the server's end of the frame's connection stands.
fn server_end(state: &RepoState, frame: &FrameView) -> Standing
    ensures { (s : SetUp) (st : State) → IsStateOf state.now s st → result ≡ st.ends (server_end frame.now.peer frame.now.slot) }
{
    let at = Connection {
        peer: frame.peer,
        slot: frame.slot,
    };
    state.ends().end(at, false)
}

/// Whether the entry adds no lines, where it tells the reply so.
fn tells(scene: &Scene<'_>, replied: bool) -> bool
    ensures { result ≡ (replied && same_lines [] scene.now.told.now.lines) }
{
    replied && scene.told.lines.as_slice().is_empty()
}

/// Whether the session takes the frame at an end that stood so.
fn takes_frame(was: Standing, frame: &FrameView) -> bool
    ensures { result ≡ (frame.now.up && may_take was frame.now) }
{
    frame.up && may_take(was, frame)
}

/// Whether the session may send the frame unasked at an end that stands so.
fn sends_unasked(was: Standing, frame: &FrameView) -> bool
    ensures { result ≡ (not frame.now.up && was.opened) }
{
    !frame.up && was.opened
}

/// The repository itself, if the connection of the frame is one of those where it is the server.
fn server<'a>(repos: &'a [RepoView], state: &RepoState, frame: &FrameView) -> Option<&'a RepoView>
    ensures { (s : SetUp) (st : State) → s.repos ≡ repos.now → IsStateOf state.now s st
        → option_copied result ≡ (if is_served s (frame.now.peer, frame.now.slot) then slice_get repos.now s.number else None) }
{
    let own = state.number();
    if is_served(repos, own, frame.peer, frame.slot) {
        repos.get(own as usize)
    } else {
        None
    }
}

/// Whether the entry is what the session of the frame that it takes makes.
fn taking_told(
    alloc: Global,
    repos: &[RepoView],
    state: &RepoState,
    told: &Entry,
    frame: &FrameView,
) -> Result<bool, NoMemory>
    requires many { length repos.now < 2 ^ 32 }
    requires few { made_of state.now + 1 < 2 ^ 56 }
    ensures { IfOk result (λ b. (s : SetUp) (st : State) (words : ℕ → Option Word) → s.repos ≡ repos.now → IsStateOf state.now s st
        → job_of told.now.kind ≡ None → told.now.taken ≡ Some frame.now
        → b ≡ is_effect (session_told s st (look_of st words told.now) (Some (frame.now.peer, frame.now.slot))) (effect_of told.now)) }
{
    let Some(repo) = server(repos, state, frame) else {
        return Ok(false);
    };
    let was = server_end(state, frame);
    if !takes_frame(was, frame) {
        return Ok(false);
    }
    let end = end_at(frame, after_taking(was, frame));
    let scene = scene_at(repos, state, told, repo, end);
    let answered = answers(alloc, &scene, &frame.body)?;
    Ok(tells(&scene, answered))
}

/// Whether the entry, which takes no frame, is what the session of the first frame that it sends makes.
fn giving_told(repos: &[RepoView], state: &RepoState, told: &Entry, frame: &FrameView) -> bool
    requires { made_of state.now + 1 < 2 ^ 56 }
    ensures { (s : SetUp) (st : State) (words : ℕ → Option Word) (more : List FrameView) → s.repos ≡ repos.now → IsStateOf state.now s st
        → job_of told.now.kind ≡ None → told.now.taken ≡ None → told.now.sent ≡ frame.now ∷ more
        → result ≡ is_effect (session_told s st (look_of st words told.now) (Some (frame.now.peer, frame.now.slot))) (effect_of told.now) }
{
    let Some(repo) = server(repos, state, frame) else {
        return false;
    };
    let was = server_end(state, frame);
    if !sends_unasked(was, frame) {
        return false;
    }
    let scene = scene_at(repos, state, told, repo, end_at(frame, was));
    tells(&scene, gives(&scene))
}

/// Whether the entry, which takes no frame, is what the session of the first frame that it sends makes, if it sends one.
fn first_told(repos: &[RepoView], state: &RepoState, told: &Entry) -> bool
    requires { made_of state.now + 1 < 2 ^ 56 }
    ensures { (s : SetUp) (st : State) (words : ℕ → Option Word) → s.repos ≡ repos.now → IsStateOf state.now s st
        → job_of told.now.kind ≡ None → told.now.taken ≡ None
        → result ≡ is_effect (session_told s st (look_of st words told.now) (connection_told None told.now.sent)) (effect_of told.now) }
{
    match told.sent.as_slice().split_first() {
        Some((frame, _)) => giving_told(repos, state, told, frame),
        None => false,
    }
}

/// Whether the entry, which is none of a job, is what the session of its frame makes, or else that of the first frame that it sends.
/// All repositories are given, in order of number, and the state of the entry's own before it.
pub fn session_told(
    alloc: Global,
    repos: &[RepoView],
    state: &RepoState,
    told: &Entry,
) -> Result<bool, NoMemory>
    requires many { length repos.now < 2 ^ 32 }
    requires few { made_of state.now + 1 < 2 ^ 56 }
    ensures { IfOk result (λ b. (s : SetUp) (st : State) (words : ℕ → Option Word) → s.repos ≡ repos.now → IsStateOf state.now s st → job_of told.now.kind ≡ None
        → b ≡ is_effect (session_told s st (look_of st words told.now) (connection_told told.now.taken told.now.sent)) (effect_of told.now)) }
{
    match &told.taken {
        Some(frame) => taking_told(alloc, repos, state, told, frame),
        None => Ok(first_told(repos, state, told)),
    }
}
