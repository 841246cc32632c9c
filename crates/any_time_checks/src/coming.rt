//! Entries that may come at any point: what the script begins, adds, closes or lets crash.
ghost use Rattle.std.specs.Prelude.{◌≡◌, ◌<◌, ◌^◌, length, IfOk};
ghost use Rattle.run_data.specs.Repos.{fits_size};
ghost use Rattle.node_model.specs.AnyTime.{needs_peer};
ghost use Rattle.node_model.specs.SetUp.{SetUp};
ghost use Rattle.node_model.specs.State.{State};
ghost use Rattle.step_judging.specs.Rules.{comes, is_peer, may_begin, may_come, may_gain};
ghost use Rattle.any_time_checks.specs.Coming.{brings, fails};
ghost use Rattle.step_state.specs.States.{IsStateOf};

use crate::closing::{closes, closes_all};
use crate::files::{is_keys, may_compact, may_log};
use annex_base::{Call, NoMemory};
use annex_key::Key;
use run_data::{By, Entry, EntryKind, Job, JobKind, RepoView};
use session_makes::is_filled;
use state_checks::{has_no_frames, has_no_lines};
use std::alloc::Global;
use step_state::RepoState;

/// Whether the entry is one that may come at any point, by the state of its repository before it.
pub fn comes(
    alloc: Global,
    repos: &[RepoView],
    state: &RepoState,
    entry: &Entry,
) -> Result<bool, NoMemory>
    requires { length repos.now < 2 ^ 32 }
    ensures { IfOk result (λ b. (s : SetUp) (st : State) → s.repos ≡ repos.now → IsStateOf state.now s st → b ≡ comes s st entry.now) }
{
    match entry.taken {
        Some(_) => Ok(false),
        None => may_come(alloc, repos, state, entry),
    }
}

fn may_come(
    alloc: Global,
    repos: &[RepoView],
    state: &RepoState,
    entry: &Entry,
) -> Result<bool, NoMemory>
    requires { length repos.now < 2 ^ 32 }
    ensures { IfOk result (λ b. (s : SetUp) (st : State) → s.repos ≡ repos.now → IsStateOf state.now s st → b ≡ may_come s st entry.now.lines entry.now.sent entry.now.kind) }
{
    let lines = entry.lines.as_slice();
    let sent = entry.sent.as_slice();
    match &entry.kind {
        EntryKind::Begin { job, what } => {
            Ok(may_begin(repos, state, *job, what) && has_no_lines(lines) && has_no_frames(sent))
        }
        EntryKind::Gain { by, size, key } => {
            Ok(
                may_bring(repos, state, *by, *size, key)
                    && has_no_lines(lines)
                    && has_no_frames(sent),
            )
        }
        EntryKind::Log { file } => {
            Ok(may_log(alloc, state.files(), file, lines)? && has_no_frames(sent))
        }
        EntryKind::Compact { file } => {
            Ok(
                may_compact(alloc, state.files(), file)?
                    && has_no_lines(lines)
                    && has_no_frames(sent),
            )
        }
        EntryKind::Fault { call, by } => {
            Ok(is_scripts(*call, *by) && has_no_lines(lines) && has_no_frames(sent))
        }
        EntryKind::Close { peer, slot, client } => {
            Ok(closes(repos, state, *peer, *slot, *client, lines, sent))
        }
        EntryKind::Crash { .. } => Ok(has_no_lines(lines) && closes_all(repos, state, sent)),
        _ => Ok(false),
    }
}

/// Whether a job of this number may begin.
fn may_begin(repos: &[RepoView], state: &RepoState, job: u32, what: &Job) -> bool
    ensures { (s : SetUp) (st : State) → s.repos ≡ repos.now → IsStateOf state.now s st → result ≡ may_begin s st job what.now }
{
    u128::from(job) == u128::from(state.begun()) + 1
        && state.jobs().running().len() < 4
        && is_peer(repos, state.number(), what.kind, what.peer)
        && is_keys(&what.key)
}

/// Whether a job of this kind of the repository of this number may have this peer.
fn is_peer(repos: &[RepoView], number: u32, kind: JobKind, peer: Option<u32>) -> bool
    ensures { (s : SetUp) → s.repos ≡ repos.now → s.number ≡ number → result ≡ is_peer s kind peer }
{
    match peer {
        None => !needs_peer(kind),
        Some(peer) => (peer as usize) < repos.len() && peer != number,
    }
}

fn needs_peer(kind: JobKind) -> bool
    ensures { result ≡ needs_peer kind }
{
    match kind {
        JobKind::Drop | JobKind::Get => false,
        JobKind::Copy | JobKind::MoveTo | JobKind::MoveFrom => true,
    }
}

/// Whether the script may bring a content of this size.
fn may_bring(repos: &[RepoView], state: &RepoState, by: By, size: u64, key: &Key) -> bool
    requires { length repos.now < 2 ^ 32 }
    ensures { (s : SetUp) (st : State) → s.repos ≡ repos.now → IsStateOf state.now s st → result ≡ brings s st by size key.now }
{
    match by {
        By::Script => may_gain(repos, state, size, key),
        By::Job(_) | By::Peer { .. } => false,
    }
}

fn may_gain(repos: &[RepoView], state: &RepoState, size: u64, key: &Key) -> bool
    requires { length repos.now < 2 ^ 32 }
    ensures { (s : SetUp) (st : State) → s.repos ≡ repos.now → IsStateOf state.now s st → result ≡ may_gain s st size key.now }
{
    state.rows().size(key).is_none()
        && !is_filled(repos, state, key)
        && fits(key.size(), size)
        && size < 1 << 62
}

/// Whether a content of this size may be that of a key that says this one.
fn fits(said: Option<u64>, size: u64) -> bool
    ensures { result ≡ fits_size said size }
{
    match said {
        None => true,
        Some(said) => said == size,
    }
}

/// Whether the call is one of the script's own steps.
fn is_scripts(call: Call, by: By) -> bool
    ensures { result ≡ fails call by }
{
    match by {
        By::Script => matches!(
            call,
            Call::Has | Call::DropPart | Call::Append | Call::Commit | Call::PutFile
        ),
        By::Job(_) | By::Peer { .. } => false,
    }
}
