//! The step that writes the first owed line.
ghost use Rattle.std.specs.Prelude.{◌≡◌, ◌<◌, ◌≤◌, ◌∷◌, [], ℕ, List, Option, if◌then◌else◌, length, IfOk};
ghost use Rattle.annex_base.specs.declared.kinds.Word.{Word};
ghost use Rattle.hash_dirs.specs.LogPath.{location_path};
ghost use Rattle.node_model.specs.Look.{failing_call};
ghost use Rattle.node_model.specs.OwedLines.{OwedLine, due, stamp_at};
ghost use Rattle.node_model.specs.OwedStep.{pays_first};
ghost use Rattle.node_model.specs.SetUp.{SetUp};
ghost use Rattle.node_model.specs.State.{State};
ghost use Rattle.run_data.specs.Repos.{id_of};
ghost use Rattle.step_judging.specs.Rules.{effect_of, is_effect};
ghost use Rattle.step_judging.specs.Same.{same_effect};
ghost use Rattle.step_judging.specs.Telling.{failed_call, look_of};
ghost use Rattle.step_state.specs.States.{IsStateOf};
ghost use Rattle.union_merge.specs.Branch.{lines_at};

use annex_base::{Call, NoMemory, RepoId, Stamp};
use branch_lines::{if_new, status_line};
use hash_dirs::location_path;
use run_data::{Entry, EntryKind, LogFile, RepoView};
use state_owed::Debt;
use std::alloc::Global;
use step_effects::{
    is_fault, is_location, same_call, same_lines, says_nothing, tells, tells_lines,
};
use step_state::RepoState;
use union_merge::{Branch, LineSet};

/// The script's time 0 in milliseconds since 1970 (own).
const SCRIPT_START: u64 = 1_700_000_000_000;

fn stamp_at(clock: u64) -> Stamp
    requires { clock ≤ 1100000000000 }
    ensures { result ≡ stamp_at clock }
{
    Stamp {
        nanos: (SCRIPT_START + clock) * 1_000_000,
    }
}

fn id_of(repos: &[RepoView], number: u32) -> RepoId
    requires { number < length repos.now }
    ensures { result ≡ id_of repos.now number }
{
    repos[number as usize].id
}

/// What the log at this path, which is that of the line's key, lacks of the line at this clock.
fn lacking(
    alloc: Global,
    repos: &[RepoView],
    branch: &Branch,
    clock: u64,
    line: &Debt,
    path: &[u8],
) -> Result<LineSet, NoMemory>
    requires clock { clock ≤ 1100000000000 }
    requires within { line.now.repo < length repos.now }
    requires path { path.now ≡ location_path line.now.key }
    ensures { IfOk result (λ set. set ≡ due repos.now (lines_at branch.now) clock line.now) }
{
    let id = id_of(repos, line.repo);
    let stamp = stamp_at(clock);
    let text = status_line(alloc, branch, path, id, line.there, stamp)?;
    if_new(alloc, branch, path, text.bytes())
}

/// The lines of its key's log that the line is due at this clock.
fn due(
    alloc: Global,
    repos: &[RepoView],
    branch: &Branch,
    clock: u64,
    line: &Debt,
) -> Result<LineSet, NoMemory>
    requires clock { clock ≤ 1100000000000 }
    requires within { line.now.repo < length repos.now }
    ensures { IfOk result (λ set. set ≡ due repos.now (lines_at branch.now) clock line.now) }
{
    let path = location_path(alloc, &line.key)?;
    lacking(alloc, repos, branch, clock, line, path.bytes())
}

/// The file couldn't be written.
fn fails_to_pay(call: Call, line: &Debt, told: &Entry) -> bool
    ensures { result ≡ same_effect (record { kind = EntryKind.Fault call line.now.by; taken = None; sent = []; lines = []; calls = Call.PutFile ∷ [] }) (effect_of told.now) }
{
    let kind_is = is_fault(&told.kind, call, line.by);
    tells(told, kind_is, None, says_nothing(told.sent.as_slice()))
}

/// The line is written.
fn pays(
    alloc: Global,
    repos: &[RepoView],
    state: &RepoState,
    line: &Debt,
    told: &Entry,
) -> Result<bool, NoMemory>
    requires time { told.now.time ≤ 1000000000000 }
    requires within { line.now.repo < length repos.now }
    ensures { IfOk result (λ b. (s : SetUp) (st : State) → s.repos ≡ repos.now → IsStateOf state.now s st
        → b ≡ same_effect (record { kind = EntryKind.Log (LogFile.Location line.now.key); taken = None; sent = []; lines = due s.repos st.lines (st.wall told.now.time) line.now; calls = Call.PutFile ∷ [] }) (effect_of told.now)) }
{
    let clock = state.wall(told.time);
    let branch = state.files().branch();
    let due = due(alloc, repos, branch, clock, line)?;
    let kind_is = is_location(&told.kind, &line.key);
    let lines_is = same_lines(due.lines(), told.lines.as_slice());
    Ok(tells_lines(told, kind_is, lines_is))
}

/// The writing that failed.
fn failing_put(kind: &EntryKind) -> Option<Call>
    ensures { result ≡ failing_call (failed_call kind.now) (Call.PutFile ∷ []) }
{
    match kind {
        EntryKind::Fault { call, .. } => failing_if(*call, same_call(*call, Call::PutFile)),
        _ => None,
    }
}

fn failing_if(call: Call, yes: bool) -> Option<Call>
    ensures { result ≡ (if yes then Some call else None) }
{
    if yes { Some(call) } else { None }
}

/// Whether the entry is the step that writes the first owed line, which is this one.
pub(crate) fn pays_first(
    alloc: Global,
    repos: &[RepoView],
    state: &RepoState,
    line: &Debt,
    told: &Entry,
) -> Result<bool, NoMemory>
    requires time { told.now.time ≤ 1000000000000 }
    requires within { line.now.repo < length repos.now }
    ensures { IfOk result (λ b. (s : SetUp) (st : State) (words : ℕ → Option Word) (os : List OwedLine) → s.repos ≡ repos.now → IsStateOf state.now s st
        → b ≡ is_effect (pays_first s st (look_of st words told.now) (line.now ∷ os)) (effect_of told.now)) }
{
    match failing_put(&told.kind) {
        Some(call) => Ok(fails_to_pay(call, line, told)),
        None => pays(alloc, repos, state, line, told),
    }
}
