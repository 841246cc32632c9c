//! What an entry needs of its row.
ghost use Rattle.std.specs.Prelude.{◌≡◌, ℕ, List, IfOk, Option};
ghost use Rattle.std.specs.List.{list_any};
ghost use Rattle.p2p_wire.specs.declared.message.Message.{Message};
ghost use Rattle.node_model.specs.After.{first_state};
ghost use Rattle.node_model.specs.Jobs.{taken_message};
ghost use Rattle.node_model.specs.Rows.{blocks, is_blocked, option_is};
ghost use Rattle.node_model.specs.Sessions.{line_in};
ghost use Rattle.node_model.specs.SetUp.{SetUp};
ghost use Rattle.node_model.specs.State.{State};
ghost use Rattle.run_data.specs.declared.entry.EntryKind.TheVariants.{Fault, Gone};
ghost use Rattle.run_laws.specs.Sound.{is_open_for, is_open_hold};
ghost use Rattle.step_judging.specs.Rules.{has_row, is_in_time, needs_row};
ghost use Rattle.step_state.specs.States.{IsStateOf};
ghost use Rattle.state_rows.specs.Rows.{AreRowsOf, bar_of};
ghost use Rattle.state_checks.specs.Rows.{is_free_in, may_go};

use annex_base::{Call, NoMemory};
use annex_key::Key;
use p2p_wire::Message;
use run_data::{By, Entry, EntryKind, FrameText, FrameView, Hold};
use state_rows::Rows;
use std::alloc::Global;
use step_effects::same_owner;
use step_state::RepoState;

/// Whether the row has what the entry needs, by the state before it: rule 2.
pub fn has_row(alloc: Global, state: &RepoState, entry: &Entry) -> Result<bool, NoMemory>
    ensures { IfOk result (λ b. (s : SetUp) (st : State) → IsStateOf state.now s st → b ≡ has_row st entry.now) }
{
    let clock = state.clock(entry.time);
    let told = message_in(alloc, &entry.taken)?;
    Ok(needs_row(state.rows(), clock, &told, &entry.kind))
}

/// Whether an entry of this kind needs nothing of its row, so that a repository has it that has made no entry.
pub fn needs_no_row(kind: &EntryKind) -> bool
    ensures { (s : SetUp) (clock : ℕ) (told : Option Message) → result ≡ needs_row (first_state s) clock told kind.now }
{
    match kind {
        EntryKind::Share { .. } | EntryKind::Release { .. } | EntryKind::Bar { .. } => false,
        EntryKind::Gone { by, .. } => is_scripts(*by),
        EntryKind::Fault { call, .. } => *call != Call::Unhold,
        _ => true,
    }
}

fn is_scripts(by: By) -> bool
    ensures { (s : SetUp) (clock : ℕ) (told : Option Message) (key : List ℕ) → result ≡ needs_row (first_state s) clock told (Gone by key) }
{
    match by {
        By::Script => true,
        By::Job(_) | By::Peer { .. } => false,
    }
}

fn needs_row(rows: &Rows, clock: u128, told: &Option<Message>, kind: &EntryKind) -> bool
    ensures { (st : State) → AreRowsOf rows.now st → result ≡ needs_row st clock told.now kind.now }
{
    match kind {
        EntryKind::Share { key, .. } => is_free(rows, key),
        EntryKind::Release { hold, key } => has_open(rows.holds(), *hold, key),
        EntryKind::Bar { key, .. } => may_go(rows, key, clock),
        EntryKind::Gone { by, key } => may_be_gone(rows, clock, told, *by, key),
        EntryKind::Fault { call, by } => may_fail(rows, *call, *by),
        _ => true,
    }
}

fn may_be_gone(rows: &Rows, clock: u128, told: &Option<Message>, by: By, key: &Key) -> bool
    ensures { (st : State) → AreRowsOf rows.now st → result ≡ needs_row st clock told.now (Gone by key.now) }
{
    match by {
        By::Script => true,
        By::Job(job) => is_barred(rows, job, key),
        By::Peer { .. } => may_go(rows, key, clock) && is_in_time(clock, told),
    }
}

fn may_fail(rows: &Rows, call: Call, by: By) -> bool
    ensures { (st : State) → AreRowsOf rows.now st → (told : Option Message) (clock : ℕ) → result ≡ needs_row st clock told (Fault call by) }
{
    match call {
        Call::Unhold => is_kept_for(rows.holds(), by),
        _ => true,
    }
}

fn is_barred(rows: &Rows, job: u32, key: &Key) -> bool
    ensures { result ≡ option_is (bar_of rows.now key.now) job }
{
    match rows.bar(key) {
        Some(barred) => barred == job,
        None => false,
    }
}

fn is_free(rows: &Rows, key: &Key) -> bool
    ensures { result ≡ is_free_in rows.now key.now }
{
    rows.size(key).is_some() && rows.bar(key).is_none()
}

/// Whether the content is there, and no bar and no hold keeps it there.
fn may_go(rows: &Rows, key: &Key, clock: u128) -> bool
    ensures { result ≡ may_go rows.now key.now clock }
{
    is_free(rows, key) && !is_blocked(rows.holds(), key, clock)
}

/// Whether one of the holds blocks the key.
fn is_blocked(holds: &[Hold], key: &Key, clock: u128) -> bool
    ensures { result ≡ is_blocked holds.now key.now clock }
{
    holds.iter().any(|hold| blocks(hold, key, clock))
}

pub(crate) fn blocks(hold: &Hold, key: &Key, clock: u128) -> bool
    ensures { result ≡ blocks key.now clock hold.now }
{
    hold.key == *key && (!hold.kept || clock < u128::from(hold.end))
}

/// Whether the hold of this number is open, on this key.
fn has_open(holds: &[Hold], number: u64, key: &Key) -> bool
    ensures { result ≡ list_any (is_open_hold number key.now) holds.now }
{
    holds.iter().any(|hold| hold.number == number && hold.key == *key && !hold.kept)
}

/// Whether a hold of this job or session is open.
fn is_kept_for(holds: &[Hold], by: By) -> bool
    ensures { result ≡ list_any (is_open_for by) holds.now }
{
    holds
        .iter()
        .any(|hold| same_owner(hold.owner, by) && !hold.kept)
}

fn is_in_time(clock: u128, told: &Option<Message>) -> bool
    ensures { result ≡ is_in_time clock told.now }
{
    match told {
        Some(Message::RemoveBefore { before, .. }) => clock < 1000 * u128::from(*before),
        _ => true,
    }
}

/// The message of the frame, if there is one.
fn message_in(alloc: Global, taken: &Option<FrameView>) -> Result<Option<Message>, NoMemory>
    ensures { IfOk result (λ m. m ≡ taken_message taken.now) }
{
    match taken {
        Some(frame) => line_in(alloc, &frame.body),
        None => Ok(None),
    }
}

fn line_in(alloc: Global, body: &FrameText) -> Result<Option<Message>, NoMemory>
    ensures { IfOk result (λ m. m ≡ line_in body.now) }
{
    match body {
        FrameText::Line(text) => Message::read(alloc, text.bytes()),
        _ => Ok(None),
    }
}
