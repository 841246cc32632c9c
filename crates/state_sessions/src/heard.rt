//! What a session hears, and what that makes it do.
ghost use Rattle.std.specs.Prelude.{◌≡◌, ℕ, List, find, IfOk};
ghost use Rattle.std.specs.declared.option.Option.{Option};
ghost use Rattle.std.specs.Option.{option_copied};
ghost use Rattle.node_model.specs.Ends.{sends_at, sent_at, server_end};
ghost use Rattle.node_model.specs.Sessions as sessions;
ghost use Rattle.node_model.specs.Sessions.{doing_after, guards, gives, line_in, message_said, reaches, version_told, wants};
ghost use Rattle.state_rows.specs.Rows.{size_of};
ghost use Rattle.state_sessions.specs.Doings.{doing_of};
ghost use Rattle.state_sessions.specs.Heard.{IsHeardIn};
ghost use Rattle.state_sessions.specs.Hearing.{Agrees, applied, heard_so, told_of};

use crate::doing::{Doing, takes_from};
use crate::sending::{connection_of, sends};
use annex_base::NoMemory;
use annex_key::Key;
use p2p_wire::Message;
use run_data::{Entry, EntryKind, FrameText, FrameView};
use state_ends::Connection;
use state_rows::Rows;
use std::alloc::Global;

/// What a session does from now on, where it took a message.
#[derive(Drop)]
pub enum Next {
    /// What it did before.
    Stays,
    Waits,
    Guards {
        hold: u64,
        key: Key,
    },
    Gives {
        key: Key,
        at: u64,
        left: u64,
        good: bool,
    },
    Wants {
        key: Key,
        size: u64,
    },
    /// It takes so many bytes, if it wants them.
    Takes {
        count: u64,
    },
}

/// What a message makes of a session: the version that was agreed on by it, if one was, and what it does next.
#[derive(Drop)]
pub struct Heard {
    pub version: Option<u64>,
    pub next: Next,
}

/// Goes on so.
pub(crate) fn apply(doing: Doing, next: Next) -> Doing
    ensures { doing_of result ≡ applied next (doing_of doing) }
{
    match next {
        Next::Stays => doing,
        Next::Waits => Doing::Waits,
        Next::Guards { hold, key } => Doing::Guards { hold, key },
        Next::Gives {
            key,
            at,
            left,
            good,
        } => Doing::Gives {
            key,
            at: u128::from(at),
            left,
            good,
        },
        Next::Wants { key, size } => Doing::Wants { key, size },
        Next::Takes { count } => takes_from(doing, count),
    }
}

/// The entry of the step says which hold it guards, if one.
fn guards(kind: &EntryKind) -> Result<Next, NoMemory>
    ensures { IfOk result (λ next. (was : sessions.Doing) → applied next was ≡ guards kind.now) }
{
    match kind {
        EntryKind::Share { hold, key, .. } => Ok(Next::Guards {
            hold: *hold,
            key: key.copy()?,
        }),
        _ => Ok(Next::Waits),
    }
}

fn reaches(size: Option<u64>, start: u64) -> bool
    ensures { result ≡ reaches size start }
{
    match size {
        Some(size) => start <= size,
        None => false,
    }
}

fn gives(key: Key, at: u64, good: bool, told: &Option<Message>) -> Next
    ensures { (was : sessions.Doing) → applied result was ≡ gives key at good told.now }
{
    match told {
        Some(Message::Data(left)) => Next::Gives {
            key,
            at,
            left: *left,
            good,
        },
        _ => Next::Waits,
    }
}

fn wants(key: Key, told: &Option<Message>) -> Next
    ensures { (was : sessions.Doing) → applied result was ≡ wants key told.now }
{
    match told {
        Some(Message::PutFrom(size)) => Next::Wants { key, size: *size },
        _ => Next::Waits,
    }
}

fn version_told(told: &Option<Message>) -> Option<u64>
    ensures { (was : ℕ) → told_of was result ≡ version_told was told.now }
{
    match told {
        Some(Message::Version(version)) => Some(*version),
        _ => None,
    }
}

fn next_of(
    rows: &Rows,
    kind: &EntryKind,
    told: &Option<Message>,
    message: Message,
) -> Result<Next, NoMemory>
    ensures { IfOk result (λ next. (size : List ℕ → Option ℕ) (was : sessions.Doing) → Agrees size (size_of rows.now) → applied next was ≡ doing_after size kind.now was told.now message) }
{
    match message {
        Message::LockContent(_) => guards(kind),
        Message::Get { start, key, .. } => {
            let good = reaches(rows.size(&key), start);
            Ok(gives(key, start, good, told))
        }
        Message::Put { key, .. } => Ok(wants(key, told)),
        Message::Data(count) => Ok(Next::Takes { count }),
        Message::UnlockContent(_)
        | Message::Valid
        | Message::Invalid
        | Message::Success
        | Message::Failure => Ok(Next::Waits),
        _ => Ok(Next::Stays),
    }
}

/// What the message that was taken makes of its session, where this one was said to it.
fn hearing(
    rows: &Rows,
    kind: &EntryKind,
    told: &Option<Message>,
    taken: Option<Message>,
) -> Result<Option<Heard>, NoMemory>
    ensures { IfOk result (λ h. (size : List ℕ → Option ℕ) (was : sessions.Session) → Agrees size (size_of rows.now) → heard_so h was ≡ sessions.took_message size kind.now was told.now taken) }
{
    match taken {
        None => Ok(None),
        Some(message) => Ok(Some(Heard {
            version: version_told(told),
            next: next_of(rows, kind, told, message)?,
        })),
    }
}

/// The message of a frame, if it has one.
fn line_in(alloc: Global, body: &FrameText) -> Result<Option<Message>, NoMemory>
    ensures { IfOk result (λ m. m ≡ line_in body.now) }
{
    match body {
        FrameText::Line(text) => Message::read(alloc, text.bytes()),
        _ => Ok(None),
    }
}

/// The first of the frames that the server's end of the connection sends.
fn first_at(frames: &[FrameView], at: Connection) -> Option<&FrameView>
    ensures { option_copied result ≡ find (sends_at (server_end at.peer at.slot)) frames.now }
{
    frames.iter().find(|frame| sends(at, frame))
}

/// The message that is said there.
fn told_at(alloc: Global, frames: &[FrameView], at: Connection) -> Result<Option<Message>, NoMemory>
    ensures { IfOk result (λ m. m ≡ message_said (sent_at (server_end at.peer at.slot) frames.now)) }
{
    match first_at(frames, at) {
        Some(frame) => line_in(alloc, &frame.body),
        None => Ok(None),
    }
}

/// What the session that takes a frame of the entry hears.
pub(crate) fn heard_in(alloc: Global, rows: &Rows, entry: &Entry) -> Result<Option<Heard>, NoMemory>
    ensures { IfOk result (IsHeardIn (size_of rows.now) entry.now) }
{
    match &entry.taken {
        Some(frame) if frame.up => {
            let told = told_at(alloc, entry.sent.as_slice(), connection_of(frame))?;
            hearing(rows, &entry.kind, &told, line_in(alloc, &frame.body)?)
        }
        _ => Ok(None),
    }
}
