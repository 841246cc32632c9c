//! What a session answers.
ghost use Rattle.std.specs.Prelude.{◌≡◌, true, false, Some, None};
ghost use Rattle.session_state.specs.Answers.{owner_of};

use crate::place::Scene;
use annex_base::{Call, Found};
use annex_key::Key;
use p2p_wire::Message;
use run_data::EntryKind;

/// What a session does: an entry, what it answers, and whether it closes the connection.
#[derive(Drop)]
pub struct Step {
    pub kind: EntryKind,
    pub reply: Option<Message>,
    pub close: bool,
}

impl Step {
    /// Says this.
    pub fn says(kind: EntryKind, message: Message) -> Step
        ensures { result ≡ record { kind = kind; reply = Some message; close = false } }
    {
        Step {
            kind,
            reply: Some(message),
            close: false,
        }
    }

    /// Says nothing.
    pub fn silent(kind: EntryKind) -> Step
        ensures { result ≡ record { kind = kind; reply = None; close = false } }
    {
        Step {
            kind,
            reply: None,
            close: false,
        }
    }

    /// Closes the connection.
    pub fn closes(kind: EntryKind, reply: Option<Message>) -> Step
        ensures { result ≡ record { kind = kind; reply = reply; close = true } }
    {
        Step {
            kind,
            reply,
            close: true,
        }
    }

    /// Says yes, by an entry.
    pub fn granted(kind: EntryKind) -> Step
        ensures { result ≡ record { kind = kind; reply = Some Message.Success; close = false } }
    {
        Step::says(kind, Message::Success)
    }

    /// Says no, with what was found.
    pub fn denied(found: Found, key: Key) -> Step
        ensures { result ≡ record { kind = EntryKind.Check found key; reply = Some Message.Failure; close = false } }
    {
        Step::says(EntryKind::Check { found, key }, Message::Failure)
    }

    /// Says no, since a call of the store failed.
    pub fn failed(scene: Scene, call: Call) -> Step
        ensures { result ≡ record { kind = EntryKind.Fault call (owner_of scene); reply = Some Message.Failure; close = false } }
    {
        Step::says(
            EntryKind::Fault {
                call,
                by: scene.owner(),
            },
            Message::Failure,
        )
    }

    /// Closes the connection, since a call of the store failed.
    pub fn lost(scene: Scene, call: Call) -> Step
        ensures { result ≡ record { kind = EntryKind.Fault call (owner_of scene); reply = None; close = true } }
    {
        Step::closes(
            EntryKind::Fault {
                call,
                by: scene.owner(),
            },
            None,
        )
    }
}
