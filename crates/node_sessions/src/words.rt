//! The word beside an answer.
ghost use Rattle.std.specs.Prelude.{◌≡◌};
ghost use Rattle.run_data.specs.declared.entry.FrameText.{FrameText};
ghost use Rattle.p2p_server.specs.Talking.{Brings};
ghost use Rattle.node_sessions.specs.Words.{asks_word, word_beside, word_found, word_of_kind};

use annex_base::{Found, Word};
use p2p_server::Incoming;
use p2p_wire::Message;
use run_data::EntryKind;

fn word_found(found: Found) -> Option<Word>
    ensures { result ≡ word_found found }
{
    match found {
        Found::Absent => Some(Word::Absent),
        Found::Barred => Some(Word::Barred),
        Found::Held => Some(Word::Held),
        Found::Late => Some(Word::Late),
        Found::Present | Found::Nolock => None,
    }
}

fn word_of_kind(kind: &EntryKind) -> Option<Word>
    ensures { result ≡ word_of_kind kind.now }
{
    match kind {
        EntryKind::Check { found, key: _ } => word_found(*found),
        EntryKind::Fault { call: _, by: _ } => Some(Word::Fault),
        _ => None,
    }
}

fn asks_word(message: &Message) -> bool
    ensures { result ≡ asks_word message.now }
{
    match message {
        Message::CheckPresent(_) => true,
        Message::Remove(_) => true,
        Message::RemoveBefore { before: _, key: _ } => true,
        _ => false,
    }
}

/// The word beside the answer to this, by an entry of this kind.
pub(crate) fn word_beside(incoming: &Incoming, kind: &EntryKind) -> Option<Word>
    ensures { (body : FrameText) → Brings body incoming.now → result ≡ word_beside body kind.now }
{
    match incoming {
        Incoming::Message(message) => {
            if asks_word(message) {
                word_of_kind(kind)
            } else {
                None
            }
        }
        _ => None,
    }
}
