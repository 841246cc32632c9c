//! The word that travels beside a frame, by what its sender found.
ghost use Rattle.std.specs.Prelude.{◌≡◌};
ghost use Rattle.run_model.specs.Words.{word_found, word_of_kind};

use annex_base::{Found, Word};
use run_data::EntryKind;

fn word_found(found: Found) -> Option<Word>
    ensures { result ≡ word_found found }
{
    match found {
        Found::Absent => Some(Word::Absent),
        Found::Barred => Some(Word::Barred),
        Found::Held => Some(Word::Held),
        Found::Late => Some(Word::Late),
        Found::Present | Found::Nolock => None,
    }
}

/// The word beside the frames of an entry of this kind.
pub(crate) fn word_of_kind(kind: &EntryKind) -> Option<Word>
    ensures { result ≡ word_of_kind kind.now }
{
    match kind {
        EntryKind::Check { found, .. } => word_found(*found),
        EntryKind::Fault { .. } => Some(Word::Fault),
        _ => None,
    }
}
