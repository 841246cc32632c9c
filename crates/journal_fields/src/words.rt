//! Words that stand for one thing each.
ghost use Rattle.std.specs.Prelude.{◌≡◌};
ghost use Rattle.journal_text.specs.Journal.{found_text};
ghost use Rattle.journal_reading.specs.Fields.{found_form, side_form};

use annex_base::Found;
use script_words::is_word;

const FOUND: [Found; 6] = [
    Found::Present,
    Found::Absent,
    Found::Barred,
    Found::Held,
    Found::Late,
    Found::Nolock,
];

fn found_word(found: Found) -> &'static [u8]
    ensures { result.now ≡ found_text found }
{
    match found {
        Found::Present => b"present",
        Found::Absent => b"absent",
        Found::Barred => b"barred",
        Found::Held => b"held",
        Found::Late => b"late",
        Found::Nolock => b"nolock",
    }
}

/// What a look found, by its word.
pub fn read_found(word: &[u8]) -> Option<Found>
    ensures { result ≡ found_form.read word.now }
{
    FOUND
        .iter()
        .copied()
        .find(|found| found_word(*found) == word)
}

/// The end of a connection, by its word: whether it is the client's.
pub fn read_side(word: &[u8]) -> Option<bool>
    ensures { result ≡ side_form.read word.now }
{
    if is_word(word, b"client") {
        return Some(true);
    }
    if is_word(word, b"server") {
        return Some(false);
    }
    None
}
