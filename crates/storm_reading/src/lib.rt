//! What the text of a storm says as a script.
#![tactic(auto)]

ghost use Rattle.std.specs.Prelude.{ℕ};
ghost use Rattle.driver_script.specs.Script.{IsScript};
ghost use Rattle.kept_copies.specs.Storms.{storm_commands};
ghost use Rattle.storm_script.specs.Storm.{storm_text};

use annex_key::{key_texts_have_no_fault, texts_say_their_parts};
use key_verify::verdicts_are_matches;
use script_words::{numbers_are_decimal, words_are_as_written};

/// The text of a storm is a script of its commands, whatever its number and however many jobs it has (own).
pub fn storms_say_their_commands()
    ensures { (number jobs : ℕ) → IsScript (storm_text number jobs) (storm_commands number jobs) }
{
    // Laws: which words a line has, numbers are read from their decimal texts, which texts are keys and what their parts are, and
    // a verdict is Right exactly on the content of the key.
    words_are_as_written();
    numbers_are_decimal();
    key_texts_have_no_fault();
    texts_say_their_parts();
    verdicts_are_matches();
}
