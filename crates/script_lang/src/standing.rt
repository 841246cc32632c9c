//! Laws of the commands that a text says: each is the contract of a function that does nothing.
ghost use Rattle.std.specs.Prelude.{◌≡◌, ◌+◌, ◌≤◌, List, ℕ, length};
ghost use Rattle.script_commands.specs.declared.command.Command.{Command};
ghost use Rattle.script_lang.specs.Numbering.{line_numbers};
ghost use Rattle.script_lang.specs.Script.{reading, no_context, Commands};
ghost use Rattle.script_lang.specs.Preconditions.{AllStand};

use annex_key::key_texts_have_no_fault;
use key_verify::{made_keys_match, verdicts_are_matches};

/// Each command of a script has what its form says where it stands: repositories that are declared, two different ones
/// where the form wants two, a key's text, a content that is its key's, a path of the tree with its key, texts of one
/// line; and it passes no limit.
pub fn commands_stand()
    ensures { (text : List ℕ) (commands : List Command) → reading text ≡ Commands commands → AllStand no_context commands }
{
    // laws, for the proof, line by line, that a command's keys are texts of keys, and its content is its key's
    key_texts_have_no_fault();
    verdicts_are_matches();
    made_keys_match();
}

/// Each command of a script stands on a line.
pub fn commands_have_lines()
    ensures { (text : List ℕ) (commands : List Command) → reading text ≡ Commands commands → length (line_numbers text) ≡ length commands }
{
    // laws, for the proof, line by line, that a command's keys are texts of keys, and its content is its key's
    key_texts_have_no_fault();
    verdicts_are_matches();
    made_keys_match();
}

/// A script has at most as many commands as its text has bytes, and one.
pub fn scripts_have_few_lines()
    ensures { (text : List ℕ) (commands : List Command) → reading text ≡ Commands commands → length commands ≤ length text + 1 }
{
    // laws, for the proof, line by line, that a command's keys are texts of keys, and its content is its key's
    key_texts_have_no_fault();
    verdicts_are_matches();
    made_keys_match();
}
