//! Laws of scripts that can be driven: each is the contract of a function that does nothing.
ghost use Rattle.std.specs.Prelude.{◌≡◌, ◌≢◌, ◌↔◌, ◌⊎◌, ◌≤◌, AllPairs, List, None, ℕ, length, map, true};
ghost use Rattle.annex_base.specs.Lists.{Each};
ghost use Rattle.annex_key.specs.KeyText.{IsKeyText};
ghost use Rattle.key_verify.specs.Matching.{MatchesKey};
ghost use Rattle.log_lines.specs.declared.entry.LogKind.{LogKind};
ghost use Rattle.log_lines.specs.declared.entry.LogKind.TheVariants as kinds;
ghost use Rattle.log_lines.specs.declared.entry.Topic.{Topic};
ghost use Rattle.log_lines.specs.declared.entry.Value.{Value};
ghost use Rattle.run_data.specs.Repos.{IsSetUp};
ghost use Rattle.script_commands.specs.declared.command.Command.{Command};
ghost use Rattle.script_commands.specs.declared.command.Action.TheVariants as actions;
ghost use Rattle.script_lang.specs.Context.{Context};
ghost use Rattle.script_lang.specs.Preconditions.{IsSetting, IsValidAction};
ghost use Rattle.script_lang.specs.Script.{Commands, reading, wait_of};
ghost use Rattle.driver_model.specs.Lines.{waited_by};
ghost use Rattle.driver_model.specs.Scripts.{IsOne, IsPlainTopic, IsPlainValue};
ghost use Rattle.driver_script.specs.Inputs.{driver_input_of, matches};
ghost use Rattle.driver_script.specs.Lines.{first_unbuilt, is_built, repos_of};
ghost use Rattle.driver_script.specs.Script.{IsScript, IsUnbuilt};

use annex_key::key_texts_have_no_fault;
use key_verify::{made_keys_match, verdicts_are_matches};
use script_lang::{commands_have_lines, commands_stand};

/// A script that can be driven declares at most sixteen repositories, each set up within its bounds, no two with one identifier;
/// and each of its lines is one of a run of these.
pub fn scripts_may_be_driven()
    ensures repos { (text : List ℕ) (all : List Command) → IsScript text all → Each IsSetUp (repos_of all) }
    ensures few { (text : List ℕ) (all : List Command) → IsScript text all → length (repos_of all) ≤ 16 }
    ensures apart { (text : List ℕ) (all : List Command) → IsScript text all → AllPairs (λ a b. a ≢ b) (map (λ repo. repo.id) (repos_of all)) }
    ensures lines { (text : List ℕ) (all : List Command) → IsScript text all → Each (IsOne (driver_input_of all)) all }
{
    // Laws: what each command has where it stands, that the text of a key has no fault, and that a key made of bytes is theirs.
    commands_stand();
    key_texts_have_no_fault();
    made_keys_match();
}

/// What a line sets in a log is of one line each, and never of locations.
pub fn settings_are_plain()
    ensures { (context : Context) (kind : LogKind) (topic : Topic) (value : Value) → IsSetting context kind topic value → (kind ≢ kinds.Location) × IsPlainTopic topic × IsPlainValue value }
{}

/// The content of a file that is added is that of the key that it gets.
pub fn added_contents_match()
    ensures { (context : Context) (r : ℕ) (path key content : List ℕ) → IsValidAction context (actions.Add r path key content) → IsKeyText key × MatchesKey key content }
{
    // Laws: the text of a key has no fault, and a key that is made of bytes is theirs.
    key_texts_have_no_fault();
    made_keys_match();
}

/// What the driver is given decides whether bytes are a key's.
pub fn bytes_are_matched()
    ensures { (key bytes : List ℕ) → (matches key bytes ≡ true) ↔ MatchesKey key bytes }
{
    // A law: a verdict is Right exactly on the content of the key.
    verdicts_are_matches();
}

/// Of a text's commands all can be driven, or a part is missing for the one on some line.
pub fn scripts_run_or_miss_a_form()
    ensures { (text : List ℕ) (all : List Command) → reading text ≡ Commands all
        → IsScript text all ⊎ ((line : ℕ) × IsUnbuilt text line) }
{
    // A law, so that the command has a line.
    commands_have_lines();
}

/// No text is told two things: which commands it has, or on which line stands the first for which a part is missing. Where there is
/// no first, no part is missing for any.
pub fn scripts_are_built_or_not()
    ensures script { (text : List ℕ) (all others : List Command) → IsScript text all → IsScript text others → all ≡ others }
    ensures line { (text : List ℕ) (line other : ℕ) → IsUnbuilt text line → IsUnbuilt text other → line ≡ other }
    ensures one { (text : List ℕ) (all : List Command) (line : ℕ) → IsScript text all → IsUnbuilt text line → ⊥ }
    ensures each { (all : List Command) → first_unbuilt all ≡ None → Each (λ command. is_built command ≡ true) all }
{}

/// A line waits as long for the driver as for the lines behind it.
pub fn lines_wait_as_long()
    ensures { (command : Command) → waited_by command ≡ wait_of command }
{}
