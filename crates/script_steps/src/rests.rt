//! The rest of a line, behind the last word that is read on its own.
ghost use Rattle.std.specs.Prelude.{◌≡◌, ◌≤◌, ◌+◌, length, IfOk, []};
ghost use Rattle.script_forms.specs.Answers.{Gives};
ghost use Rattle.script_forms.specs.Steps as spec;

use crate::steps::{missing, wrong, wrong_word};
use annex_base::Text;
use log_lines::GroupList;
use script_forms::LineFault;
use script_words::{NextWord, Words, is_group};
use std::alloc::Global;

/// The most bytes of a text up to the line's end.
const LONGEST_TEXT: usize = 4096;

/// What is left of the line isn't longer.
#[tactic(auto, unfolding(script_forms::specs::Steps::short_at))]
pub fn short(words: &Words<'_>) -> Result<(), LineFault>
    ensures { Gives (λ _. tt) result (spec.short_at words.now) }
{
    let place = words.place();
    if words.line().len() - place > LONGEST_TEXT + 1 {
        Err(wrong(place + 1))
    } else {
        Ok(())
    }
}

/// What follows the one space behind the last word.
#[tactic(auto, unfolding(script_forms::specs::Steps::rest_at))]
fn rest_word<'a>(words: &mut Words<'a>) -> Result<&'a [u8], LineFault>
    ensures rest { Gives (λ t. t.now) result (spec.rest_at words.old) }
    ensures line { words.new.line ≡ words.old.line }
{
    match words.rest() {
        NextWord::NoWord => Err(missing(words)),
        NextWord::BadWord { at } => Err(wrong(at)),
        NextWord::Word(word) => Ok(word.text()),
    }
}

/// The rest of the line.
pub fn rest(alloc: Global, words: &mut Words<'_>) -> Result<Text, LineFault>
    ensures { Gives (λ t. t) result (spec.rest_at words.old) }
{
    let text = rest_word(words)?;
    Ok(Text::new(alloc, text)?)
}

/// The rest of the line, where an empty one counts as missing.
#[tactic(auto, unfolding(script_forms::specs::Steps::full_rest_at))]
pub fn full_rest(alloc: Global, words: &mut Words<'_>) -> Result<Text, LineFault>
    ensures { Gives (λ t. t) result (spec.full_rest_at words.old) }
{
    let text = rest_word(words)?;
    if text.is_empty() {
        Err(missing(words))
    } else {
        Ok(Text::new(alloc, text)?)
    }
}

/// A text of at most 4,096 bytes up to the line's end.
#[tactic(auto, unfolding(script_forms::specs::Steps::text_at))]
pub fn text(alloc: Global, words: &mut Words<'_>) -> Result<Text, LineFault>
    ensures { Gives (λ t. t) result (spec.text_at words.old) }
{
    short(words)?;
    rest(alloc, words)
}

/// A glob of 1 to 4,096 bytes up to the line's end.
#[tactic(auto, unfolding(script_forms::specs::Steps::glob_at))]
pub fn glob(alloc: Global, words: &mut Words<'_>) -> Result<Text, LineFault>
    ensures { Gives (λ t. t) result (spec.glob_at words.old) }
{
    short(words)?;
    full_rest(alloc, words)
}

/// All words that are left, which are groups.
fn group_words(alloc: Global, words: &mut Words<'_>) -> Result<GroupList, LineFault>
    ensures { Gives (λ g. g) result (spec.groups_in (length words.old.line + 1) [] words.old) }
{
    let mut groups = GroupList::new(alloc);
    // Each word takes a byte at least, so the loop's end is never met.
    for _ in 0..words.line().len() + 1 {
        match words.next() {
            NextWord::NoWord => return Ok(groups),
            NextWord::BadWord { at } => return Err(wrong(at)),
            NextWord::Word(word) if is_group(word.text()) => {
                groups.push(Text::new(alloc, word.text())?)?;
            }
            NextWord::Word(word) => return Err(wrong_word(&word)),
        }
    }
    Ok(groups)
}

/// All words that are left, which are groups, in at most 4,096 bytes.
#[tactic(auto, unfolding(script_forms::specs::Steps::groups_at))]
pub fn groups(alloc: Global, words: &mut Words<'_>) -> Result<GroupList, LineFault>
    ensures { Gives (λ g. g) result (spec.groups_at words.old) }
{
    short(words)?;
    group_words(alloc, words)
}
