//! The lines that put contents, and paths into the tree.
ghost use Rattle.std.specs.Prelude.{◌≡◌, ◌≤◌, length, OnOk};
ghost use Rattle.script_forms.specs.Answers.{Gives};
ghost use Rattle.script_forms.specs.Forms.{row, end_within_at};
ghost use Rattle.script_forms.specs.declared.verb.Verb.TheVariants as verbs;

use script_commands::{Action, Command};
use script_forms::{Context, LineFault, Quantity};
use script_steps::{content, end, is_large, key, key_for, matching, path, placed_key, repo};
use script_words::{Content, Words};
use std::alloc::Global;

/// No word is left, and the content doesn't pass its limit.
fn end_within(content: &Content, words: &mut Words<'_>) -> Result<(), LineFault>
    ensures says { Gives (λ _. tt) result (end_within_at content.now words.old) }
    ensures small { OnOk result (length content.now ≤ 16777216) }
{
    end(words)?;
    if is_large(content) {
        Err(LineFault::Past {
            quantity: Quantity::Content,
        })
    } else {
        Ok(())
    }
}

/// `have REPO KEY BYTES`
pub fn have(alloc: Global, context: &Context, words: &mut Words<'_>) -> Result<Command, LineFault>
    ensures { Gives (λ c. c) result ((row verbs.Have).1 context.now words.old) }
{
    let repo = repo(context, words)?;
    let named = key(alloc, context, words)?;
    let content = matching(alloc, &named.key, words)?;
    end_within(&content, words)?;
    let action = Action::Have {
        repo,
        key: named.key,
        content,
    };
    Ok(Command::Does { action })
}

/// `part REPO KEY BYTES`
pub fn part(alloc: Global, context: &Context, words: &mut Words<'_>) -> Result<Command, LineFault>
    ensures { Gives (λ c. c) result ((row verbs.Part).1 context.now words.old) }
{
    let repo = repo(context, words)?;
    let named = key(alloc, context, words)?;
    let content = content(alloc, words)?;
    end_within(&content, words)?;
    let action = Action::SetPart {
        repo,
        key: named.key,
        content,
    };
    Ok(Command::Does { action })
}

/// `damage REPO KEY BYTES`
pub fn damage(alloc: Global, context: &Context, words: &mut Words<'_>) -> Result<Command, LineFault>
    ensures { Gives (λ c. c) result ((row verbs.Damage).1 context.now words.old) }
{
    let repo = repo(context, words)?;
    let named = placed_key(alloc, context, repo, words)?;
    let content = content(alloc, words)?;
    end_within(&content, words)?;
    Ok(Command::Damage {
        repo,
        key: named.key,
        content,
    })
}

/// `add REPO PATH BYTES`
pub fn add(alloc: Global, context: &Context, words: &mut Words<'_>) -> Result<Command, LineFault>
    ensures { Gives (λ c. c) result ((row verbs.Add).1 context.now words.old) }
{
    let repo = repo(context, words)?;
    let path = path(alloc, words)?;
    let content = content(alloc, words)?;
    end_within(&content, words)?;
    let key = key_for(alloc, &path, &content)?;
    let action = Action::Add {
        repo,
        path,
        key,
        content,
    };
    Ok(Command::Does { action })
}

/// `file PATH KEY`
pub fn file(alloc: Global, context: &Context, words: &mut Words<'_>) -> Result<Command, LineFault>
    ensures { Gives (λ c. c) result ((row verbs.File).1 context.now words.old) }
{
    let path = path(alloc, words)?;
    let named = key(alloc, context, words)?;
    end(words)?;
    let action = Action::File {
        path,
        key: named.key,
    };
    Ok(Command::Does { action })
}
