//! The lines that turn, settle, merge, compact, sync and wait.
ghost use Rattle.std.specs.Prelude.{◌≡◌};
ghost use Rattle.script_forms.specs.Answers.{Gives};
ghost use Rattle.script_forms.specs.Context.{Context};
ghost use Rattle.script_forms.specs.Forms.{row};
ghost use Rattle.script_forms.specs.declared.verb.Verb.TheVariants as verbs;

use script_commands::{Action, Command};
use script_forms::{Context, LineFault};
use script_steps::{end, number, other, repo, turns};
use script_words::Words;

/// `turn REPO [N]`
pub fn turn(context: &Context, words: &mut Words<'_>) -> Result<Command, LineFault>
    ensures { Gives (λ c. c) result ((row verbs.Turn).1 context.now words.old) }
{
    let repo = repo(context, words)?;
    let turns = turns(words);
    end(words)?;
    let action = Action::Turns { repo, turns };
    Ok(Command::Does { action })
}

/// `settle`
pub fn settle(words: &mut Words<'_>) -> Result<Command, LineFault>
    ensures { (context : Context) → Gives (λ c. c) result ((row verbs.Settle).1 context words.old) }
{
    end(words)?;
    let action = Action::Settle;
    Ok(Command::Does { action })
}

/// `merge REPO OTHER`
pub fn merge(context: &Context, words: &mut Words<'_>) -> Result<Command, LineFault>
    ensures { Gives (λ c. c) result ((row verbs.Merge).1 context.now words.old) }
{
    let repo = repo(context, words)?;
    let other = other(context, repo, words)?;
    end(words)?;
    let action = Action::Merge { repo, other };
    Ok(Command::Does { action })
}

/// `compact REPO`
pub fn compact(context: &Context, words: &mut Words<'_>) -> Result<Command, LineFault>
    ensures { Gives (λ c. c) result ((row verbs.Compact).1 context.now words.old) }
{
    let repo = repo(context, words)?;
    end(words)?;
    let action = Action::Compact { repo };
    Ok(Command::Does { action })
}

/// `sync REPO`
pub fn sync(context: &Context, words: &mut Words<'_>) -> Result<Command, LineFault>
    ensures { Gives (λ c. c) result ((row verbs.Sync).1 context.now words.old) }
{
    let repo = repo(context, words)?;
    end(words)?;
    let action = Action::Sync { repo };
    Ok(Command::Does { action })
}

/// `wait MS`
pub fn wait(words: &mut Words<'_>) -> Result<Command, LineFault>
    ensures { (context : Context) → Gives (λ c. c) result ((row verbs.Wait).1 context words.old) }
{
    let milliseconds = number(u64::MAX, words)?;
    end(words)?;
    let action = Action::Wait { milliseconds };
    Ok(Command::Does { action })
}
