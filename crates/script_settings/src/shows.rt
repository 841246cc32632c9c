//! The lines that show something.
ghost use Rattle.std.specs.Prelude.{◌≡◌};
ghost use Rattle.script_forms.specs.Answers.{Gives, Reads};
ghost use Rattle.script_forms.specs.Context.{Context};
ghost use Rattle.script_forms.specs.Forms.{row, show_row, show_at};
ghost use Rattle.script_forms.specs.declared.verb.Verb.TheVariants as verbs;
ghost use Rattle.script_forms.specs.declared.verb.Show.TheVariants as shows;

use script_commands::{Command, Showing};
use script_forms::{Context, LineFault, Show};
use script_steps::{end, file, key, maybe_path, next_word, repo, tree_path, wrong_word};
use script_words::Words;
use std::alloc::Global;

/// `show presence KEY`
fn show_presence(
    alloc: Global,
    context: &Context,
    words: &mut Words<'_>,
) -> Result<Showing, LineFault>
    ensures { Gives (λ c. c) result ((show_row shows.Presence).1 context.now words.old) }
{
    let key = key(alloc, context, words)?;
    end(words)?;
    Ok(Showing::Presence { key })
}

/// `show claims REPO KEY`
fn show_claims(
    alloc: Global,
    context: &Context,
    words: &mut Words<'_>,
) -> Result<Showing, LineFault>
    ensures { Gives (λ c. c) result ((show_row shows.Claims).1 context.now words.old) }
{
    let repo = repo(context, words)?;
    let key = key(alloc, context, words)?;
    end(words)?;
    Ok(Showing::Claims { repo, key })
}

/// `show location REPO KEY`
fn show_location(
    alloc: Global,
    context: &Context,
    words: &mut Words<'_>,
) -> Result<Showing, LineFault>
    ensures { Gives (λ c. c) result ((show_row shows.Location).1 context.now words.old) }
{
    let repo = repo(context, words)?;
    let key = key(alloc, context, words)?;
    end(words)?;
    Ok(Showing::Location { repo, key })
}

/// `show row REPO KEY`
fn show_row(alloc: Global, context: &Context, words: &mut Words<'_>) -> Result<Showing, LineFault>
    ensures { Gives (λ c. c) result ((show_row shows.Row).1 context.now words.old) }
{
    let repo = repo(context, words)?;
    let key = key(alloc, context, words)?;
    end(words)?;
    Ok(Showing::Row { repo, key })
}

/// `show log REPO FILE`
fn show_log(context: &Context, words: &mut Words<'_>) -> Result<Showing, LineFault>
    ensures { Gives (λ c. c) result ((show_row shows.Log).1 context.now words.old) }
{
    let repo = repo(context, words)?;
    let file = file(words)?;
    end(words)?;
    Ok(Showing::Log { repo, file })
}

/// `show numbers REPO [PATH]`
fn show_numbers(
    alloc: Global,
    context: &Context,
    words: &mut Words<'_>,
) -> Result<Showing, LineFault>
    ensures { Gives (λ c. c) result ((show_row shows.Numbers).1 context.now words.old) }
{
    let repo = repo(context, words)?;
    let path = maybe_path(alloc, words)?;
    end(words)?;
    Ok(Showing::Numbers { repo, path })
}

/// `show level REPO TARGET`
fn show_level(context: &Context, words: &mut Words<'_>) -> Result<Showing, LineFault>
    ensures { Gives (λ c. c) result ((show_row shows.Level).1 context.now words.old) }
{
    let first = repo(context, words)?;
    let target = repo(context, words)?;
    end(words)?;
    Ok(Showing::Level {
        repo: first,
        target,
    })
}

/// `show wants REPO TARGET PATH`
fn show_wants(alloc: Global, context: &Context, words: &mut Words<'_>) -> Result<Showing, LineFault>
    ensures { Gives (λ c. c) result ((show_row shows.Wants).1 context.now words.old) }
{
    let first = repo(context, words)?;
    let target = repo(context, words)?;
    let path = tree_path(alloc, context, words)?;
    end(words)?;
    Ok(Showing::Wants {
        repo: first,
        target,
        path,
    })
}

/// `show logs REPO`
fn show_logs(context: &Context, words: &mut Words<'_>) -> Result<Showing, LineFault>
    ensures { Gives (λ c. c) result ((show_row shows.Logs).1 context.now words.old) }
{
    let repo = repo(context, words)?;
    end(words)?;
    Ok(Showing::Logs { repo })
}

/// `show plan REPO`
fn show_plan(context: &Context, words: &mut Words<'_>) -> Result<Showing, LineFault>
    ensures { Gives (λ c. c) result ((show_row shows.Plan).1 context.now words.old) }
{
    let repo = repo(context, words)?;
    end(words)?;
    Ok(Showing::Plan { repo })
}

/// `show totals`
fn show_totals(words: &mut Words<'_>) -> Result<Showing, LineFault>
    ensures { (context : Context) → Gives (λ c. c) result ((show_row shows.Totals).1 context words.old) }
{
    end(words)?;
    Ok(Showing::Totals)
}

/// `show journal`
fn show_journal(words: &mut Words<'_>) -> Result<Showing, LineFault>
    ensures { (context : Context) → Gives (λ c. c) result ((show_row shows.Journal).1 context words.old) }
{
    end(words)?;
    Ok(Showing::Journal)
}

fn read_show(
    show: Show,
    alloc: Global,
    context: &Context,
    words: &mut Words<'_>,
) -> Result<Showing, LineFault>
    ensures { Gives (λ c. c) result ((show_row show).1 context.now words.old) }
{
    match show {
        Show::Presence => show_presence(alloc, context, words),
        Show::Claims => show_claims(alloc, context, words),
        Show::Location => show_location(alloc, context, words),
        Show::Log => show_log(context, words),
        Show::Logs => show_logs(context, words),
        Show::Numbers => show_numbers(alloc, context, words),
        Show::Level => show_level(context, words),
        Show::Wants => show_wants(alloc, context, words),
        Show::Row => show_row(alloc, context, words),
        Show::Plan => show_plan(context, words),
        Show::Totals => show_totals(words),
        Show::Journal => show_journal(words),
    }
}

/// What is shown.
fn shown(words: &mut Words<'_>) -> Result<Show, LineFault>
    ensures { Reads (λ s. s) result words.new (show_at words.old) }
{
    let word = next_word(words)?;
    match Show::named(word.text()) {
        Some(show) => Ok(show),
        None => Err(wrong_word(&word)),
    }
}

/// `show ..`
pub fn show(alloc: Global, context: &Context, words: &mut Words<'_>) -> Result<Command, LineFault>
    ensures { Gives (λ c. c) result ((row verbs.Show).1 context.now words.old) }
{
    let show = shown(words)?;
    let what = read_show(show, alloc, context, words)?;
    Ok(Command::Shows { what })
}
