//! The lines that declare repositories and set what their branches say.
ghost use Rattle.std.specs.Prelude.{◌≡◌};
ghost use Rattle.script_forms.specs.Answers.{Gives};
ghost use Rattle.script_forms.specs.Forms as spec;
ghost use Rattle.script_forms.specs.Forms.{row};
ghost use Rattle.script_forms.specs.declared.verb.Verb.TheVariants as verbs;

use log_lines::{LogKind, Topic, Value};
use script_commands::{Action, Command};
use script_forms::{Context, LineFault};
use script_steps::{
    end, full_rest, glob, group, groups, level, locks, log_file, new_id, new_name, number, offset,
    repo, rest, short, target, text, version, wrong_form,
};
use script_words::Words;
use std::alloc::Global;

/// The greatest number of copies.
const GREATEST_NUMBER: u64 = 999_999_999;

/// `repo NAME UUID [offset=MS] [version=V] [nolock]`
pub fn declare(
    alloc: Global,
    context: &Context,
    words: &mut Words<'_>,
) -> Result<Command, LineFault>
    ensures { Gives (λ c. c) result ((row verbs.Repo).1 context.now words.old) }
{
    if context.closed {
        return Err(wrong_form(words));
    }
    let name = new_name(alloc, context, words)?;
    let id = new_id(context, words)?;
    let offset = offset(words);
    let version = version(words);
    let locks = locks(words);
    end(words)?;
    Ok(Command::Repo {
        name,
        id,
        offset,
        version,
        locks,
    })
}

/// The line that sets the topic in a log of the repository.
fn sets(repo: u32, kind: LogKind, topic: Topic, value: Value) -> Command
    ensures { result ≡ spec.sets repo kind topic value }
{
    let action = Action::Set {
        repo,
        kind,
        topic,
        value,
    };
    Command::Does { action }
}

/// `numcopies REPO N` or `mincopies REPO N`, by the kind of log
pub fn number_setting(
    kind: LogKind,
    context: &Context,
    words: &mut Words<'_>,
) -> Result<Command, LineFault>
    ensures { Gives (λ c. c) result (spec.number_setting kind context.now words.old) }
{
    let repo = repo(context, words)?;
    let number = number(GREATEST_NUMBER, words)?;
    end(words)?;
    Ok(sets(repo, kind, Topic::Whole, Value::Number(number as u32)))
}

/// `numcopiesfor REPO N REST` or `mincopiesfor REPO N REST`, by the kind of log
pub fn number_by_path(
    kind: LogKind,
    alloc: Global,
    context: &Context,
    words: &mut Words<'_>,
) -> Result<Command, LineFault>
    ensures { Gives (λ c. c) result (spec.number_by_path kind context.now words.old) }
{
    let repo = repo(context, words)?;
    let number = number(GREATEST_NUMBER, words)?;
    let glob = glob(alloc, words)?;
    Ok(sets(
        repo,
        kind,
        Topic::Pattern(glob),
        Value::Number(number as u32),
    ))
}

/// `describe REPO TARGET REST`, `wanted REPO TARGET REST` or `required REPO TARGET REST`, by the kind of log
pub fn text_setting(
    kind: LogKind,
    alloc: Global,
    context: &Context,
    words: &mut Words<'_>,
) -> Result<Command, LineFault>
    ensures { Gives (λ c. c) result (spec.text_setting kind context.now words.old) }
{
    let repo = repo(context, words)?;
    let target = target(context, words)?;
    let text = text(alloc, words)?;
    Ok(sets(repo, kind, target, Value::Text(text)))
}

/// `trust REPO TARGET LEVEL`
pub fn trust(context: &Context, words: &mut Words<'_>) -> Result<Command, LineFault>
    ensures { Gives (λ c. c) result ((row verbs.Trust).1 context.now words.old) }
{
    let repo = repo(context, words)?;
    let target = target(context, words)?;
    let level = level(words)?;
    end(words)?;
    Ok(sets(repo, LogKind::Trust, target, Value::Level(level)))
}

/// `group REPO TARGET [GROUP ..]`
pub fn set_groups(
    alloc: Global,
    context: &Context,
    words: &mut Words<'_>,
) -> Result<Command, LineFault>
    ensures { Gives (λ c. c) result ((row verbs.Group).1 context.now words.old) }
{
    let repo = repo(context, words)?;
    let target = target(context, words)?;
    let groups = groups(alloc, words)?;
    Ok(sets(repo, LogKind::Group, target, Value::Groups(groups)))
}

/// `groupwanted REPO GROUP REST`
pub fn group_wanted(
    alloc: Global,
    context: &Context,
    words: &mut Words<'_>,
) -> Result<Command, LineFault>
    ensures { Gives (λ c. c) result ((row verbs.GroupWanted).1 context.now words.old) }
{
    let repo = repo(context, words)?;
    short(words)?;
    let group = group(alloc, words)?;
    let text = rest(alloc, words)?;
    Ok(sets(
        repo,
        LogKind::GroupPreferred,
        Topic::Group(group),
        Value::Text(text),
    ))
}

/// `log REPO location KEY REST` or `log REPO FILE REST`
pub fn raw_log(
    alloc: Global,
    context: &Context,
    words: &mut Words<'_>,
) -> Result<Command, LineFault>
    ensures { Gives (λ c. c) result ((row verbs.Log).1 context.now words.old) }
{
    let repo = repo(context, words)?;
    let file = log_file(alloc, context, words)?;
    let line = full_rest(alloc, words)?;
    let action = Action::Raw { repo, file, line };
    Ok(Command::Does { action })
}
