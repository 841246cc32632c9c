//! The command that a line says, by its form.
ghost use Rattle.std.specs.Prelude.{◌≡◌};
ghost use Rattle.script_forms.specs.Answers.{Gives};
ghost use Rattle.script_forms.specs.Forms.{row};

use log_lines::LogKind;
use script_commands::Command;
use script_forms::{Context, LineFault, Verb};
use script_jobs::{
    add, begin, compact, damage, file, have, merge, part, read_alone, settle, sync, turn, wait,
};
use script_settings::{
    declare, group_wanted, number_by_path, number_setting, raw_log, set_groups, show, text_setting,
    trust,
};
use script_words::Words;
use std::alloc::Global;

/// The command that the words behind the verb say.
pub fn read_command(
    verb: Verb,
    alloc: Global,
    context: &Context,
    words: &mut Words<'_>,
) -> Result<Command, LineFault>
    ensures { Gives (λ c. c) result ((row verb).1 context.now words.old) }
{
    match verb {
        Verb::Repo => declare(alloc, context, words),
        Verb::Numcopies => number_setting(LogKind::Numcopies, context, words),
        Verb::Mincopies => number_setting(LogKind::Mincopies, context, words),
        Verb::NumcopiesFor => number_by_path(LogKind::NumcopiesPath, alloc, context, words),
        Verb::MincopiesFor => number_by_path(LogKind::MincopiesPath, alloc, context, words),
        Verb::Trust => trust(context, words),
        Verb::Describe => text_setting(LogKind::Uuid, alloc, context, words),
        Verb::Wanted => text_setting(LogKind::Preferred, alloc, context, words),
        Verb::Required => text_setting(LogKind::Required, alloc, context, words),
        Verb::Group => set_groups(alloc, context, words),
        Verb::GroupWanted => group_wanted(alloc, context, words),
        Verb::Log => raw_log(alloc, context, words),
        Verb::Have => have(alloc, context, words),
        Verb::Part => part(alloc, context, words),
        Verb::Damage => damage(alloc, context, words),
        Verb::Add => add(alloc, context, words),
        Verb::File => file(alloc, context, words),
        Verb::InBlock(verb) => read_alone(verb, alloc, context, words),
        Verb::Begin => begin(alloc, context, words),
        Verb::Turn => turn(context, words),
        Verb::Settle => settle(words),
        Verb::Merge => merge(context, words),
        Verb::Compact => compact(context, words),
        Verb::Sync => sync(context, words),
        Verb::Wait => wait(words),
        Verb::Show => show(alloc, context, words),
    }
}
