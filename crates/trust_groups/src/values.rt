//! Values of entries, and what stands where none is set.

ghost use Rattle.std.specs.Prelude.{◌≡◌, ◌≤◌};
ghost use Rattle.std.specs.Option.{option_copied, option_map};
ghost use Rattle.log_lines.specs.Newest.{entry_at};
ghost use Rattle.log_lines.specs.declared.entry.Topic.TheVariants as topics;
ghost use Rattle.trust_groups.specs.Reads.{entries_or_none};
ghost use Rattle.trust_groups.specs.Settings.{value_in, level_in, text_in, groups_in, number_in};

use annex_base::{Level, Text};
use log_lines::{Newest, Statement, Topic, Value};

fn value_in(statement: Option<&Statement>) -> Option<&Value>
    ensures { option_copied result ≡ option_map (λ s. s.value) (option_copied statement.entry) }
{
    match statement {
        Some(statement) => Some(&statement.value),
        None => None,
    }
}

/// What the newest entry of the topic says, in the index of a log file that may be there.
pub(crate) fn value_of<'a>(index: Option<&'a Newest>, topic: &Topic) -> Option<&'a Value>
    ensures { option_copied result ≡ value_in (entry_at (entries_or_none (option_copied index.entry)) topic.now) }
{
    match index {
        Some(index) => value_in(index.entry(topic)),
        None => None,
    }
}

/// What the newest entry of the group says.
pub(crate) fn value_of_group<'a>(index: Option<&'a Newest>, group: &[u8]) -> Option<&'a Value>
    ensures { option_copied result ≡ value_in (entry_at (entries_or_none (option_copied index.entry)) (topics.Group group.now)) }
{
    match index {
        Some(index) => value_in(index.group(group)),
        None => None,
    }
}

/// The level of a repository of which the trust log says this.
pub(crate) fn level_in(value: Option<&Value>) -> Level
    ensures { result ≡ level_in (option_copied value.entry) }
{
    match value {
        Some(Value::Level(level)) => *level,
        _ => Level::Semitrusted,
    }
}

/// The text, empty where none is set.
pub(crate) fn text_in(value: Option<&Value>) -> &[u8]
    ensures { result.now ≡ text_in (option_copied value.entry) }
{
    match value {
        Some(Value::Text(text)) => text.bytes(),
        _ => &[],
    }
}

/// The groups, none where none are set.
pub(crate) fn groups_in(value: Option<&Value>) -> &[Text]
    ensures { result.now ≡ groups_in (option_copied value.entry) }
{
    match value {
        Some(Value::Groups(groups)) => groups.as_slice(),
        _ => &[],
    }
}

/// The number of copies, at least 1.
pub(crate) fn number_in(value: Option<&Value>) -> u32
    ensures value { result ≡ number_in (option_copied value.entry) }
    ensures some { 1 ≤ result }
{
    match value {
        Some(Value::Number(number)) => (*number).max(1),
        _ => 1,
    }
}
