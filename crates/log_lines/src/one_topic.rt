//! The newest entry of one topic, without an index.

ghost use Rattle.std.specs.Prelude.{◌≡◌, IfOk};
ghost use Rattle.std.specs.Ordering.{is_lt};
ghost use Rattle.log_lines.specs.Newest.{entry_cmp, newer, newest_of};
ghost use Rattle.log_lines.specs.Latest.{said_of, newer_of};

use crate::compare::compare_values;
use crate::entry::{Entry, LogKind, Topic};
use annex_base::{Line, NoMemory};
use log_grammar::read_line;
use std::alloc::Global;

fn is_older(one: &Entry, other: &Entry) -> bool
    ensures { result ≡ is_lt (entry_cmp one.now other.now) }
{
    one.stamp
        .cmp(&other.stamp)
        .then_with(|| compare_values(&one.value, &other.value))
        .is_lt()
}

/// The entry, if it speaks of the topic.
fn said_of(topic: &Topic, entry: Option<Entry>) -> Option<Entry>
    ensures { result ≡ said_of topic.now entry }
{
    let entry = entry?;
    if entry.topic == *topic {
        Some(entry)
    } else {
        None
    }
}

fn newer(known: Entry, said: Entry) -> Entry
    ensures { result ≡ newer known said }
{
    if is_older(&known, &said) { said } else { known }
}

/// The newer of the two, where there are two.
fn newer_of(known: Option<Entry>, said: Option<Entry>) -> Option<Entry>
    ensures { result ≡ newer_of known said }
{
    match (known, said) {
        (Some(known), Some(said)) => Some(newer(known, said)),
        (known, None) => known,
        (None, said) => said,
    }
}

/// The newest entry of the topic, and none where no line speaks of it; it reads as `newest` does (git-annex internals:
/// branch files).
pub fn newest_of(
    alloc: Global,
    kind: LogKind,
    lines: &[Line],
    topic: &Topic,
) -> Result<Option<Entry>, NoMemory>
    ensures { IfOk result (λ o. o ≡ newest_of kind lines.now topic.now) }
{
    let mut known = None;
    for line in lines {
        let entry = read_line(alloc, kind, line.bytes())?;
        known = newer_of(known, said_of(topic, entry));
    }
    Ok(known)
}
