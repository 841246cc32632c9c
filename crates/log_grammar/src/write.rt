//! The writing of a line.

ghost use Rattle.std.specs.Prelude.{◌≡◌, ◌≤◌, [], ◌++◌, ◌∷◌, length, flat_map, IfOk, IfSome, IsTrue, OnOk, Some, ◌↔◌};
ghost use Rattle.annex_base.specs.StampText.{stamp_text};
ghost use Rattle.annex_base.specs.Lines.{space};
ghost use Rattle.log_grammar.specs.LineText.{IsLine, HasLine, level_letter, topic_text, value_text, is_groups, spaced_value, stamp_first, stamp_last, spaced_text, repo_line_text, group_line_text, number_line_text, line_text};

use crate::entry::{Entry, LogKind, Topic, Value};
use crate::read::read;
use crate::stamps::MARK;
use annex_base::{Level, Line, NoMemory, Stamp, Text, put_number};
use std::alloc::Global;

fn put_stamp(out: &mut Vec<u8>, stamp: Stamp) -> Result<(), NoMemory>
    ensures { OnOk result (out.new.items ≡ out.old.items ++ stamp_text stamp) }
{
    let text = stamp.print(*out.allocator())?;
    out.extend_from_slice(&text)?;
    Ok(())
}

fn put_stamp_first(out: &mut Vec<u8>, stamp: Option<Stamp>) -> Result<(), NoMemory>
    ensures { OnOk result (out.new.items ≡ out.old.items ++ stamp_first stamp) }
{
    match stamp {
        None => {}
        Some(stamp) => {
            put_stamp(out, stamp)?;
            out.push(b' ')?;
        }
    }
    Ok(())
}

fn put_stamp_last(out: &mut Vec<u8>, stamp: Option<Stamp>) -> Result<(), NoMemory>
    ensures { OnOk result (out.new.items ≡ out.old.items ++ stamp_last stamp) }
{
    match stamp {
        None => {}
        Some(stamp) => {
            out.push(b' ')?;
            out.extend_from_slice(MARK)?;
            put_stamp(out, stamp)?;
        }
    }
    Ok(())
}

fn put_topic(out: &mut Vec<u8>, topic: &Topic) -> Result<(), NoMemory>
    ensures { OnOk result (out.new.items ≡ out.old.items ++ topic_text topic.now) }
{
    match topic {
        Topic::Repo(id) => out.extend_from_slice(&id.print())?,
        Topic::Group(name) => out.extend_from_slice(name.bytes())?,
        Topic::Whole => {}
        Topic::Pattern(glob) => out.extend_from_slice(glob.bytes())?,
    }
    Ok(())
}

fn level_letter(level: Level) -> u8
    ensures { result ∷ [] ≡ level_letter level }
{
    match level {
        Level::Trusted => b'1',
        Level::Semitrusted => b'?',
        Level::Untrusted => b'0',
        Level::Dead => b'X',
    }
}

fn put_groups(out: &mut Vec<u8>, names: &[Text]) -> Result<(), NoMemory>
    ensures { OnOk result (out.new.items ≡ out.old.items ++ flat_map (λ g. space ∷ g) names.now) }
{
    for name in names {
        out.push(b' ')?;
        out.extend_from_slice(name.bytes())?;
    }
    Ok(())
}

fn put_value(out: &mut Vec<u8>, value: &Value) -> Result<(), NoMemory>
    ensures { OnOk result (out.new.items ≡ out.old.items ++ value_text value.now) }
{
    match value {
        Value::Gone => out.push(b'X')?,
        Value::Absent => out.push(b'0')?,
        Value::Present => out.push(b'1')?,
        Value::Level(level) => out.push(level_letter(*level))?,
        Value::Text(text) => out.extend_from_slice(text.bytes())?,
        Value::Groups(names) => put_groups(out, names.as_slice())?,
        Value::Number(number) => put_number(out, u64::from(*number))?,
    }
    Ok(())
}

fn is_groups(value: &Value) -> bool
    ensures { result ≡ is_groups value.now }
{
    matches!(value, Value::Groups(_))
}

fn put_spaced_value(out: &mut Vec<u8>, value: &Value) -> Result<(), NoMemory>
    ensures { OnOk result (out.new.items ≡ out.old.items ++ spaced_value value.now) }
{
    if is_groups(value) {
        put_value(out, value)?;
    } else {
        out.push(b' ')?;
        put_value(out, value)?;
    }
    Ok(())
}

// A stamp, a value and a topic, with a space between each two.
fn spaced_line(alloc: Global, entry: &Entry) -> Result<Vec<u8>, NoMemory>
    ensures { IfOk result (λ v. v.items ≡ spaced_text entry.now) }
{
    let mut out = Vec::new(alloc);
    put_stamp_first(&mut out, entry.stamp)?;
    put_value(&mut out, &entry.value)?;
    out.push(b' ')?;
    put_topic(&mut out, &entry.topic)?;
    Ok(out)
}

fn repo_line(alloc: Global, entry: &Entry) -> Result<Vec<u8>, NoMemory>
    ensures { IfOk result (λ v. v.items ≡ repo_line_text entry.now) }
{
    let mut out = Vec::new(alloc);
    put_topic(&mut out, &entry.topic)?;
    put_spaced_value(&mut out, &entry.value)?;
    put_stamp_last(&mut out, entry.stamp)?;
    Ok(out)
}

fn group_line(alloc: Global, entry: &Entry) -> Result<Vec<u8>, NoMemory>
    ensures { IfOk result (λ v. v.items ≡ group_line_text entry.now) }
{
    let mut out = Vec::new(alloc);
    put_stamp_first(&mut out, entry.stamp)?;
    put_topic(&mut out, &entry.topic)?;
    put_spaced_value(&mut out, &entry.value)?;
    Ok(out)
}

fn number_line(alloc: Global, entry: &Entry) -> Result<Vec<u8>, NoMemory>
    ensures { IfOk result (λ v. v.items ≡ number_line_text entry.now) }
{
    let mut out = Vec::new(alloc);
    put_stamp_first(&mut out, entry.stamp)?;
    put_value(&mut out, &entry.value)?;
    Ok(out)
}

fn line_bytes(alloc: Global, kind: LogKind, entry: &Entry) -> Result<Vec<u8>, NoMemory>
    ensures { IfOk result (λ v. v.items ≡ line_text kind entry.now) }
{
    match kind {
        LogKind::Location | LogKind::NumcopiesPath | LogKind::MincopiesPath => {
            spaced_line(alloc, entry)
        }
        LogKind::Trust | LogKind::Uuid | LogKind::Group | LogKind::Preferred | LogKind::Required =>
            repo_line(alloc, entry),
        LogKind::GroupPreferred => group_line(alloc, entry),
        LogKind::Numcopies | LogKind::Mincopies => number_line(alloc, entry),
    }
}

/// The line, without its newline, that a log file of this kind has for the entry; the stamp is written in full, and an
/// empty text keeps its space (git-annex internals: location log and the other log files). It is read as the entry
/// where some line of this kind has the entry, and the text is at most 8,192 bytes.
pub fn write_line(alloc: Global, kind: LogKind, entry: &Entry) -> Result<Line, NoMemory>
    ensures text { IfOk result (λ l. l ≡ line_text kind entry.now) }
    ensures again { HasLine kind entry.now → length (line_text kind entry.now) ≤ 8192 → IfOk result (λ l. IsLine kind l entry.now) }
{
    let bytes = line_bytes(alloc, kind, entry)?;
    Text::new(alloc, &bytes)
}

fn is_same(one: &Entry, other: &Entry) -> bool
    ensures { IsTrue result ↔ (one.now ≡ other.now) }
{
    *one == *other
}

fn reads_as(alloc: Global, kind: LogKind, line: &[u8], entry: &Entry) -> Result<bool, NoMemory>
    ensures { IfOk result (λ b. IsTrue b ↔ IsLine kind line.now entry.now) }
{
    match read(alloc, kind, line)? {
        Some(back) => Ok(is_same(&back, entry)),
        None => Ok(false),
    }
}

/// The line as `write_line` writes it; none where the entry has no line of this kind, or its line is too long.
pub fn try_write_line(alloc: Global, kind: LogKind, entry: &Entry) -> Result<Option<Line>, NoMemory>
    ensures text { IfOk result (λ o. IfSome o (λ l. l ≡ line_text kind entry.now)) }
    ensures again { IfOk result (λ o. IfSome o (λ l. IsLine kind l entry.now)) }
    ensures only { HasLine kind entry.now → length (line_text kind entry.now) ≤ 8192 → IfOk result (λ o. o ≡ Some (line_text kind entry.now)) }
{
    let bytes = line_bytes(alloc, kind, entry)?;
    let line = bytes.as_slice();
    if reads_as(alloc, kind, line, entry)? {
        Ok(Some(Text::new(alloc, line)?))
    } else {
        Ok(None)
    }
}
