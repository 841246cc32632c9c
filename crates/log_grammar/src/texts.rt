//! Lines with a text: descriptions and content expressions.

ghost use Rattle.std.specs.Prelude.{◌≡◌, length, IfOk};
ghost use Rattle.std.specs.Option.{option_map};
ghost use Rattle.log_grammar.specs.LineText.{is_group};
ghost use Rattle.log_grammar.specs.Reading.{text_body, text_of, group_front, group_text_of};

use crate::entry::{Entry, Topic, Value};
use crate::groups::is_group;
use crate::repo::split_repo_line;
use crate::stamps::split_stamp_front;
use crate::words::first_len;
use annex_base::{NoMemory, Text};
use std::alloc::Global;

fn text_body(body: &[u8]) -> Option<&[u8]>
    ensures { option_map (λ x. x.now) result ≡ text_body body.now }
{
    match body.split_first() {
        None => Some(body),
        Some((first, text)) => { if *first == b' ' { Some(text) } else { None } }
    }
}

/// Reads `UUID TEXT timestamp=STAMP`.
#[tactic(auto, unfolding(crate::specs::Reading::text_of))]
pub(crate) fn read_text(alloc: Global, line: &[u8]) -> Result<Option<Entry>, NoMemory>
    ensures { IfOk result (λ o. o ≡ text_of line.now) }
{
    let Some((id, body, stamp)) = split_repo_line(line) else {
        return Ok(None);
    };
    let Some(text) = text_body(body) else {
        return Ok(None);
    };
    let text = Text::new(alloc, text)?;
    Ok(Some(Entry {
        topic: Topic::Repo(id),
        stamp,
        value: Value::Text(text),
    }))
}

#[tactic(auto, unfolding(crate::specs::Reading::group_front))]
fn split_group(bytes: &[u8]) -> Option<(&[u8], &[u8])>
    ensures { option_map (λ x. (x.0.now, x.1.now)) result ≡ group_front bytes.now }
{
    let end = first_len(bytes);
    let (name, rest) = bytes.split_at(end);
    if is_group(name) {
        Some((name, rest))
    } else {
        None
    }
}

/// Reads `STAMP GROUP TEXT`.
#[tactic(auto, unfolding(crate::specs::Reading::group_text_of))]
pub(crate) fn read_group_text(alloc: Global, line: &[u8]) -> Result<Option<Entry>, NoMemory>
    ensures { IfOk result (λ o. o ≡ group_text_of line.now) }
{
    let Some((stamp, rest)) = split_stamp_front(line) else {
        return Ok(None);
    };
    let Some((name, body)) = split_group(rest) else {
        return Ok(None);
    };
    let Some(text) = text_body(body) else {
        return Ok(None);
    };
    let name = Text::new(alloc, name)?;
    let text = Text::new(alloc, text)?;
    Ok(Some(Entry {
        topic: Topic::Group(name),
        stamp: Some(stamp),
        value: Value::Text(text),
    }))
}
