//! The walk over the items and a text: each part between two runs is taken at the first place where it fits.
ghost use Rattle.std.specs.Prelude.{◌≡◌, List, ℕ};
ghost use Rattle.std.specs.Option.{option_map};
ghost use Rattle.std.specs.Str.{chars};
ghost use Rattle.glob_match.specs.Glob.{glob_matches};
ghost use Rattle.glob_match.specs.Walk.{char_at, segment_at, find_at};

use crate::item::Item;

// The first character, and what follows it.
fn split_char(text: &str) -> Option<(char, &str)>
    ensures { option_map (λ x. (x.0, chars x.1.now)) result ≡ char_at (chars text.now) }
{
    let mut rest = text.chars();
    let first = rest.next()?;
    Some((first, rest.as_str()))
}

// What is left after the items up to the next run have taken a character each.
fn segment<'a, 'b>(items: &'a [Item], text: &'b str) -> Option<(&'a [Item], &'b str)>
    ensures { option_map (λ x. (x.0.now, chars x.1.now)) result ≡ segment_at items.now (chars text.now) }
{
    let mut items = items;
    let mut text = text;
    while let Some((item, after)) = items.split_first() {
        if item.is_run() {
            return Some((items, text));
        }
        let (first, rest) = split_char(text)?;
        if !item.takes(first) {
            return None;
        }
        items = after;
        text = rest;
    }
    match split_char(text) {
        None => Some((items, text)),
        Some(_) => None,
    }
}

// The same at the first place from here on where it goes.
fn find_segment<'a, 'b>(items: &'a [Item], text: &'b str) -> Option<(&'a [Item], &'b str)>
    ensures { option_map (λ x. (x.0.now, chars x.1.now)) result ≡ find_at items.now (chars text.now) }
{
    let mut text = text;
    loop {
        if let Some(found) = segment(items, text) {
            return Some(found);
        }
        let (_, rest) = split_char(text)?;
        text = rest;
    }
}

/// Whether the items match the text.
pub(crate) fn items_match(items: &[Item], text: &str) -> bool
    ensures { result ≡ glob_matches items.now (chars text.now) }
{
    let Some((mut items, mut text)) = segment(items, text) else {
        return false;
    };
    while let Some((_, after)) = items.split_first() {
        let Some((next, rest)) = find_segment(after, text) else {
            return false;
        };
        items = next;
        text = rest;
    }
    true
}
