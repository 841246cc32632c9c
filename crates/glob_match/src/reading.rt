//! Reading a glob from left to right.
ghost use Rattle.std.specs.Prelude.{◌≡◌, ◌<◌, ◌^◌, length, sum_by, IfOk};
ghost use Rattle.std.specs.Char.{len_utf8};
ghost use Rattle.std.specs.List.{position_or_len};
ghost use Rattle.std.specs.Option.{option_map};
ghost use Rattle.std.specs.Str.{chars, encode_utf8_all};
ghost use Rattle.glob_match.specs.Glob.{is_close};
ghost use Rattle.glob_match.specs.Walk.{as_set, set_at, item_at, Reads, Tells};

use crate::fault::GlobFault;
use crate::item::{CharSet, Item};
use std::alloc::{AllocError, Global};

fn set_len(pattern: &[char]) -> usize
    ensures { result ≡ position_or_len is_close pattern.now }
{
    pattern.iter().take_while(|c| **c != ']').count()
}

// The characters of a set, and what follows its `]`.
fn set_parts(pattern: &[char]) -> Option<(&[char], &[char])>
    ensures { option_map (λ x. (x.0.now, x.1.now)) result ≡ set_at pattern.now }
{
    let end = set_len(pattern);
    let (members, closed) = pattern.split_at(end);
    let (_, rest) = closed.split_first()?;
    Some((members, rest))
}

fn read_set(alloc: Global, pattern: &[char]) -> Result<Option<(Item, &[char])>, AllocError>
    ensures { IfOk result (λ o. option_map (λ x. (x.0, x.1.now)) o ≡ option_map as_set (set_at pattern.now)) }
{
    let Some((members, rest)) = set_parts(pattern) else {
        return Ok(None);
    };
    let set = CharSet::new(Vec::from_slice(alloc, members)?);
    Ok(Some((Item::OneOf(set), rest)))
}

// The item that begins with this character, and what follows it, unless a set is open.
fn read_item(
    alloc: Global,
    first: char,
    after: &[char],
) -> Result<Option<(Item, &[char])>, AllocError>
    ensures { IfOk result (λ o. option_map (λ x. (x.0, x.1.now)) o ≡ item_at first after.now) }
{
    match first {
        '*' => Ok(Some((Item::AnyRun, after))),
        '?' => Ok(Some((Item::AnyOne, after))),
        '[' => read_set(alloc, after),
        only => Ok(Some((Item::Only(only), after))),
    }
}

// The items up to the end, or to an open set.
fn read_items(alloc: Global, pattern: &[char]) -> Result<(Vec<Item>, &[char]), AllocError>
    ensures { IfOk result (λ x. Reads x.0.items x.1.now pattern.now) }
{
    let mut items = Vec::new(alloc);
    let mut rest = pattern;
    while let Some((first, after)) = rest.split_first() {
        let Some((item, next)) = read_item(alloc, *first, after)? else {
            return Ok((items, rest));
        };
        items.push(item)?;
        rest = next;
    }
    Ok((items, rest))
}

fn byte_len(part: &[char]) -> usize
    requires { sum_by len_utf8 part.now < 2 ^ 64 }
    ensures { result ≡ sum_by len_utf8 part.now }
{
    part.iter().map(|c| c.len_utf8()).sum()
}

fn read_pattern(alloc: Global, pattern: &[char], total: usize) -> Result<Vec<Item>, GlobFault>
    requires { length (encode_utf8_all pattern.now) ≡ total }
    ensures { Tells (λ v. v.items) result pattern.now }
{
    let (items, rest) = read_items(alloc, pattern)?;
    if rest.is_empty() {
        return Ok(items);
    }
    Err(GlobFault::OpenSet {
        at: total - byte_len(rest),
    })
}

fn chars_of(alloc: Global, text: &str) -> Result<Vec<char>, AllocError>
    ensures { IfOk result (λ v. v.items ≡ chars text.now) }
{
    text.chars().collect(alloc)
}

/// The items of the whole text.
pub(crate) fn read(alloc: Global, text: &str) -> Result<Vec<Item>, GlobFault>
    ensures { Tells (λ v. v.items) result (chars text.now) }
{
    let pattern = chars_of(alloc, text)?;
    read_pattern(alloc, &pattern, text.len())
}
