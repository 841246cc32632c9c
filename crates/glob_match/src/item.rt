//! The items of a glob, and the characters that they take.
ghost use Rattle.std.specs.Prelude.{◌≡◌};
ghost use Rattle.std.specs.Option.{option_map};
ghost use Rattle.glob_match.specs.Glob.{in_ranges, in_set, is_run, takes};
ghost use Rattle.glob_match.specs.Walk.{range_at};

use std::marker::Model;

/// The characters between `[` and `]`, which contracts see as a list: a leading `!` takes the contrary of what follows
/// it, and a `-` between two characters makes a range by character number (own).
#[derive(Debug, Drop)]
pub struct CharSet {
    members: Vec<char>,
}

impl Model for CharSet {
    ghost use Rattle.std.specs.Prelude.{List, ℕ};

    ghost Value = { List ℕ };

    ghost view = { λ s. s.members.items };
}

/// What a part of a text must fit (own).
#[derive(Debug, Drop)]
pub enum Item {
    /// `*`: any characters, `/` included, or none.
    AnyRun,
    /// `?`: one character.
    AnyOne,
    /// `[..]`: one character of the set.
    OneOf(CharSet),
    /// The character itself.
    Only(char),
}

impl CharSet {
    pub(crate) fn new(members: Vec<char>) -> CharSet
        ensures { result ≡ members.items }
    {
        CharSet { members }
    }

    fn contains(&self, c: char) -> bool
        ensures { result ≡ in_set self.now c }
    {
        is_in_set(&self.members, c)
    }
}

fn is_in_set(members: &[char], c: char) -> bool
    ensures { result ≡ in_set members.now c }
{
    match members.split_first() {
        Some((first, rest)) if *first == '!' => !is_in_ranges(rest, c),
        _ => is_in_ranges(members, c),
    }
}

fn is_in_ranges(members: &[char], c: char) -> bool
    ensures { result ≡ in_ranges members.now c }
{
    let mut rest = members;
    while let Some((first, last, after)) = next_range(rest) {
        if first <= c && c <= last {
            return true;
        }
        rest = after;
    }
    false
}

// The ends of the first range, and what follows it.
fn next_range(members: &[char]) -> Option<(char, char, &[char])>
    ensures { option_map (λ x. (x.0, x.1, x.2.now)) result ≡ range_at members.now }
{
    let (first, after) = members.split_first()?;
    match after {
        [dash, last, ..] if *dash == '-' => {
            let (_, rest) = after.split_at(2);
            Some((*first, *last, rest))
        }
        _ => Some((*first, *first, after)),
    }
}

impl Item {
    pub(crate) fn is_run(&self) -> bool
        ensures { result ≡ is_run self.now }
    {
        match self {
            Item::AnyRun => true,
            Item::AnyOne | Item::OneOf(_) | Item::Only(_) => false,
        }
    }

    /// Whether an item of one character takes this one.
    pub(crate) fn takes(&self, c: char) -> bool
        ensures { result ≡ takes self.now c }
    {
        match self {
            Item::AnyRun => false,
            Item::AnyOne => true,
            Item::OneOf(set) => set.contains(c),
            Item::Only(only) => *only == c,
        }
    }
}
