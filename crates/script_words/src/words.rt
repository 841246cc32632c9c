//! A line that is cut into words, from left to right.
ghost use Rattle.std.specs.Prelude.{◌≡◌, ◌<◌, ◌≤◌, ◌+◌, ◌^◌, length};
ghost use Rattle.std.specs.List.{prefix_len};
ghost use Rattle.annex_base.specs.Lines.{is_space, is_not_space};
ghost use Rattle.script_words.specs.Words.{is_not_quote, closes, text_word, quoted_word, plain_word, word_from, next_word, rest_from, rest_word, behind, first_place, IsAhead};

use crate::utf8::is_text;
use std::marker::Model;

/// A word of a line: what it says without quotes, with its place in the line.
#[derive(Debug, Drop)]
pub struct LineWord<'a> {
    place: usize,
    text: &'a [u8],
    after: usize,
}

impl<'a> Model for LineWord<'a> {
    ghost use Rattle.script_words.specs.Places.{LineWord as Spec};

    ghost Value = { Spec };

    ghost view = { λ w. record { place = w.place; text = w.text.now; after = w.after } };
}

impl<'a> LineWord<'a> {
    /// The place in the line of the word's first byte, which is its quote where it has one; from 0.
    pub fn place(&self) -> usize
        ensures { result ≡ self.now.place }
    {
        self.place
    }

    /// What the word says, without its quotes.
    pub fn text(&self) -> &'a [u8]
        ensures { result.now ≡ self.now.text }
    {
        self.text
    }
}

/// What comes next in a line.
#[derive(Debug, Drop)]
pub enum NextWord<'a> {
    /// The line has no further word.
    NoWord,
    /// The word that begins at this place is wrong: it isn't UTF-8, or its quotes don't stand as they must. A rest is
    /// wrong too where no space stands before it.
    BadWord { at: usize },
    Word(LineWord<'a>),
}

/// A line that is read from left to right, word by word.
#[derive(Debug, Drop)]
pub struct Words<'a> {
    line: &'a [u8],
    place: usize,
}

impl<'a> Model for Words<'a> {
    ghost use Rattle.std.specs.Prelude.{◌≤◌, length};
    ghost use Rattle.script_words.specs.Places.{Cursor};

    ghost Value = { Cursor };

    ghost view = { λ w. record { line = w.line.now; place = w.place } };

    ghost invariant = { λ w. w.place ≤ length w.line.now };
}

impl<'a> Words<'a> {
    /// The whole line, of which nothing is read yet.
    pub fn new(line: &'a [u8]) -> Words<'a>
        ensures { result ≡ record { line = line.now; place = 0 } }
    {
        Words { line, place: 0 }
    }

    /// The whole line.
    pub fn line(&self) -> &'a [u8]
        ensures { result.now ≡ self.now.line }
    {
        self.line
    }

    /// The place of the line's first word, behind the spaces that it begins with; from 0.
    pub fn first_place(&self) -> usize
        ensures { result ≡ first_place self.now.line }
    {
        spaces_len(self.line)
    }

    /// How far the line is read: the place behind the last word, or the line's length.
    pub fn place(&self) -> usize
        ensures place { result ≡ self.now.place }
        ensures within { self.now.place ≤ length self.now.line }
    {
        self.place
    }

    /// The next word, without a step behind it.
    pub fn peek(&self) -> NextWord<'a>
        ensures found { result ≡ next_word self.now.line self.now.place }
        ensures ahead { IsAhead self.now result }
    {
        find_word(self.line, self.place)
    }

    /// The next word, behind the spaces that stand before it.
    pub fn next(&mut self) -> NextWord<'a>
        ensures found { result ≡ next_word self.old.line self.old.place }
        ensures cursor { self.new ≡ behind self.old result }
        ensures ahead { IsAhead self.old result }
    {
        let found = find_word(self.line, self.place);
        self.place = place_behind(self.line, self.place, &found);
        found
    }

    /// All that follows the one space behind the last word, as one word.
    pub fn rest(&mut self) -> NextWord<'a>
        ensures found { result ≡ rest_word self.old.line self.old.place }
        ensures cursor { self.new ≡ behind self.old result }
        ensures ahead { IsAhead self.old result }
    {
        let found = find_rest(self.line, self.place);
        self.place = place_behind(self.line, self.place, &found);
        found
    }
}

fn spaces_len(bytes: &[u8]) -> usize
    ensures { result ≡ prefix_len is_space bytes.now }
{
    bytes.iter().take_while(|b| **b == b' ').count()
}

fn plain_len(bytes: &[u8]) -> usize
    ensures { result ≡ prefix_len is_not_space bytes.now }
{
    bytes.iter().take_while(|b| **b != b' ').count()
}

fn quoted_len(bytes: &[u8]) -> usize
    ensures { result ≡ prefix_len is_not_quote bytes.now }
{
    bytes.iter().take_while(|b| **b != b'"').count()
}

/// Whether a quote stands first that closes a word.
fn closes_word(bytes: &[u8]) -> bool
    ensures { result ≡ closes bytes.now }
{
    match bytes {
        [] => false,
        [_] => true,
        [_, next, ..] => *next == b' ',
    }
}

fn word_at<'a>(place: usize, text: &'a [u8], after: usize) -> NextWord<'a>
    ensures { result ≡ text_word place text.now after }
{
    if is_text(text) {
        NextWord::Word(LineWord { place, text, after })
    } else {
        NextWord::BadWord { at: place }
    }
}

/// The word whose first quote stands at the place, before these bytes.
#[tactic(auto, unfolding(crate::specs::Words::quoted_word))]
fn quoted_at<'a>(place: usize, bytes: &'a [u8]) -> NextWord<'a>
    requires { place + length bytes.now + 1 < 2 ^ 64 }
    ensures { result ≡ quoted_word place bytes.now }
{
    let end = quoted_len(bytes);
    let (text, rest) = bytes.split_at(end);
    if !closes_word(rest) {
        return NextWord::BadWord { at: place };
    }
    word_at(place, text, place + end + 2)
}

/// The word without quotes that stands at the place, where these bytes begin.
#[tactic(auto, unfolding(crate::specs::Words::plain_word))]
fn plain_at<'a>(place: usize, bytes: &'a [u8]) -> NextWord<'a>
    requires { place + length bytes.now < 2 ^ 64 }
    ensures { result ≡ plain_word place bytes.now }
{
    let end = plain_len(bytes);
    let (text, _) = bytes.split_at(end);
    word_at(place, text, place + end)
}

#[tactic(auto, unfolding(crate::specs::Words::word_from))]
fn begin_word<'a>(place: usize, bytes: &'a [u8]) -> NextWord<'a>
    requires { place + length bytes.now < 2 ^ 64 }
    ensures { result ≡ word_from place bytes.now }
{
    match bytes.split_first() {
        None => NextWord::NoWord,
        Some((b'"', quoted)) => quoted_at(place, quoted),
        Some(_) => plain_at(place, bytes),
    }
}

#[tactic(auto, unfolding(crate::specs::Words::next_word))]
fn find_word<'a>(line: &'a [u8], place: usize) -> NextWord<'a>
    requires { place ≤ length line.now }
    ensures { result ≡ next_word line.now place }
{
    let (_, from_place) = line.split_at(place);
    let spaces = spaces_len(from_place);
    let (_, bytes) = from_place.split_at(spaces);
    begin_word(place + spaces, bytes)
}

#[tactic(auto, unfolding(crate::specs::Words::rest_word, crate::specs::Words::rest_from))]
fn find_rest<'a>(line: &'a [u8], place: usize) -> NextWord<'a>
    requires { place ≤ length line.now }
    ensures { result ≡ rest_word line.now place }
{
    let (_, from_place) = line.split_at(place);
    match from_place.split_first() {
        None => NextWord::NoWord,
        Some((b' ', rest)) => word_at(place + 1, rest, line.len()),
        Some(_) => NextWord::BadWord { at: place },
    }
}

fn place_behind(line: &[u8], place: usize, found: &NextWord) -> usize
    requires { place ≤ length line.now }
    ensures { result ≡ (behind (record { line = line.now; place = place }) found.now).place }
{
    match found {
        NextWord::NoWord => line.len(),
        NextWord::BadWord { .. } => place,
        NextWord::Word(word) => word.after,
    }
}
