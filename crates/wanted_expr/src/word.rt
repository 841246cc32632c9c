//! A word of an expression and its value.
ghost use Rattle.std.specs.Prelude.{◌≡◌, ◌<◌, ◌↔◌, ◌^◌, ◌++◌, IsTrue, bytes_eq, List, ℕ, MatchOption, length, not, ◌==◌, ◌||◌, codes};
ghost use Rattle.std.specs.Char.{is_ascii_digit};
ghost use Rattle.std.specs.List.{list_all, prefix_len};
ghost use Rattle.std.specs.Str.Parse.{digits_value};
ghost use Rattle.annex_base.specs.Finding.{Found};
ghost use Rattle.wanted_expr.specs.Finding.{FindsValue, FindsNamed, Ends, IsLastColon};
ghost use Rattle.wanted_expr.specs.Words.{IsDigits, IsCount, IsSize, IsLevel, IsLevelOrMore, IsAmong, IsCopies, IsText, IsGlobText, IsBare, IsValued, IsWord, is_bare_name, is_valued_name, name_of, has_name};

use crate::data::{Among, Word};
use annex_base::{Level, NoMemory, Text};
use glob_match::{Glob, GlobFault};
use std::alloc::Global;

/// Why a word isn't one of the language.
#[derive(Clone, Copy, Debug, PartialEq, Eq)]
pub(crate) enum WordFault {
    Unknown,
    Value,
    NoMemory,
}

impl From<NoMemory> for WordFault {
    ghost use Rattle.std.specs.Prelude.{◌≡◌};
    ghost use Rattle.wanted_expr.specs.declared.word.WordFault.TheVariants as faults;

    ghost from_gives = { λ _ e. e ≡ faults.NoMemory };

    fn from(_e: NoMemory) -> WordFault {
        WordFault::NoMemory
    }
}

// A test for an `if` in place of an arm: the arms of a `match` on texts are proved byte by byte.
pub(crate) fn same(word: &[u8], other: &[u8]) -> bool
    ensures { result ≡ bytes_eq word.now other.now }
{
    word == other
}

fn all_digits(word: &[u8]) -> bool
    ensures { result ≡ list_all is_ascii_digit word.now }
{
    word.iter().all(|b| b.is_ascii_digit())
}

fn is_digits(word: &[u8]) -> bool
    ensures { IsTrue result ↔ IsDigits word.now }
{
    !word.is_empty() && all_digits(word)
}

fn number(digits: &[u8]) -> Option<u64>
    ensures { Found (λ x. x) (λ n. IsDigits digits.now × (n ≡ digits_value 10 digits.now) × (n < 2 ^ 64)) result }
{
    if !is_digits(digits) {
        return None;
    }
    let Ok(text) = str::from_utf8(digits) else {
        return None;
    };
    text.parse::<u64>().ok()
}

// 1 to 9 digits.
fn count(digits: &[u8]) -> Option<u32>
    ensures { Found (λ x. x) (IsCount digits.now) result }
{
    if digits.len() > 9 {
        return None;
    }
    match number(digits) {
        None => None,
        Some(n) => u32::try_from(n).ok(),
    }
}

// The text before this end.
fn without_end<'a>(text: &'a [u8], end: &[u8]) -> Option<&'a [u8]>
    ensures { MatchOption result ((front : List ℕ) → text.now ≡ front ++ end.now → ⊥) (λ x. text.now ≡ x.now ++ end.now) }
{
    text.strip_suffix(end)
}

fn unit_of(value: &[u8]) -> (&[u8], u64)
    ensures { Ends value.now result.0.now result.1 }
{
    if let Some(digits) = without_end(value, b"kb") {
        return (digits, 1_000);
    }
    if let Some(digits) = without_end(value, b"mb") {
        return (digits, 1_000_000);
    }
    if let Some(digits) = without_end(value, b"gb") {
        return (digits, 1_000_000_000);
    }
    (value, 1)
}

fn size(value: &[u8]) -> Option<u64>
    ensures { Found (λ x. x) (IsSize value.now) result }
{
    let (digits, unit) = unit_of(value);
    match number(digits) {
        None => None,
        Some(n) => n.checked_mul(unit),
    }
}

fn level(name: &[u8]) -> Option<Level>
    ensures { Found (λ x. x) (IsLevel name.now) result }
{
    if same(name, b"untrusted") {
        return Some(Level::Untrusted);
    }
    if same(name, b"semitrusted") {
        return Some(Level::Semitrusted);
    }
    if same(name, b"trusted") {
        return Some(Level::Trusted);
    }
    None
}

fn level_or_more(name: &[u8]) -> Option<Level>
    ensures { Found (λ x. x) (IsLevelOrMore name.now) result }
{
    match without_end(name, b"+") {
        None => None,
        Some(front) => level(front),
    }
}

fn text(alloc: Global, value: &[u8]) -> Result<Text, WordFault>
    ensures { FindsValue (IsText value.now) result }
{
    if value.is_empty() {
        return Err(WordFault::Value);
    }
    Ok(Text::new(alloc, value)?)
}

fn among(alloc: Global, kind: &[u8]) -> Result<Among, WordFault>
    ensures { FindsValue (IsAmong kind.now) result }
{
    if let Some(level) = level(kind) {
        return Ok(Among::OfLevel(level));
    }
    if let Some(level) = level_or_more(kind) {
        return Ok(Among::OfLevelOrMore(level));
    }
    match text(alloc, kind) {
        Ok(group) => Ok(Among::InGroup(group)),
        Err(fault) => Err(fault),
    }
}

fn last_colon(value: &[u8]) -> Option<usize>
    ensures { IsLastColon value.now (length value.now) result }
{
    let mut last = None;
    for (i, b) in value.iter().enumerate() {
        if *b == b':' {
            last = Some(i);
        }
    }
    last
}

fn kind_and_count(alloc: Global, kind: &[u8], digits: &[u8]) -> Result<(Among, u32), WordFault>
    ensures { FindsValue (λ x. IsAmong kind.now x.0 × IsCount digits.now x.1) result }
{
    match (among(alloc, kind), count(digits)) {
        (Ok(kind), Some(least)) => Ok((kind, least)),
        (Ok(_), None) => Err(WordFault::Value),
        (Err(fault), _) => Err(fault),
    }
}

// Cut at the last colon.
fn copies(alloc: Global, value: &[u8]) -> Result<(Among, u32), WordFault>
    ensures { FindsValue (λ x. IsCopies value.now x.0 x.1) result }
{
    let Some(colon) = last_colon(value) else {
        return match count(value) {
            None => Err(WordFault::Value),
            Some(least) => Ok((Among::All, least)),
        };
    };
    let (kind, rest) = value.split_at(colon);
    match rest.split_first() {
        None => Err(WordFault::Value),
        Some((_, digits)) => kind_and_count(alloc, kind, digits),
    }
}

fn glob(alloc: Global, value: &[u8]) -> Result<Glob, WordFault>
    ensures { FindsValue (IsGlobText value.now) result }
{
    if value.is_empty() {
        return Err(WordFault::Value);
    }
    let Ok(pattern) = str::from_utf8(value) else {
        return Err(WordFault::Value);
    };
    match Glob::parse(alloc, pattern) {
        Ok(glob) => Ok(glob),
        Err(GlobFault::OpenSet { .. }) => Err(WordFault::Value),
        Err(GlobFault::NoMemory) => Err(WordFault::NoMemory),
    }
}

// A word that has no value.
fn bare(name: &[u8]) -> Option<Word>
    ensures { Found (λ x. x) (IsBare name.now) result }
{
    if same(name, b"anything") {
        return Some(Word::Anything);
    }
    if same(name, b"nothing") {
        return Some(Word::Nothing);
    }
    if same(name, b"present") {
        return Some(Word::Present);
    }
    if same(name, b"securehash") {
        return Some(Word::SecureHash);
    }
    if same(name, b"standard") {
        return Some(Word::Standard);
    }
    if same(name, b"groupwanted") {
        return Some(Word::GroupWanted);
    }
    None
}

fn count_value(value: &[u8]) -> Result<u32, WordFault>
    ensures { FindsValue (IsCount value.now) result }
{
    match count(value) {
        None => Err(WordFault::Value),
        Some(n) => Ok(n),
    }
}

fn size_value(value: &[u8]) -> Result<u64, WordFault>
    ensures { FindsValue (IsSize value.now) result }
{
    match size(value) {
        None => Err(WordFault::Value),
        Some(n) => Ok(n),
    }
}

// A word that has this value; an empty one is missing.
fn valued(alloc: Global, name: &[u8], value: &[u8]) -> Result<Word, WordFault>
    ensures { FindsNamed (is_valued_name name.now) (IsValued name.now value.now) result }
{
    if same(name, b"include") {
        return Ok(Word::Include(glob(alloc, value)?));
    }
    if same(name, b"exclude") {
        return Ok(Word::Exclude(glob(alloc, value)?));
    }
    if same(name, b"copies") {
        let (kind, least) = copies(alloc, value)?;
        return Ok(Word::Copies(kind, least));
    }
    if same(name, b"lackingcopies") || same(name, b"approxlackingcopies") {
        return Ok(Word::LackingCopies(count_value(value)?));
    }
    if same(name, b"inallgroup") {
        return Ok(Word::InAllGroup(text(alloc, value)?));
    }
    if same(name, b"onlyingroup") {
        return Ok(Word::OnlyInGroup(text(alloc, value)?));
    }
    if same(name, b"inbackend") {
        return Ok(Word::InBackend(text(alloc, value)?));
    }
    if same(name, b"largerthan") {
        return Ok(Word::LargerThan(size_value(value)?));
    }
    if same(name, b"smallerthan") {
        return Ok(Word::SmallerThan(size_value(value)?));
    }
    Err(WordFault::Unknown)
}

#[tactic(auto, unfolding(crate::specs::Words::is_bare_name))]
fn is_bare(name: &[u8]) -> bool
    ensures { result ≡ is_bare_name name.now }
{
    same(name, b"anything")
        || same(name, b"nothing")
        || same(name, b"present")
        || same(name, b"securehash")
        || same(name, b"standard")
        || same(name, b"groupwanted")
}

fn name_len(text: &[u8]) -> usize
    ensures { result ≡ prefix_len (λ b. not (b == 61)) text.now }
{
    text.iter().take_while(|b| **b != b'=').count()
}

// What stands before the first `=`, and what stands after it.
fn name_and_value(text: &[u8]) -> (&[u8], Option<&[u8]>)
    ensures name { result.0.now ≡ name_of text.now }
    ensures value { MatchOption result.1 (text.now ≡ result.0.now) (λ v. text.now ≡ result.0.now ++ codes "=" ++ v.now) }
{
    let end = name_len(text);
    let (name, rest) = text.split_at(end);
    match rest.split_first() {
        None => (name, None),
        Some((_, value)) => (name, Some(value)),
    }
}

#[tactic(auto, unfolding(crate::specs::Words::is_valued_name))]
fn is_valued(name: &[u8]) -> bool
    ensures { result ≡ is_valued_name name.now }
{
    same(name, b"include")
        || same(name, b"exclude")
        || same(name, b"copies")
        || same(name, b"lackingcopies")
        || same(name, b"approxlackingcopies")
        || same(name, b"inallgroup")
        || same(name, b"onlyingroup")
        || same(name, b"inbackend")
        || same(name, b"largerthan")
        || same(name, b"smallerthan")
}

fn word_alone(name: &[u8]) -> Result<Word, WordFault>
    ensures { FindsNamed (is_bare_name name.now || is_valued_name name.now) (IsBare name.now) result }
{
    match bare(name) {
        Some(word) => Ok(word),
        None => {
            if is_valued(name) {
                return Err(WordFault::Value);
            }
            Err(WordFault::Unknown)
        }
    }
}

/// The word that the text spells: it is judged by what stands before its first `=`.
pub(crate) fn read_word(alloc: Global, text: &[u8]) -> Result<Word, WordFault>
    ensures { FindsNamed (has_name text.now) (IsWord text.now) result }
{
    let (name, value) = name_and_value(text);
    match value {
        None => word_alone(name),
        Some(value) => {
            if is_bare(name) {
                return Err(WordFault::Value);
            }
            valued(alloc, name, value)
        }
    }
}
