//! The place at which a text goes wrong.
ghost use Rattle.std.specs.Prelude.{◌≡◌, ◌==◌, ◌+◌, ◌<◌, ◌≤◌, ◌↔◌, ℕ, [], ◌++◌, length, take, IsTrue};
ghost use Rattle.std.specs.List.{list_all, prefix_len};
ghost use Rattle.std.specs.Char.{is_ascii_digit};
ghost use Rattle.std.specs.Ordering.{is_lt};
ghost use Rattle.annex_base.specs.ByteOrder.{text_cmp};
ghost use Rattle.branch_bundle.specs.Bundle.{number_text, BeginsBundle};
ghost use Rattle.branch_bundle.specs.Parts.{fill, ends_well, BeginsLines, BeginsPath, BeginsNumber, BeginsFile, BeginsFiles, MayFollow};

use crate::parts::{FILE, cut_at, split_file, strip};
use crate::printing::HEADER;
use annex_base::parse_decimal;
use std::cmp::Ordering;

/// Where a text stops being the beginning of a bundle: its length, if it is one throughout.
pub(crate) fn first_wrong(text: &[u8]) -> usize
    ensures inside { result ≤ length text.now }
    ensures before { BeginsBundle (take result text.now) }
    ensures wrong { result < length text.now → BeginsBundle (take (result + 1) text.now) → ⊥ }
{
    if begins_bundle(text) {
        return text.len();
    }
    let mut low = 0;
    let mut high = text.len();
    while high - low > 1 {
        let middle = low + (high - low) / 2;
        let (front, _) = text.split_at(middle);
        if begins_bundle(front) {
            low = middle;
        } else {
            high = middle;
        }
    }
    low
}

// Whether some bundle begins with the text.
fn begins_bundle(text: &[u8]) -> bool
    ensures { IsTrue result ↔ BeginsBundle text.now }
{
    match strip(text, HEADER) {
        Some(rest) => begins_files(rest),
        None => strip(HEADER, text).is_some(),
    }
}

fn begins_files(text: &[u8]) -> bool
    ensures { IsTrue result ↔ BeginsFiles [] text.now }
{
    let mut before: &[u8] = b"";
    let mut rest = text;
    while let Some(file) = split_file(rest) {
        if !may_follow(before, file.path, file.lines) {
            return false;
        }
        before = file.path;
        rest = file.rest;
    }
    rest.is_empty() || begins_file(before, rest)
}

// Whether a file of this path and these lines may come after one of the path before.
fn may_follow(before: &[u8], path: &[u8], lines: &[u8]) -> bool
    ensures { IsTrue result ↔ MayFollow before.now path.now lines.now }
{
    is_before(before, path) && lines_end_well(lines, 0)
}

// Whether a file that may come after one of the path before begins with the text.
fn begins_file(before: &[u8], text: &[u8]) -> bool
    ensures { IsTrue result ↔ BeginsFile before.now text.now }
{
    match strip(text, FILE) {
        Some(rest) => begins_number(before, rest),
        None => strip(FILE, text).is_some(),
    }
}

fn begins_number(before: &[u8], text: &[u8]) -> bool
    ensures { IsTrue result ↔ BeginsNumber before.now text.now }
{
    let Some((number, rest)) = cut_at(text, b' ') else {
        return text.is_empty() || is_number(text);
    };
    match parse_decimal(number) {
        Some(count) => begins_path(count, before, rest),
        None => is_number(number) && begins_path(u64::MAX, before, rest),
    }
}

// Whether the word is a number in decimal, however great.
fn is_number(word: &[u8]) -> bool
    ensures { IsTrue result ↔ ((n : ℕ) × (word.now ≡ number_text n)) }
{
    let Some((first, rest)) = word.split_first() else {
        return false;
    };
    if *first == b'0' {
        return rest.is_empty();
    }
    all_digits(word)
}

fn all_digits(word: &[u8]) -> bool
    ensures { result ≡ list_all is_ascii_digit word.now }
{
    word.iter().all(|b| b.is_ascii_digit())
}

fn begins_path(count: u64, before: &[u8], text: &[u8]) -> bool
    ensures { IsTrue result ↔ BeginsPath count before.now text.now }
{
    let Some((path, lines)) = cut_at(text, b'\n') else {
        return count != 1 && is_before_filled(before, text, before.len() + 1);
    };
    is_before(before, path) && begins_lines(count, lines)
}

fn begins_lines(count: u64, text: &[u8]) -> bool
    ensures { IsTrue result ↔ BeginsLines count text.now }
{
    let length = text.len() as u64;
    length <= count && lines_end_well(text, count - length)
}

// Whether lines in order begin with the text, and end after this many bytes more.
fn lines_end_well(text: &[u8], left: u64) -> bool
    ensures { result ≡ ends_well [] [] text.now left }
{
    let mut line: &[u8] = b"";
    let mut rest = text;
    while let Some((next, after)) = cut_at(rest, b'\n') {
        if !is_before(line, next) {
            return false;
        }
        line = next;
        rest = after;
    }
    if left == 0 {
        rest.is_empty()
    } else {
        is_before_filled(line, rest, left as usize - 1)
    }
}

fn is_before(text: &[u8], other: &[u8]) -> bool
    ensures { result ≡ is_lt (text_cmp text.now other.now) }
{
    text < other
}

// Whether the text comes before the front with this many bytes 255 after it.
fn is_before_filled(text: &[u8], front: &[u8], count: usize) -> bool
    ensures { result ≡ is_lt (text_cmp text.now (front.now ++ fill count)) }
{
    let common = text.len().min(front.len());
    let (head, tail) = text.split_at(common);
    let (start, more) = front.split_at(common);
    match head.cmp(start) {
        Ordering::Less => true,
        Ordering::Equal => !more.is_empty() || is_before_fill(tail, count),
        Ordering::Greater => false,
    }
}

fn is_before_fill(text: &[u8], count: usize) -> bool
    ensures { result ≡ is_lt (text_cmp text.now (fill count)) }
{
    greatest_bytes(text) < count
}

fn greatest_bytes(text: &[u8]) -> usize
    ensures { result ≡ prefix_len (λ b. b == 255) text.now }
{
    text.iter().take_while(|b| **b == 255).count()
}
