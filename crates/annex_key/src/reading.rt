//! Reading a key from left to right.
ghost use Rattle.std.specs.Prelude.{◌≡◌, ◌≤◌, length, IfOk};
ghost use Rattle.std.specs.List.{list_all, position_or_len};
ghost use Rattle.std.specs.Str.Lossy.{utf8_valid_len};
ghost use Rattle.annex_key.specs.KeyText.{is_backend, is_backend_byte};
ghost use Rattle.annex_base.specs.Lines.{is_newline};
ghost use Rattle.annex_key.specs.Reading.{Reads, is_dash, has_dashes, word_of, after_word, backend_at, number_at, comes, field_at, must_at, chunk_at, name_front, checked_name, name_at, key_at, parts_at, around_chunk};
ghost use Rattle.annex_key.specs.View.{size_in, size_or_fault};

use crate::fault::KeyFault;
use annex_base::parse_decimal;

/// The greatest length of a key's text, in bytes (own).
const TEXT_LIMIT: usize = 1024;

fn is_backend_char(b: u8) -> bool
    ensures { result ≡ is_backend_byte b }
{
    b.is_ascii_uppercase() || b.is_ascii_digit() || b == b'_'
}

fn all_backend(word: &[u8]) -> bool
    ensures { result ≡ list_all is_backend_byte word.now }
{
    word.iter().all(|b| is_backend_char(*b))
}

fn is_backend_word(word: &[u8]) -> bool
    ensures { result ≡ is_backend word.now }
{
    match word {
        [] => false,
        [first, rest @ ..] => first.is_ascii_uppercase() && all_backend(rest) && rest.len() <= 31,
    }
}

fn has_dashes(text: &[u8]) -> bool
    ensures { result ≡ has_dashes text.now }
{
    let mut after_dash = false;
    for b in text {
        let dash = *b == b'-';
        if after_dash && dash {
            return true;
        }
        after_dash = dash;
    }
    false
}

fn word_len(bytes: &[u8]) -> usize
    ensures { result ≡ position_or_len is_dash bytes.now }
{
    bytes.iter().take_while(|b| **b != b'-').count()
}

// What stands before the first dash, and from it on.
fn split_word(bytes: &[u8]) -> (&[u8], &[u8])
    ensures word { result.0.now ≡ word_of bytes.now }
    ensures rest { result.1.now ≡ after_word bytes.now }
    ensures shorter { length result.1.now ≤ length bytes.now }
{
    let end = word_len(bytes);
    bytes.split_at(end)
}

#[tactic(auto, unfolding(crate::specs::Reading::backend_at))]
fn backend_of(bytes: &[u8]) -> Result<(&[u8], &[u8]), KeyFault>
    ensures exact { Reads (λ x. (x.0.now, x.1.now)) result (backend_at bytes.now) }
    ensures rest { IfOk result (λ x. length x.1.now ≤ length bytes.now) }
{
    // An empty word, as that of `--a`, is no backend.
    let (word, rest) = split_word(bytes);
    if is_backend_word(word) {
        Ok((word, rest))
    } else {
        Err(KeyFault::BadBackend)
    }
}

#[tactic(auto, unfolding(crate::specs::Reading::number_at))]
fn number_of_field(total: usize, bytes: &[u8]) -> Result<(u64, &[u8]), KeyFault>
    requires { length bytes.now ≤ total }
    ensures exact { Reads (λ x. (x.0, x.1.now)) result (number_at total bytes.now) }
    ensures rest { IfOk result (λ x. length x.1.now ≤ length bytes.now) }
{
    // All up to the next dash is the number: of `-s3x-` it is `3x`, of `-s-` it is empty, and both are faults at it.
    let (word, rest) = split_word(bytes);
    match parse_decimal(word) {
        Some(number) => Ok((number, rest)),
        None => Err(KeyFault::BadField {
            at: total - bytes.len(),
        }),
    }
}

fn letter_follows(letter: u8, bytes: &[u8]) -> bool
    ensures { result ≡ comes letter bytes.now }
{
    match bytes {
        [first, second, ..] => *first == b'-' && *second == letter,
        _ => false,
    }
}

#[tactic(auto, unfolding(crate::specs::Reading::field_at))]
fn optional_field(letter: u8, total: usize, bytes: &[u8]) -> Result<(Option<u64>, &[u8]), KeyFault>
    requires { length bytes.now ≤ total }
    ensures exact { Reads (λ x. (x.0, x.1.now)) result (field_at letter total bytes.now) }
    ensures rest { IfOk result (λ x. length x.1.now ≤ length bytes.now) }
{
    if !letter_follows(letter, bytes) {
        return Ok((None, bytes));
    }
    let (_, field) = bytes.split_at(2);
    let (number, rest) = number_of_field(total, field)?;
    Ok((Some(number), rest))
}

#[tactic(auto, unfolding(crate::specs::Reading::must_at))]
fn required_field(letter: u8, total: usize, bytes: &[u8]) -> Result<(u64, &[u8]), KeyFault>
    requires within { length bytes.now ≤ total }
    requires small { total ≤ 1024 }
    ensures exact { Reads (λ x. (x.0, x.1.now)) result (must_at letter total bytes.now) }
    ensures rest { IfOk result (λ x. length x.1.now ≤ length bytes.now) }
{
    if !letter_follows(letter, bytes) {
        return Err(KeyFault::BadField {
            at: total - bytes.len() + 1,
        });
    }
    let (_, field) = bytes.split_at(2);
    number_of_field(total, field)
}

#[tactic(auto, unfolding(crate::specs::Reading::chunk_at))]
fn chunk_of(total: usize, bytes: &[u8]) -> Result<(Option<(u64, u64)>, &[u8]), KeyFault>
    requires within { length bytes.now ≤ total }
    requires small { total ≤ 1024 }
    ensures exact { Reads (λ x. (x.0, x.1.now)) result (chunk_at total bytes.now) }
    ensures rest { IfOk result (λ x. length x.1.now ≤ length bytes.now) }
{
    if !letter_follows(b'S', bytes) {
        return Ok((None, bytes));
    }
    let (_, field) = bytes.split_at(2);
    let (size, rest) = number_of_field(total, field)?;
    let (chunk, rest) = required_field(b'C', total, rest)?;
    Ok((Some((size, chunk)), rest))
}

fn name_front(name: &[u8]) -> usize
    ensures { result ≡ name_front name.now }
{
    let line = line_len(name);
    match str::from_utf8(name) {
        Ok(_) => line,
        Err(stop) => line.min(stop.valid_up_to()),
    }
}

fn line_len(bytes: &[u8]) -> usize
    ensures { result ≡ position_or_len is_newline bytes.now }
{
    bytes.iter().take_while(|b| **b != b'\n').count()
}

#[tactic(auto, unfolding(crate::specs::Reading::checked_name))]
fn name_of_key(total: usize, name: &[u8]) -> Result<&[u8], KeyFault>
    requires { length name.now ≤ total }
    ensures { Reads (λ x. x.now) result (checked_name total name.now) }
{
    if name.is_empty() {
        return Err(KeyFault::EmptyName);
    }
    let front = name_front(name);
    if front < name.len() {
        return Err(KeyFault::BadName {
            at: total - name.len() + front,
        });
    }
    Ok(name)
}

#[tactic(auto, unfolding(crate::specs::Reading::name_at))]
fn name_of(total: usize, bytes: &[u8]) -> Result<&[u8], KeyFault>
    requires within { length bytes.now ≤ total }
    requires small { total ≤ 1024 }
    ensures { Reads (λ x. x.now) result (name_at total bytes.now) }
{
    if !letter_follows(b'-', bytes) {
        return Err(KeyFault::BadField {
            at: total - bytes.len() + 1,
        });
    }
    let (_, name) = bytes.split_at(2);
    name_of_key(total, name)
}

#[tactic(auto, unfolding(crate::specs::Reading::parts_at))]
fn size_in_parts(text: &[u8]) -> Result<Option<u64>, KeyFault>
    requires { length text.now ≤ 1024 }
    ensures { Reads (λ x. x) result (size_in (parts_at text.now)) }
{
    let total = text.len();
    let (_backend, rest) = backend_of(text)?;
    let (size, rest) = optional_field(b's', total, rest)?;
    let (_mtime, rest) = optional_field(b'm', total, rest)?;
    let (_chunk, rest) = chunk_of(total, rest)?;
    let _name = name_of(total, rest)?;
    Ok(size)
}

/// The size of the key that the text spells, or the first fault.
#[tactic(auto, unfolding(crate::specs::Reading::key_at))]
pub(crate) fn find_size(text: &[u8]) -> Result<Option<u64>, KeyFault>
    ensures { Reads (λ x. x) result (size_or_fault text.now) }
{
    if text.len() > TEXT_LIMIT {
        return Err(KeyFault::TooLong);
    }
    if !has_dashes(text) {
        return Err(KeyFault::NoDashes);
    }
    size_in_parts(text)
}

/// What stands before the first dash.
pub(crate) fn backend_word(text: &[u8]) -> &[u8]
    ensures { result.now ≡ word_of text.now }
{
    split_word(text).0
}

/// What stands in a text before the fields of a chunk, and after them.
#[tactic(auto, unfolding(crate::specs::Reading::around_chunk))]
pub(crate) fn around_chunk(text: &[u8]) -> Result<(&[u8], &[u8]), KeyFault>
    requires { length text.now ≤ 1024 }
    ensures { Reads (λ x. (x.0.now, x.1.now)) result (around_chunk text.now) }
{
    let total = text.len();
    let (_backend, after_backend) = backend_of(text)?;
    let (_size, after_size) = optional_field(b's', total, after_backend)?;
    let (_mtime, after_mtime) = optional_field(b'm', total, after_size)?;
    let (_chunk, end) = chunk_of(total, after_mtime)?;
    let (front, _) = text.split_at(total - after_mtime.len());
    Ok((front, end))
}
