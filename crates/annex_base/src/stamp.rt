//! Stamps of entries.
ghost use Rattle.std.specs.Prelude.{◌≡◌, ◌<◌, ◌≤◌, ◌^◌, ◌++◌, ℕ, length, IfOk, IfSome, OnOk, Ok};
ghost use Rattle.std.specs.Char.{is_ascii_digit};
ghost use Rattle.std.specs.List.{AllPass, prefix_len};
ghost use Rattle.std.specs.Option.{option_map};
ghost use Rattle.std.specs.Result.{result_ok};
ghost use Rattle.std.specs.Str.Parse.{digits_value};
ghost use Rattle.annex_base.specs.StampText.{IsStamp, stamp_text, nanos_of, fraction_text, digits_after_point};
ghost use Rattle.annex_base.specs.StampReading.{stamp_of, digits_at, fraction_at, is_ending};

use crate::decimal::put_number;
use crate::memory::NoMemory;
use std::alloc::{AllocError, Global};
use std::marker::Model;

const BILLION: u64 = 1_000_000_000;

/// The text is no stamp.
#[derive(Clone, Copy, Debug, PartialEq, Eq)]
pub struct NotStamp;

/// When an entry was made: nanoseconds since 1970, at most 9,999,999,999,999,999,999.
/// Contracts see that number (git-annex internals, location log).
#[derive(Clone, Copy, Debug, PartialEq, Eq, PartialOrd, Ord)]
pub struct Stamp {
    pub nanos: u64,
}

impl Model for Stamp {
    ghost use Rattle.std.specs.Prelude.{ℕ, ◌<◌, ◌^◌};

    ghost Value = { ℕ };

    ghost view = { λ s. s.nanos };

    ghost invariant = { λ s. s.nanos < 10 ^ 19 };

    ghost inverse = { λ n. record { nanos = n } };
}

impl Stamp {
    /// The stamp of a text: 1 to 10 digits of seconds, then optionally `.` and 1 to 12 digits, then optionally
    /// `s`. Digits of the fraction past the ninth are dropped.
    pub fn parse(text: &[u8]) -> Result<Stamp, NotStamp>
        ensures found { IfOk result (λ s. IsStamp text.now s) }
        ensures only { (n : ℕ) → IsStamp text.now n → result ≡ Ok n }
        ensures exact { result_ok result ≡ stamp_of text.now }
        ensures limit { IfOk result (λ s. s < 10 ^ 19) }
    {
        match read(text) {
            Some(nanos) => Ok(Stamp { nanos }),
            None => Err(NotStamp),
        }
    }

    /// The stamp's text: seconds, a fraction without trailing zeros if it isn't 0, and `s`.
    pub fn print(&self, alloc: Global) -> Result<Vec<u8>, NoMemory>
        ensures text { IfOk result (λ v. v.items ≡ stamp_text self.now) }
        ensures again { IfOk result (λ v. IsStamp v.items self.now) }
        ensures limit { self.now < 10 ^ 19 }
    {
        let mut text = Vec::new(alloc);
        put_number(&mut text, self.nanos / BILLION)?;
        put_fraction(&mut text, self.nanos % BILLION)?;
        text.push(b's')?;
        Ok(text)
    }
}

fn digits_len(bytes: &[u8]) -> usize
    ensures { result ≡ prefix_len is_ascii_digit bytes.now }
{
    bytes.iter().take_while(|b| b.is_ascii_digit()).count()
}

#[tactic(auto, unfolding(crate::specs::StampReading::digits_at))]
fn digits_of(bytes: &[u8], most: usize) -> Option<(&[u8], &[u8])>
    ensures exact { option_map (λ x. (x.0.now, x.1.now)) result ≡ digits_at most bytes.now }
    ensures digits { IfSome result (λ x. AllPass is_ascii_digit x.0.now) }
    ensures short { IfSome result (λ x. length x.0.now ≤ most) }
{
    let count = digits_len(bytes);
    let (digits, rest) = bytes.split_at(count);
    if 0 < count && count <= most {
        Some((digits, rest))
    } else {
        None
    }
}

#[tactic(auto, unfolding(crate::specs::StampReading::fraction_at))]
fn fraction_of(bytes: &[u8]) -> Option<(&[u8], &[u8])>
    ensures exact { option_map (λ x. (x.0.now, x.1.now)) result ≡ fraction_at bytes.now }
    ensures digits { IfSome result (λ x. AllPass is_ascii_digit x.0.now) }
    ensures short { IfSome result (λ x. length x.0.now ≤ 12) }
{
    match bytes {
        [b'.', digits @ ..] => digits_of(digits, 12),
        _ => Some(bytes.split_at(0)),
    }
}

fn is_end(bytes: &[u8]) -> bool
    ensures { result ≡ is_ending bytes.now }
{
    match bytes {
        [] => true,
        [b] => *b == b's',
        _ => false,
    }
}

fn value_of(digits: &[u8]) -> u64
    requires digits { AllPass is_ascii_digit digits.now }
    requires short { length digits.now ≤ 10 }
    ensures value { result ≡ digits_value 10 digits.now }
    ensures below { result < 10 ^ length digits.now }
{
    let mut value = 0;
    for digit in digits {
        value = value * 10 + u64::from(*digit - b'0');
    }
    value
}

#[tactic(auto, using(crate::proofs::StampLemmas::scaled_below))]
fn nanos_in(fraction: &[u8]) -> u64
    requires { AllPass is_ascii_digit fraction.now }
    ensures value { result ≡ nanos_of fraction.now }
    ensures below { result < 10 ^ 9 }
{
    let (front, _) = fraction.split_at(fraction.len().min(9));
    value_of(front) * 10u64.pow(9 - front.len() as u32)
}

#[tactic(auto, unfolding(crate::specs::StampReading::stamp_of))]
fn read(text: &[u8]) -> Option<u64>
    ensures exact { result ≡ stamp_of text.now }
    ensures below { IfSome result (λ n. n < 10 ^ 19) }
{
    let (seconds, rest) = digits_of(text, 10)?;
    let (fraction, rest) = fraction_of(rest)?;
    if is_end(rest) {
        Some(value_of(seconds) * BILLION + nanos_in(fraction))
    } else {
        None
    }
}

#[tactic(auto, unfolding(crate::specs::StampText::digits_after_point))]
fn put_fraction(out: &mut Vec<u8>, nanos: u64) -> Result<(), AllocError>
    requires { nanos < 10 ^ 9 }
    ensures { OnOk result (out.new.items ≡ out.old.items ++ fraction_text (digits_after_point 9 nanos)) }
{
    if nanos > 0 {
        out.push(b'.')?;
        put_digits(out, nanos)?;
    }
    Ok(())
}

fn put_digits(out: &mut Vec<u8>, nanos: u64) -> Result<(), AllocError>
    requires { nanos < 10 ^ 9 }
    ensures { OnOk result (out.new.items ≡ out.old.items ++ digits_after_point 9 nanos) }
{
    let mut places = 9;
    let mut rest = nanos;
    while rest > 0 {
        places -= 1;
        let unit = 10u64.pow(places);
        out.push(b'0' + (rest / unit) as u8)?;
        rest %= unit;
    }
    Ok(())
}
