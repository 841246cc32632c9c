//! How a table spells a text: on one line, by signs.

use crate::fault::TableFault;
use hex::FromHexError;
use std::alloc::{AllocError, Global};

/// The last decimal digit of a number.
fn digit(number: u32) -> u8 {
    b'0' + (number % 10) as u8
}

/// Adds the number, by four digits.
fn put_number(out: &mut Vec<u8>, number: u32) -> Result<(), TableFault> {
    out.push(digit(number / 1000))?;
    out.push(digit(number / 100))?;
    out.push(digit(number / 10))?;
    out.push(digit(number))?;
    Ok(())
}

/// Adds the byte of the first two digits, and what follows them.
fn put_byte(out: &mut Vec<u8>, alloc: Global, text: &[u8]) -> Result<(), TableFault> {
    let Some((digits, rest)) = text.split_at_checked(2) else {
        return Err(TableFault::Wrong);
    };
    match hex::decode(alloc, digits) {
        Ok(bytes) => out.extend_from_slice(&bytes)?,
        Err(FromHexError::OutOfMemory) => return Err(TableFault::NoMemory),
        Err(_) => return Err(TableFault::Wrong),
    }
    out.extend_from_slice(rest)?;
    Ok(())
}

/// Adds what stands for the sign, and what follows the sign.
fn put_sign(out: &mut Vec<u8>, alloc: Global, text: &[u8], number: u32) -> Result<(), TableFault> {
    let Some((sign, rest)) = text.split_first() else {
        return Err(TableFault::Wrong);
    };
    match *sign {
        b'x' => return put_byte(out, alloc, rest),
        b'n' => out.push(b'\n')?,
        b'#' => put_number(out, number)?,
        _ => return Err(TableFault::Wrong),
    }
    out.extend_from_slice(rest)?;
    Ok(())
}

fn cut_signs(alloc: Global, text: &[u8]) -> Result<Vec<&[u8]>, AllocError> {
    text.split(|b| *b == b'\\').collect(alloc)
}

/// Adds what the text spells by `\n`, the end of a line, `\xHH`, a byte, and `\#`, the number by four digits.
fn put(out: &mut Vec<u8>, alloc: Global, text: &[u8], number: u32) -> Result<(), TableFault> {
    let pieces = cut_signs(alloc, text)?;
    let Some((front, signs)) = pieces.split_first() else {
        return Ok(());
    };
    out.extend_from_slice(front)?;
    for sign in signs {
        put_sign(out, alloc, sign, number)?;
    }
    Ok(())
}

/// Adds the text, so many times, each with its number from 0.
fn put_repeated(
    out: &mut Vec<u8>,
    alloc: Global,
    text: &[u8],
    times: u32,
) -> Result<(), TableFault> {
    for number in 0..times {
        put(out, alloc, text, number)?;
    }
    Ok(())
}

/// Adds what is spelled by `TIMES TEXT`.
fn put_repetition(out: &mut Vec<u8>, alloc: Global, text: &str) -> Result<(), TableFault> {
    let Some((times, piece)) = text.split_once(' ') else {
        return Err(TableFault::Wrong);
    };
    let Ok(times) = times.parse::<u32>() else {
        return Err(TableFault::Wrong);
    };
    put_repeated(out, alloc, piece.as_bytes(), times)
}

/// The text of this spelling. One piece of it may be `{TIMES TEXT}`, which is repeated so often.
pub fn spelled(alloc: Global, text: &str) -> Result<Vec<u8>, TableFault> {
    let mut out = Vec::new(alloc);
    let Some((front, after)) = text.split_once('{') else {
        put(&mut out, alloc, text.as_bytes(), 0)?;
        return Ok(out);
    };
    let Some((repetition, back)) = after.split_once('}') else {
        return Err(TableFault::Wrong);
    };
    put(&mut out, alloc, front.as_bytes(), 0)?;
    put_repetition(&mut out, alloc, repetition)?;
    put(&mut out, alloc, back.as_bytes(), 0)?;
    Ok(out)
}
