//! Streams in pieces, and where they are refused.

use annex_base::NoMemory;
use p2p_wire::{Decoder, Message, Next, Why};
use std::alloc::Global;
use table_cases::{Case, TableFault, put_truth};

fn put_bad(out: &mut String, at: u64, why: Why) -> Result<(), TableFault> {
    match why {
        Why::NotAMessage => write!(out, "no message at {at}")?,
        Why::TooLong => write!(out, "too long at {at}")?,
    }
    Ok(())
}

fn put_raw(out: &mut String, raw: &[u8]) -> Result<(), TableFault> {
    let Ok(raw) = str::from_utf8(raw) else {
        return Err(TableFault::Wrong);
    };
    write!(out, "raw {raw}")?;
    Ok(())
}

fn put_told(out: &mut String, next: &Next) -> Result<(), TableFault> {
    match next {
        Next::Message(_) => out.push_str("message")?,
        Next::Data(raw) => put_raw(out, raw)?,
        Next::NeedMore => out.push_str("more")?,
        Next::Bad { at, why } => put_bad(out, *at, *why)?,
    }
    Ok(())
}

/// Tells what comes next, and whether it is the last that the piece has.
fn put_next(decoder: &mut Decoder, out: &mut String) -> Result<bool, TableFault> {
    if !out.is_empty() {
        out.push_str(", ")?;
    }
    let next = decoder.next()?;
    put_told(out, &next)?;
    Ok(matches!(&next, Next::NeedMore | Next::Bad { .. }))
}

/// Tells what a piece gives.
fn put_piece(decoder: &mut Decoder, piece: &[u8], out: &mut String) -> Result<(), TableFault> {
    decoder.feed(piece)?;
    for _ in 0..100 {
        if put_next(decoder, out)? {
            return Ok(());
        }
    }
    Ok(())
}

/// `steps PIECE | PIECE`: what comes next behind the first piece, one after the other, and then behind the second.
pub fn steps(alloc: Global, case: &Case, out: &mut String) -> Result<(), TableFault> {
    let mut decoder = Decoder::new(alloc);
    put_piece(&mut decoder, case.text(0), out)?;
    put_piece(&mut decoder, case.text(1), out)
}

/// What a decoder gave: its messages and its raw bytes, and whether it refused a line.
#[derive(Drop)]
struct Seen {
    messages: Vec<Message>,
    raw: Vec<u8>,
    is_bad: bool,
}

/// Asks until more is needed, or a line is refused.
fn ask(decoder: &mut Decoder, seen: &mut Seen) -> Result<(), NoMemory> {
    for _ in 0..100 {
        match decoder.next()? {
            Next::Message(message) => seen.messages.push(message)?,
            Next::Data(raw) => seen.raw.extend_from_slice(&raw)?,
            Next::NeedMore => return Ok(()),
            Next::Bad { .. } => {
                seen.is_bad = true;
                return Ok(());
            }
        }
    }
    Ok(())
}

/// What the decoder of a stream in three pieces gave.
fn decoded(alloc: Global, pieces: [&[u8]; 3]) -> Result<Seen, NoMemory> {
    let mut decoder = Decoder::new(alloc);
    let mut seen = Seen {
        messages: Vec::new(alloc),
        raw: Vec::new(alloc),
        is_bad: false,
    };
    for piece in pieces {
        decoder.feed(piece)?;
        ask(&mut decoder, &mut seen)?;
    }
    Ok(seen)
}

/// The messages of the case: what its third to eighth text say, where there are so many.
fn wanted(alloc: Global, case: &Case) -> Result<Vec<Message>, TableFault> {
    let mut messages = Vec::new(alloc);
    for at in 2..8 {
        let line = case.text(at);
        if !line.is_empty() {
            let Some(message) = Message::read(alloc, line)? else {
                return Err(TableFault::Wrong);
            };
            messages.push(message)?;
        }
    }
    Ok(messages)
}

/// A stream, and what it is to give.
#[derive(Clone, Copy)]
struct Stream<'a> {
    bytes: &'a [u8],
    raw: &'a [u8],
    messages: &'a [Message],
}

/// Whether the stream gives what it is to give where it is cut at these places.
fn gives(alloc: Global, stream: Stream<'_>, first: usize, second: usize) -> Result<bool, NoMemory> {
    let (front, end) = stream.bytes.split_at(second.min(stream.bytes.len()));
    let (front, middle) = front.split_at(first.min(front.len()));
    let seen = decoded(alloc, [front, middle, end])?;
    Ok(
        !seen.is_bad
            && seen.raw.as_slice() == stream.raw
            && seen.messages.as_slice() == stream.messages,
    )
}

/// The same wherever its part before the second place is cut.
fn gives_before(alloc: Global, stream: Stream<'_>, second: usize) -> Result<bool, NoMemory> {
    for first in 0..=second.min(stream.bytes.len()) {
        if !gives(alloc, stream, first, second)? {
            return Ok(false);
        }
    }
    Ok(true)
}

/// The same wherever it is cut into three.
fn gives_in_three(alloc: Global, stream: Stream<'_>) -> Result<bool, NoMemory> {
    for second in 0..=stream.bytes.len() {
        if !gives_before(alloc, stream, second)? {
            return Ok(false);
        }
    }
    Ok(true)
}

/// `cut STREAM | RAW | LINE ..`: whether the stream gives these raw bytes and the messages of these lines wherever it is
/// cut into three.
pub fn cut(alloc: Global, case: &Case, out: &mut String) -> Result<(), TableFault> {
    let messages = wanted(alloc, case)?;
    let stream = Stream {
        bytes: case.text(0),
        raw: case.text(1),
        messages: &messages,
    };
    put_truth(out, gives_in_three(alloc, stream)?)
}

/// `whole STREAM | RAW | LINE ..`: the same of the uncut stream.
pub fn whole(alloc: Global, case: &Case, out: &mut String) -> Result<(), TableFault> {
    let messages = wanted(alloc, case)?;
    let stream = Stream {
        bytes: case.text(0),
        raw: case.text(1),
        messages: &messages,
    };
    let len = stream.bytes.len();
    put_truth(out, gives(alloc, stream, len, len)?)
}
