//! The messages and raw bytes of a stream that comes in pieces.
ghost use Rattle.std.specs.Prelude.{◌≡◌, ◌≤◌, [], length, take, drop, IfOk, IsOk, OnOk, OnErr, Ok, Some, None};
ghost use Rattle.p2p_wire.specs.Streams.{DecoderView, start, next_answer, answer_by, after, after_told, after_giving, after_piece, line_len, line_told, raw_after, raw_told};

use crate::buffer::Buffer;
use crate::message::Message;
use crate::read::LINE_LIMIT;
use annex_base::NoMemory;
use std::alloc::Global;
use std::marker::Model;

/// Why a line is none of the protocol.
#[derive(Clone, Copy, Debug, PartialEq, Eq)]
pub enum Why {
    /// A whole line of at most 8,192 bytes that is no message.
    NotAMessage,
    /// 8,193 bytes without a newline.
    TooLong,
}

/// What comes next of a stream.
#[derive(PartialEq, Eq, Drop)]
pub enum Next {
    Message(Message),
    /// All raw bytes of a `DATA` that are at hand, at least one.
    Data(Vec<u8>),
    /// An unfinished line, or a `DATA` with bytes to come of which none is at hand.
    NeedMore,
    /// The line whose first byte is at this place of the stream, counted from 0, is none of the protocol. A place past
    /// 2^64 - 1 is told as 2^64 - 1.
    Bad { at: u64, why: Why },
}

/// A decoder of one stream, which is fed in pieces (git-annex P2P protocol). It keeps what was fed and not given.
#[derive(Debug, Drop)]
pub struct Decoder {
    unread: Buffer,
    place: u64,
    left: u64,
    fault: Option<Why>,
}

impl Model for Decoder {
    ghost use Rattle.std.specs.Prelude.{◌^◌, ◌<◌};
    ghost use Rattle.p2p_wire.specs.Streams.{DecoderView};

    ghost Value = { DecoderView };

    ghost view = { λ d. record { place = d.place; left = d.left; bytes = d.unread; fault = d.fault } };
}

// The raw bytes at hand, at most so many.
fn raw_in(unread: &Buffer, left: u64) -> Result<Vec<u8>, NoMemory>
    ensures { IfOk result (λ raw. raw.items ≡ take left unread.now) }
{
    let bytes = unread.bytes();
    let count = (bytes.len() as u64).min(left) as usize;
    let (raw, _) = bytes.split_at(count);
    Ok(Vec::from_slice(unread.allocator(), raw)?)
}

fn next_raw(unread: &Buffer, left: u64) -> Result<Next, NoMemory>
    ensures { IfOk result (λ next. answer_by next ≡ raw_told (take left unread.now)) }
{
    let raw = raw_in(unread, left)?;
    if raw.is_empty() {
        Ok(Next::NeedMore)
    } else {
        Ok(Next::Data(raw))
    }
}

fn next_line(unread: &mut Buffer, place: u64) -> Result<Next, NoMemory>
    ensures told { IfOk result (λ next. answer_by next ≡ line_told place unread.old) }
    ensures bytes { unread.new ≡ unread.old }
{
    let end = unread.line_len();
    if end > LINE_LIMIT {
        return Ok(Next::Bad {
            at: place,
            why: Why::TooLong,
        });
    }
    let bytes = unread.bytes();
    if end == bytes.len() {
        return Ok(Next::NeedMore);
    }
    let (line, _) = bytes.split_at(end);
    match Message::read(unread.allocator(), line)? {
        Some(message) => Ok(Next::Message(message)),
        None => Ok(Next::Bad {
            at: place,
            why: Why::NotAMessage,
        }),
    }
}

fn raw_after(message: &Message) -> u64
    ensures { result ≡ raw_after message.now }
{
    match message {
        Message::Data(count) => *count,
        _ => 0,
    }
}

impl Decoder {
    pub fn new(alloc: Global) -> Decoder
        ensures { result ≡ start }
    {
        Decoder {
            unread: Buffer::new(alloc),
            place: 0,
            left: 0,
            fault: None,
        }
    }

    /// Takes the next piece of the stream, of any length. After a `Bad` it is not kept.
    pub fn feed(&mut self, piece: &[u8]) -> Result<(), NoMemory>
        ensures ok { OnOk result (self.new ≡ after_piece self.old piece.now) }
        ensures err { OnErr result (self.new ≡ self.old) }
    {
        if self.fault.is_none() {
            self.unread.append(piece)?;
        }
        Ok(())
    }

    /// What comes next. After a `Bad` every later call answers the same.
    pub fn next(&mut self) -> Result<Next, NoMemory>
        ensures told { IfOk result (λ next. answer_by next ≡ next_answer self.old) }
        ensures ok { OnOk result (self.new ≡ after self.old) }
        ensures err { OnErr result (self.new ≡ self.old) }
    {
        let next = self.look()?;
        self.pass(&next);
        Ok(next)
    }

    fn look(&mut self) -> Result<Next, NoMemory>
        ensures told { IfOk result (λ next. answer_by next ≡ next_answer self.old) }
        ensures same { self.new ≡ self.old }
    {
        if let Some(why) = self.fault {
            return Ok(Next::Bad {
                at: self.place,
                why,
            });
        }
        if self.left == 0 {
            next_line(&mut self.unread, self.place)
        } else {
            next_raw(&self.unread, self.left)
        }
    }

    // Goes past what an answer gives.
    fn pass(&mut self, next: &Next)
        requires { answer_by next.now ≡ next_answer self.old }
        ensures { self.new ≡ after_told self.old (answer_by next.now) }
    {
        match next {
            Next::Message(message) => {
                let end = self.line_len();
                self.advance(end + 1, raw_after(message));
            }
            Next::Data(raw) => {
                let left = self.left - raw.len() as u64;
                self.advance(raw.len(), left);
            }
            Next::NeedMore => {}
            Next::Bad { why, .. } => self.fault = Some(*why),
        }
    }

    fn line_len(&mut self) -> usize
        ensures place { result ≡ line_len self.old.bytes }
        ensures within { result ≤ length self.old.bytes }
        ensures same { self.new ≡ self.old }
    {
        self.unread.line_len()
    }

    // Goes past so many bytes, after which so many raw bytes are to come.
    fn advance(&mut self, count: usize, left: u64)
        requires { count ≤ length self.old.bytes }
        ensures { self.new ≡ after_giving self.old count left }
    {
        self.unread.advance(count);
        self.left = left;
        self.place = self.place.saturating_add(count as u64);
    }
}
