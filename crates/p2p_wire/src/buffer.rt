//! The bytes of a stream that came and were not given yet.
ghost use Rattle.std.specs.Prelude.{◌≡◌, ◌≤◌, ◌++◌, [], length, drop, OnOk, OnErr, vec_len};
ghost use Rattle.std.specs.List.{position_or_len};
ghost use Rattle.annex_base.specs.Lines.{is_newline};

use annex_base::NoMemory;
use std::alloc::Global;
use std::marker::Model;

/// Bytes of which a front is given away, seen as the bytes that are left.
#[derive(Debug, Drop)]
pub(crate) struct Buffer {
    bytes: Vec<u8>,
    // How many of them are given away; they are dropped in bulk, when they are at least half.
    start: usize,
    // No newline stands in so many bytes from the start on.
    searched: usize,
}

impl Model for Buffer {
    ghost use Rattle.std.specs.Prelude.{List, ℕ, ◌≤◌, drop, vec_len};
    ghost use Rattle.std.specs.List.{position_or_len};
    ghost use Rattle.annex_base.specs.Lines.{is_newline};

    ghost Value = { List ℕ };

    ghost view = { λ b. drop b.start b.bytes.items };

    ghost invariant = { λ b. (b.start ≤ vec_len b.bytes) × (b.searched ≤ position_or_len is_newline (drop b.start b.bytes.items)) };
}

fn newline_place(bytes: &[u8]) -> usize
    ensures { result ≡ position_or_len is_newline bytes.now }
{
    bytes.iter().take_while(|b| **b != b'\n').count()
}

// Goes on with a search that found no newline in so many bytes.
#[tactic(auto, using(crate::proofs::BufferLemmas::line_goes_on, crate::proofs::BufferLemmas::line_within))]
fn search_on(bytes: &[u8], searched: usize) -> usize
    requires { searched ≤ position_or_len is_newline bytes.now }
    ensures place { result ≡ position_or_len is_newline bytes.now }
    ensures within { result ≤ length bytes.now }
{
    let (_, rest) = bytes.split_at(searched);
    searched + newline_place(rest)
}

fn drop_front(bytes: &mut Vec<u8>, count: usize)
    requires { count ≤ vec_len bytes.old }
    ensures { bytes.new.items ≡ drop count bytes.old.items }
{
    bytes.drain(..count);
}

impl Buffer {
    pub(crate) fn new(alloc: Global) -> Buffer
        ensures { result ≡ [] }
    {
        Buffer {
            bytes: Vec::new(alloc),
            start: 0,
            searched: 0,
        }
    }

    pub(crate) fn allocator(&self) -> Global {
        *self.bytes.allocator()
    }

    pub(crate) fn bytes(&self) -> &[u8]
        ensures { result.now ≡ self.now }
    {
        self.bytes.split_at(self.start).1
    }

    /// Adds a piece. Bytes are moved only where at least as many were given away since the last move.
    pub(crate) fn append(&mut self, piece: &[u8]) -> Result<(), NoMemory>
        ensures ok { OnOk result (self.new ≡ self.old ++ piece.now) }
        ensures err { OnErr result (self.new ≡ self.old) }
    {
        self.compact();
        Ok(self.bytes.extend_from_slice(piece)?)
    }

    fn compact(&mut self)
        ensures { self.new ≡ self.old }
    {
        let kept = self.bytes.len() - self.start;
        if kept <= self.start {
            drop_front(&mut self.bytes, self.start);
            self.start = 0;
        }
    }

    /// Gives a front away.
    pub(crate) fn advance(&mut self, count: usize)
        requires { count ≤ length self.old }
        ensures { self.new ≡ drop count self.old }
    {
        self.start += count;
        self.searched = 0;
    }

    /// Where the first newline stands, or the length. What was searched before is not searched again.
    pub(crate) fn line_len(&mut self) -> usize
        ensures place { result ≡ position_or_len is_newline self.old }
        ensures within { result ≤ length self.old }
        ensures bytes { self.new ≡ self.old }
    {
        let end = search_on(self.bytes(), self.searched);
        self.searched = end;
        end
    }
}
