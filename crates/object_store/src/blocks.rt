//! Bytes in blocks of 32,768, so that an append moves no earlier byte and a piece is read without the rest.
ghost use Rattle.std.specs.Prelude.{◌≡◌, ◌<◌, ◌≤◌, ◌+◌, ◌-◌, ◌*◌, ◌%◌, ◌^◌, ◌++◌, List, ℕ, [], ◌∷◌, length, vec_len, vec_capacity, take, drop, IfOk, OnOk, OnErr};
ghost use Rattle.annex_base.specs.Lists.{Each};
ghost use Rattle.object_store.specs.BlockLists.{bytes_of_blocks, AreBlocks};
ghost use Rattle.object_store.specs.Stores.{read_length, room_after_read};

use annex_base::NoMemory;
use std::alloc::{AllocError, Global};
use std::marker::Model;
use std::mem;

const BLOCK: usize = 32_768;

const LIMIT: usize = 4_611_686_018_427_387_904;

/// Bytes, fewer than 2^62, which stand in blocks of 32,768 of which only the last may be shorter (own).
#[derive(Debug, Drop)]
pub struct Blocks {
    full: Vec<Vec<u8>>,
    last: Vec<u8>,
}

impl Model for Blocks {
    ghost use Rattle.std.specs.Prelude.{List, ℕ, ◌++◌};
    ghost use Rattle.object_store.specs.BlockLists.{bytes_of_blocks, AreBlocks};

    ghost Value = { List ℕ };

    ghost view = { λ b. bytes_of_blocks b.full.items ++ b.last.items };

    ghost invariant = { λ b. AreBlocks b.full.items b.last.items };
}

impl Blocks {
    /// No bytes, which takes no memory.
    pub fn new(alloc: Global) -> Blocks
        ensures { result ≡ [] }
    {
        Blocks {
            full: Vec::new(alloc),
            last: Vec::new(alloc),
        }
    }

    /// How many bytes there are.
    pub fn len(&self) -> u64
        ensures value { result ≡ length self.now }
        ensures small { length self.now < 2 ^ 62 }
    {
        length_of(&self.full, &self.last) as u64
    }

    /// The block of this number from 0, which is empty behind the last.
    pub fn block(&self, number: usize) -> &[u8]
        ensures { result.now ≡ take 32768 (drop (number * 32768) self.now) }
    {
        block_at(&self.full, &self.last, number)
    }

    /// Reads from the byte `at` into the front of the room, as far as bytes are left, and says how many these are.
    pub fn read(&self, at: u64, room: &mut [u8]) -> usize
        ensures count { result ≡ read_length self.now at (length room.old) }
        ensures room { room.new ≡ room_after_read self.now at room.old }
    {
        let most = self.len().saturating_sub(at).min(room.len() as u64) as usize;
        let mut filled = 0;
        while filled < most {
            let rest = self.rest_at(at as usize + filled);
            let count = rest.len().min(most - filled);
            let (front, _) = rest.split_at(count);
            room[filled..filled + count].copy_from_slice(front);
            filled += count;
        }
        most
    }

    // The bytes from a place on, up to the end of their block.
    fn rest_at(&self, place: usize) -> &[u8]
        requires { place < length self.now }
        ensures some { 0 < length result.now }
        ensures value { result.now ≡ take (32768 - place % 32768) (drop place self.now) }
    {
        let block = self.block(place / BLOCK);
        let (_, rest) = block.split_at(place % BLOCK);
        rest
    }

    /// Puts the piece at the end. At 2^62 bytes there is no more memory.
    pub fn append(&mut self, piece: &[u8]) -> Result<(), NoMemory>
        ensures ok { OnOk result (self.new ≡ self.old ++ piece.now) }
        ensures err { OnErr result (self.new ≡ self.old) }
        ensures small { length self.new < 2 ^ 62 }
    {
        if piece.len() >= LIMIT - length_of(&self.full, &self.last) {
            return Err(NoMemory);
        }
        put(&mut self.full, &mut self.last, piece)
    }
}

fn length_of(full: &[Vec<u8>], last: &[u8]) -> usize
    requires { AreBlocks full.now last.now }
    ensures { result ≡ length (bytes_of_blocks full.now ++ last.now) }
{
    full.len() * BLOCK + last.len()
}

fn block_at<'a>(full: &'a [Vec<u8>], last: &'a [u8], number: usize) -> &'a [u8]
    requires { AreBlocks full.now last.now }
    ensures { result.now ≡ take 32768 (drop (number * 32768) (bytes_of_blocks full.now ++ last.now)) }
{
    if number < full.len() {
        return &full[number];
    }
    if number == full.len() {
        return last;
    }
    &[]
}

// A block with room for all of its bytes.
fn block_of(alloc: Global, bytes: &[u8]) -> Result<Vec<u8>, AllocError>
    ensures { IfOk result (λ v. v.items ≡ bytes.now) }
{
    let mut block = Vec::with_capacity(alloc, BLOCK)?;
    block.extend_from_slice(bytes)?;
    Ok(block)
}

// Fills up a block, which has room for all of its bytes from the first one on.
fn fill(block: &mut Vec<u8>, bytes: &[u8]) -> Result<(), AllocError>
    ensures ok { OnOk result (block.new.items ≡ block.old.items ++ bytes.now) }
    ensures err { OnErr result (block.new.items ≡ block.old.items) }
{
    block.reserve(BLOCK.saturating_sub(block.len()))?;
    block.extend_from_slice(bytes)
}

// The bytes in blocks, of which the last is apart.
fn cut(alloc: Global, bytes: &[u8]) -> Result<(Vec<Vec<u8>>, Vec<u8>), AllocError>
    ensures value { IfOk result (λ r. bytes_of_blocks r.0.items ++ r.1.items ≡ bytes.now) }
    ensures whole { IfOk result (λ r. Each (λ b. length b.items ≡ 32768) r.0.items) }
    ensures last { IfOk result (λ r. length r.1.items ≤ 32768) }
{
    let mut full = Vec::new(alloc);
    let mut rest = bytes;
    while rest.len() > BLOCK {
        let (front, back) = rest.split_at(BLOCK);
        let block = block_of(alloc, front)?;
        full.push(block)?;
        rest = back;
    }
    let last = block_of(alloc, rest)?;
    Ok((full, last))
}

// What takes memory comes first.
fn put(full: &mut Vec<Vec<u8>>, last: &mut Vec<u8>, piece: &[u8]) -> Result<(), NoMemory>
    requires blocks { AreBlocks full.old.items last.old.items }
    requires small { length (bytes_of_blocks full.old.items ++ last.old.items) + length piece.now < 2 ^ 62 }
    ensures ok { OnOk result (bytes_of_blocks full.new.items ++ last.new.items ≡ (bytes_of_blocks full.old.items ++ last.old.items) ++ piece.now) }
    ensures err { OnErr result (bytes_of_blocks full.new.items ++ last.new.items ≡ bytes_of_blocks full.old.items ++ last.old.items) }
    ensures blocks { AreBlocks full.new.items last.new.items }
{
    let room = BLOCK - last.len();
    if piece.len() <= room {
        fill(last, piece)?;
        return Ok(());
    }
    let (front, back) = piece.split_at(room);
    let (more, next) = cut(*last.allocator(), back)?;
    full.reserve(more.len() + 1)?;
    fill(last, front)?;
    attach(full, mem::replace(last, next), more);
    Ok(())
}

fn attach(full: &mut Vec<Vec<u8>>, block: Vec<u8>, mut more: Vec<Vec<u8>>)
    requires { vec_len full.old + vec_len more + 1 ≤ vec_capacity full.old }
    ensures { full.new.items ≡ full.old.items ++ block ∷ more.items }
{
    match full.push(block) {
        Ok(()) => {}
        Err(_) => unreachable!(),
    }
    match full.append(&mut more) {
        Ok(()) => {}
        Err(_) => unreachable!(),
    }
}
