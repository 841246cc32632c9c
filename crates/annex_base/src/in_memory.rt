//! Sources and sinks in memory, with the failures that are asked for.
ghost use Rattle.std.specs.Prelude.{◌≡◌, ◌<◌, ◌≤◌, ◌↔◌, ◌⊎◌, ◌-◌, ◌++◌, [], length, take, drop, min, IfOk, OnErr, IsErr, Contains, Some, vec_len, vec_capacity};
ghost use Rattle.std.specs.Option.{ForSome};
ghost use Rattle.std.specs.Io.{ReadsAtMost, WritesAtMost};
ghost use Rattle.std.specs.Io.KnownBytes.{append_known, prepend_known};
ghost use Rattle.annex_base.specs.Causes.{HasCause, next_count};
ghost use Rattle.annex_base.specs.InMemory.{SourceState, SinkState};

use crate::source::{Failed, Sink, Source};
use std::alloc::Global;
use std::marker::Model;

/// A source in memory, which tells its bytes (own).
#[derive(Debug, Drop)]
pub struct SliceSource {
    bytes: Vec<u8>,
    at: usize,
    piece: usize,
    failing: Vec<u64>,
    calls: u64,
    faults: u64,
}

impl Model for SliceSource {
    ghost Value = { SourceState };

    ghost view = { λ s. record {
      left = drop s.at s.bytes.items;
      piece = s.piece;
      failing = s.failing.items;
      calls = s.calls;
      faults = s.faults;
    } };

    ghost invariant = { λ s. (s.at ≤ vec_len s.bytes) × (0 < s.piece) };
}

impl SliceSource {
    /// The source of these bytes. A call reads at most `piece` of them. Calls are counted from 1, and the
    /// calls whose numbers are in `failing` fail.
    pub fn new(bytes: Vec<u8>, piece: usize, failing: Vec<u64>) -> SliceSource
        requires { 0 < piece }
        ensures { result ≡ record { left = bytes.items; piece = piece; failing = failing.items; calls = 0; faults = 0 } }
    {
        SliceSource {
            bytes,
            at: 0,
            piece,
            failing,
            calls: 0,
            faults: 0,
        }
    }
}

impl Source for SliceSource {
    ghost left = { λ s. Some s.left };

    ghost faults = { λ s. s.faults };

    fn read(&mut self, room: &mut [u8]) -> Result<usize, Failed>
        ensures bound { ReadsAtMost result room.new }
        ensures bytes { IfOk result (λ n. Some self.old.left ≡ prepend_known (take n room.new) (Some self.new.left)) }
        ensures end { IfOk result (λ n. 0 < length room.new → ForSome (Some self.old.left) (λ xs. (n ≡ 0) ↔ (xs ≡ []))) }
        ensures failed { OnErr result (Some self.new.left ≡ Some self.old.left) }
        ensures cause { HasCause self.old.faults self.new.faults result }

        // What the call did, exactly.
        ensures fails { IsErr result ↔ Contains self.old.failing (next_count self.old.calls) }
        ensures count { IfOk result (λ n. n ≡ min (length self.old.left) (min self.old.piece (length room.old))) }
        ensures given { IfOk result (λ n. room.new ≡ take n self.old.left ++ drop n room.old) }
        ensures ok { IfOk result (λ n. self.new ≡ record self.old { left = drop n self.old.left; calls = next_count self.old.calls }) }
        ensures err { OnErr result (self.new ≡ record self.old { calls = next_count self.old.calls; faults = next_count self.old.faults }) }
        ensures room { OnErr result (room.new ≡ room.old) }
    {
        self.calls = self.calls.saturating_add(1);
        if self.failing.contains(&self.calls) {
            self.faults = self.faults.saturating_add(1);
            return Err(Failed);
        }
        let (_, rest) = self.bytes.split_at(self.at);
        let count = rest.len().min(self.piece).min(room.len());
        let (front, _) = rest.split_at(count);
        room[..count].copy_from_slice(front);
        self.at += count;
        Ok(count)
    }
}

/// A sink in memory, which tells its bytes (own).
#[derive(Debug, Drop)]
pub struct VecSink {
    bytes: Vec<u8>,
    piece: usize,
    failing: Vec<u64>,
    calls: u64,
    faults: u64,
}

impl Model for VecSink {
    ghost Value = { SinkState };

    ghost view = { λ s. record {
      taken = s.bytes.items;
      room = vec_capacity s.bytes - vec_len s.bytes;
      piece = s.piece;
      failing = s.failing.items;
      calls = s.calls;
      faults = s.faults;
    } };

    ghost invariant = { λ s. 0 < s.piece };
}

impl VecSink {
    /// A sink that has taken nothing. A call takes at most `piece` bytes. Calls are counted from 1, and the calls
    /// whose numbers are in `failing` fail.
    pub fn new(alloc: Global, piece: usize, failing: Vec<u64>) -> VecSink
        requires { 0 < piece }
        ensures { result ≡ record { taken = []; room = 0; piece = piece; failing = failing.items; calls = 0; faults = 0 } }
    {
        VecSink {
            bytes: Vec::new(alloc),
            piece,
            failing,
            calls: 0,
            faults: 0,
        }
    }

    /// The bytes that it took.
    pub fn bytes(&self) -> &[u8]
        ensures { result.now ≡ self.now.taken }
    {
        &self.bytes
    }
}

impl Sink for VecSink {
    ghost taken = { λ s. Some s.taken };

    ghost faults = { λ s. s.faults };

    fn write(&mut self, piece: &[u8]) -> Result<usize, Failed>
        ensures bound { WritesAtMost result piece.now }
        ensures some { IfOk result (λ n. 0 < length piece.now → 0 < n) }
        ensures bytes { IfOk result (λ n. Some self.new.taken ≡ append_known (Some self.old.taken) (take n piece.now)) }
        ensures failed { OnErr result (Some self.new.taken ≡ Some self.old.taken) }
        ensures cause { HasCause self.old.faults self.new.faults result }

        // What the call did, exactly. A call whose number isn't in `failing` fails only for want of memory.
        ensures fails { Contains self.old.failing (next_count self.old.calls) → IsErr result }
        ensures refused { OnErr result (Contains self.old.failing (next_count self.old.calls) ⊎ (self.old.room < min self.old.piece (length piece.now))) }
        ensures count { IfOk result (λ n. n ≡ min self.old.piece (length piece.now)) }
        ensures ok { IfOk result (λ n. self.new ≡ record self.old {
          taken = self.old.taken ++ take n piece.now;
          room = self.new.room;
          calls = next_count self.old.calls;
        }) }
        ensures err { OnErr result (self.new ≡ record self.old {
          room = self.new.room;
          calls = next_count self.old.calls;
          faults = next_count self.old.faults;
        }) }
    {
        self.calls = self.calls.saturating_add(1);
        if self.failing.contains(&self.calls) {
            self.faults = self.faults.saturating_add(1);
            return Err(Failed);
        }
        let count = piece.len().min(self.piece);
        let (front, _) = piece.split_at(count);
        if self.bytes.extend_from_slice(front).is_err() {
            self.faults = self.faults.saturating_add(1);
            return Err(Failed);
        }
        Ok(count)
    }
}
