//! Sources and sinks of bytes, and what they promise.
ghost use Rattle.std.specs.Prelude.{◌≡◌, ◌<◌, ◌↔◌, List, ℕ, [], length, take, IfOk, OnErr};
ghost use Rattle.std.specs.declared.option.Option.{Option};
ghost use Rattle.std.specs.Option.{ForSome};
ghost use Rattle.std.specs.Io.{ReadsAtMost, WritesAtMost};
ghost use Rattle.std.specs.Io.KnownBytes.{append_known, prepend_known};
ghost use Rattle.annex_base.specs.Causes.{HasCause};

/// A read or a write failed, and nothing was read or taken.
#[derive(Clone, Copy, Debug, PartialEq, Eq)]
pub struct Failed;

/// A source of bytes (own).
pub trait Source {
    /// The bytes that are left, where it tells them. A source tells them always or never.
    ghost left: { Self → Option (List ℕ) };

    /// How often it has failed; this count stays at the greatest `u64`.
    ghost faults: { Self → ℕ };

    /// Reads into the front of the room, and says how many bytes. It reads none into room that isn't empty only
    /// at the end of input.
    fn read(&mut self, room: &mut [u8]) -> Result<usize, Failed>
        ensures bound { ReadsAtMost result room.new }
        ensures bytes { IfOk result (λ n. left self.old ≡ prepend_known (take n room.new) (left self.new)) }
        ensures end { IfOk result (λ n. 0 < length room.new → ForSome (left self.old) (λ xs. (n ≡ 0) ↔ (xs ≡ []))) }
        ensures failed { OnErr result (left self.new ≡ left self.old) }
        ensures cause { HasCause (faults self.old) (faults self.new) result };
}

/// A sink of bytes (own).
pub trait Sink {
    /// The bytes that it took, where it tells them. A sink tells them always or never.
    ghost taken: { Self → Option (List ℕ) };

    /// How often it has failed; this count stays at the greatest `u64`.
    ghost faults: { Self → ℕ };

    /// Takes bytes from the front of the piece, and says how many: at least one where the piece isn't empty.
    fn write(&mut self, piece: &[u8]) -> Result<usize, Failed>
        ensures bound { WritesAtMost result piece.now }
        ensures some { IfOk result (λ n. 0 < length piece.now → 0 < n) }
        ensures bytes { IfOk result (λ n. taken self.new ≡ append_known (taken self.old) (take n piece.now)) }
        ensures failed { OnErr result (taken self.new ≡ taken self.old) }
        ensures cause { HasCause (faults self.old) (faults self.new) result };
}
