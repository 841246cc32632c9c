//! What a transfer's step reads of its repository, other than its rows and its store.
ghost use Rattle.std.specs.Prelude.{◌≡◌, ◌<◌, true};

/// Which of how many repositories it is, and how its ends of connections stand.
pub trait Here {
    ghost use Rattle.transfer_turns.specs.Turns.{Sight};

    ghost sight: { Self → Sight };

    /// The repository's number.
    fn repo(&self) -> u32
        ensures { result ≡ (sight self.now).repo };

    /// How many repositories there are; it is one of them.
    fn count(&self) -> u32
        ensures same { result ≡ (sight self.now).count }
        ensures among { (sight self.now).repo < result };

    /// Whether the client's end of the connection with a peer is open in a slot.
    fn is_open(&self, peer: u32, slot: u32) -> bool
        ensures { result ≡ ((sight self.now).ends (record { peer = peer; slot = slot; client = true })).opened };
}
