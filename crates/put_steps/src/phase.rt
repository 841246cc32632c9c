//! Where a copy stands.
ghost use Rattle.std.specs.Prelude.{◌+◌, ◌<◌, ◌^◌};

/// Where a copy stands.
#[derive(Clone, Copy)]
pub enum Phase {
    /// It is to begin.
    Fresh,
    /// It sent Open; VERSION.
    Opens { peer: u32 },
    Greets { peer: u32 },
    /// It sent PUT; then it sends the bytes from the start that it was told, and VALID, and then awaits SUCCESS.
    Offer { peer: u32 },
    Bytes(Sending),
    Word { peer: u32, start: u64 },
    Answer { peer: u32, start: u64 },
    /// It is to end so.
    Ends(Ending),
    /// Its transfer is done, and its drop is to begin.
    Done,
}

/// The bytes of a content that are sent to a peer: the start that it told, the place of the next one, and how many are left.
#[derive(Clone, Copy)]
pub struct Sending {
    pub peer: u32,
    pub start: u64,
    pub at: u64,
    pub left: u64,
    pub ghost some: { 0 < left },
    pub ghost small: { at + left < 2 ^ 62 },
}

/// How a copy is to end.
#[derive(Clone, Copy)]
pub enum Ending {
    /// The peer has the content: from this offset in bytes on, or it had it already.
    Copied { start: Option<u64> },
    Busy,
    Closed,
    Rejected,
    StoreFault,
}
