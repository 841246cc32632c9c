//! Where a drop stands, what it heard, and what it has of its row.
use crate::time::Time;
use annex_base::Word;
use content_lock::{Bar, Share};
use run_data::Cause;

/// What a drop heard of a candidate's copy: a lock that it asked for at this time, or a look, and the word
/// beside a refusal; or why there is none.
#[derive(Clone, Copy, Debug, PartialEq, Eq)]
pub enum Heard {
    Held { since: Time },
    Seen,
    Unseen { word: Option<Word> },
    Lacks(Cause),
}

/// Where a drop stands.
#[derive(Clone, Copy, Debug, PartialEq, Eq)]
pub enum Phase {
    /// It is to begin.
    Fresh,
    /// It is to go on to the next candidate, or to judge.
    Next,
    /// It sent Open; VERSION.
    Opens { peer: u32 },
    Greets { peer: u32 },
    /// It sent LOCKCONTENT at this time; CHECKPRESENT.
    AsksLock { peer: u32, since: Time },
    AsksLook { peer: u32 },
    /// It sent the target GETTIMESTAMP; an order.
    AsksTime,
    Orders,
    /// The content is removed; the target refused to.
    Removed,
    Denied,
    /// The locks had expired at this time, and its own couldn't be released.
    Late { time: Time },
    /// It is to end so.
    Ends(Ending),
}

/// A refusal that is known before the end.
#[derive(Clone, Copy, Debug, PartialEq, Eq)]
pub enum Ending {
    Lost { ordered: bool },
    OldProtocol { version: u8 },
    StoreFault,
}

/// What a drop has of its own row: the bar of a local drop, or the share of a remote one.
#[derive(Debug)]
pub enum Token {
    Nothing,
    Bar(Bar),
    Share(Share),
}
