//! Plain kinds: calls of a store, what was found, words of refusals, trust, the stamps of a journal.
/// A call of a repository's store, as scripts and journals name it (own).
#[derive(Clone, Copy, Debug, PartialEq, Eq)]
pub enum Call {
    Has,
    Size,
    Read,
    PartSize,
    ReadPart,
    Append,
    Commit,
    DropPart,
    Remove,
    Hold,
    Unhold,
    Holds,
    PutFile,
    File,
}

/// What a repository found as it looked at its row of a key (own).
#[derive(Clone, Copy, Debug, PartialEq, Eq)]
pub enum Found {
    Present,
    Absent,
    Barred,
    Held,
    Late,
    Nolock,
}

/// The reason that travels beside a refusal, and beside the answer to an order for absent content (own).
#[derive(Clone, Copy, Debug, PartialEq, Eq)]
pub enum Word {
    Absent,
    Barred,
    Held,
    Late,
    Fault,
}

/// How far a repository is trusted to keep what it has, from least to greatest (git-annex trust).
#[derive(Clone, Copy, Debug, PartialEq, Eq, PartialOrd, Ord)]
pub enum Level {
    Dead,
    Untrusted,
    Semitrusted,
    Trusted,
}

/// Where an entry stands in a run: its time in milliseconds, its count and its repository's number.
/// Entries stand in rising order of the three (own).
#[derive(Clone, Copy, Debug, PartialEq, Eq, PartialOrd, Ord)]
pub struct EntryStamp {
    pub time: u64,
    pub count: u64,
    pub repo: u32,
}
