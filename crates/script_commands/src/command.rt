//! The commands of a script, one for each line, as plain data.

use annex_base::{Call, Items, Line, RepoId, Text};
use annex_key::Key;
use log_lines::{LogKind, Topic, Value};
use run_data::{Job, LogFile};
use script_words::Content;

/// A key as a line names it.
#[derive(Clone, Debug, Drop)]
pub struct NamedKey {
    pub key: Key,
    /// The path that named the key, if one did.
    pub path: Option<Text>,
}

/// What a repository does in a block.
#[derive(Clone, Drop)]
pub enum BlockLine {
    /// `drop`, `get`, `copy` or `move`
    Runs { job: Job },
    /// `crash REPO [clock=MS]`, its clock in milliseconds, without the option 0
    Crashes { clock: u64 },
    /// `close REPO OTHER`
    Closes { other: u32 },
    /// `fail REPO CALL`
    Fails { call: Call },
}

/// A line of a block, with the repository that it names first.
#[derive(Clone, Drop)]
pub struct Agendum {
    pub repo: u32,
    pub line: BlockLine,
}

/// What a line does (own).
#[derive(Drop)]
pub enum Action {
    /// `have REPO KEY BYTES`, which match the key
    Have {
        repo: u32,
        key: Key,
        content: Content,
    },
    /// `part REPO KEY BYTES`
    SetPart {
        repo: u32,
        key: Key,
        content: Content,
    },
    /// `add REPO PATH BYTES`, with the key that is made of them
    Add {
        repo: u32,
        path: Text,
        key: Key,
        content: Content,
    },
    /// `file PATH KEY`
    File {
        path: Text,
        key: Key,
    },
    /// An entry of a topic in a log of the repository: `numcopies REPO N`, `mincopies REPO N`, N at most 999,999,999;
    /// `numcopiesfor REPO N REST`, `mincopiesfor REPO N REST`, the glob REST of 1 to 4,096 bytes; `trust REPO TARGET LEVEL`;
    /// `describe REPO TARGET REST`, `wanted REPO TARGET REST`, `required REPO TARGET REST`, REST of at most 4,096 bytes;
    /// `group REPO TARGET [GROUP ..]`; or `groupwanted REPO GROUP REST`. A TARGET is told by its identifier
    Set {
        repo: u32,
        kind: LogKind,
        topic: Topic,
        value: Value,
    },
    /// `log REPO location KEY REST` or `log REPO FILE REST`, REST not empty
    Raw {
        repo: u32,
        file: LogFile,
        line: Line,
    },
    /// `merge REPO OTHER`
    Merge {
        repo: u32,
        other: u32,
    },
    /// `compact REPO`
    Compact {
        repo: u32,
    },
    /// `sync REPO`
    Sync {
        repo: u32,
    },
    /// `begin JOB`
    Begin {
        repo: u32,
        job: Job,
    },
    /// `drop`, `get`, `copy` or `move`: the job is begun, and then the repositories settle
    Run {
        repo: u32,
        job: Job,
    },
    /// `turn REPO [N]`, N of 1 to 10,000, without it 1
    Turns {
        repo: u32,
        turns: u32,
    },
    /// `settle`
    Settle,
    /// `close REPO OTHER`
    Close {
        repo: u32,
        other: u32,
    },
    /// `crash REPO [clock=MS]`, its clock in milliseconds, at most 100,000,000,000, without the option 0
    Crash {
        repo: u32,
        clock: u64,
    },
    /// `wait MS`
    Wait {
        milliseconds: u64,
    },
    /// `fail REPO CALL`
    Fail {
        repo: u32,
        call: Call,
    },
}

/// What a line shows (own).
#[derive(Drop)]
pub enum Showing {
    /// `show presence KEY`
    Presence { key: NamedKey },
    /// `show claims REPO KEY`
    Claims { repo: u32, key: NamedKey },
    /// `show location REPO KEY`
    Location { repo: u32, key: NamedKey },
    /// `show log REPO FILE`
    Log { repo: u32, file: LogFile },
    /// `show logs REPO`
    Logs { repo: u32 },
    /// `show numbers REPO [PATH]`
    Numbers { repo: u32, path: Option<Text> },
    /// `show level REPO TARGET`
    Level { repo: u32, target: u32 },
    /// `show wants REPO TARGET PATH`, PATH a path of the tree
    Wants { repo: u32, target: u32, path: Text },
    /// `show row REPO KEY`
    Row { repo: u32, key: NamedKey },
    /// `show plan REPO`
    Plan { repo: u32 },
    /// `show totals`
    Totals,
    /// `show journal`
    Journal,
}

/// A line of a script, or the lines of a block (own). A repository is named by its number, in order of the `repo`
/// lines from 0.
#[derive(Drop)]
pub enum Command {
    /// `repo NAME UUID [offset=MS] [version=V] [nolock]`: its clock is ahead of the script's time by MS milliseconds, at
    /// most 100,000,000,000, without the option 0; it speaks the protocol up to version 1, 2 or 3, without the option 3
    Repo {
        name: Text,
        id: RepoId,
        offset: u64,
        version: u8,
        locks: bool,
    },
    Does {
        action: Action,
    },
    /// `damage REPO KEY BYTES`, for a key whose content an earlier line puts at REPO; no run has such a line yet
    Damage {
        repo: u32,
        key: Key,
        content: Content,
    },
    /// `par`, the lines of the block, `end`
    Par {
        lines: Items<Agendum>,
    },
    /// `show WHAT ..`
    Shows {
        what: Showing,
    },
}
