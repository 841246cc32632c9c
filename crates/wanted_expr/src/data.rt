//! The tree of an expression, and the facts that it is judged by.
use annex_base::{Items, Level, RepoId, Text};
use glob_match::Glob;

/// Which of the claimed repositories `copies=` counts (git-annex-preferred-content).
#[derive(Debug, Drop)]
pub enum Among {
    /// All of them.
    All,
    /// Those of this level.
    OfLevel(Level),
    /// Those of this level or more.
    OfLevelOrMore(Level),
    /// Those in this group.
    InGroup(Text),
}

/// A word of an expression with its value (git-annex-preferred-content).
#[derive(Debug, Drop)]
pub enum Word {
    Anything,
    Nothing,
    Present,
    Include(Glob),
    Exclude(Glob),
    Copies(Among, u32),
    LackingCopies(u32),
    InAllGroup(Text),
    OnlyInGroup(Text),
    InBackend(Text),
    SecureHash,
    LargerThan(u64),
    SmallerThan(u64),
    Standard,
    GroupWanted,
}

/// What an expression says: `and` and `or` have equal rank and are taken from left to right (own).
#[derive(Debug, Drop)]
pub enum Tree {
    Single(Word),
    Not(Box<Tree>),
    Both(Box<Tree>, Box<Tree>),
    Either(Box<Tree>, Box<Tree>),
}

/// A repository that is claimed to have the key.
#[derive(Debug, Drop)]
pub struct Claimant {
    pub repo: RepoId,
    pub level: Level,
    pub groups: Items<Text>,
}

/// A repository that isn't dead, and a group that it is in.
#[derive(Debug, Drop)]
pub struct Member {
    pub repo: RepoId,
    pub group: Text,
}

/// What an expression is judged by: a path from the top of the repository, the key's backend and size in bytes, whether
/// the repository itself is claimed to have the key, the number of copies wanted, the claimed repositories without one
/// that is assumed gone, the members of groups without dead ones, and whether the expressions that `standard` and
/// `groupwanted` stand for hold.
#[derive(Debug, Drop)]
pub struct Facts {
    pub path: Option<Text>,
    pub backend: Text,
    pub size: Option<u64>,
    pub present: bool,
    pub numcopies: u32,
    pub claimed: Items<Claimant>,
    pub members: Items<Member>,
    pub standard: bool,
    pub groupwanted: bool,
}
