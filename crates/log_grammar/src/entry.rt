//! Log files, and what their lines say.

use crate::group_list::GroupList;
use annex_base::{Level, RepoId, Stamp, Text};

/// The log file that a line belongs to (git-annex internals).
#[derive(Clone, Copy, Debug, PartialEq, Eq)]
pub enum LogKind {
    /// A key's location log.
    Location,
    /// trust.log
    Trust,
    /// uuid.log: descriptions of repositories.
    Uuid,
    /// group.log
    Group,
    /// preferred-content.log
    Preferred,
    /// required-content.log
    Required,
    /// group-preferred-content.log
    GroupPreferred,
    /// numcopies.log
    Numcopies,
    /// mincopies.log
    Mincopies,
    /// numcopies-path.log: numbers of copies by path (own).
    NumcopiesPath,
    /// mincopies-path.log: the same of mincopies (own).
    MincopiesPath,
}

/// What an entry speaks of: a repository, a group, the whole file, or a pattern of paths.
#[derive(Clone, Debug, Drop, PartialEq, Eq, PartialOrd, Ord)]
pub enum Topic {
    Repo(RepoId),
    Group(Text),
    Whole,
    Pattern(Text),
}

/// What an entry says of its topic.
#[derive(Clone, Debug, Drop, PartialEq, Eq)]
pub enum Value {
    /// The repository is dead, `X` in a location log.
    Gone,
    /// The content isn't there, `0` in a location log.
    Absent,
    /// The content is there, `1` in a location log.
    Present,
    /// How far the repository is trusted.
    Level(Level),
    /// A description, or an expression of what content is wanted; empty is allowed.
    Text(Text),
    /// The groups that the repository is in.
    Groups(GroupList),
    /// A number of copies, below 1,000,000,000.
    Number(u32),
}

/// What one line of a log file says. Without a stamp it is older than every stamp.
#[derive(Clone, Debug, Drop, PartialEq, Eq)]
pub struct Entry {
    pub topic: Topic,
    pub stamp: Option<Stamp>,
    pub value: Value,
}
