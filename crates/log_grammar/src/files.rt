//! The names of the log files, but for location logs.

ghost use Rattle.std.specs.Prelude.{◌≡◌, ◌≢◌, ◌↔◌, Some};
ghost use Rattle.log_grammar.specs.Files.{file_name, kind_named};

use crate::entry::LogKind;

/// The kinds that have one file each.
const NAMED: [LogKind; 10] = [
    LogKind::Trust,
    LogKind::Uuid,
    LogKind::Group,
    LogKind::Preferred,
    LogKind::Required,
    LogKind::GroupPreferred,
    LogKind::Numcopies,
    LogKind::Mincopies,
    LogKind::NumcopiesPath,
    LogKind::MincopiesPath,
];

impl LogKind {
    /// The name of the file of this kind in a branch, empty for a location log, whose path is that of its key (git-annex
    /// internals).
    pub fn file_name(self) -> &'static [u8]
        ensures { result.now ≡ file_name self }
    {
        match self {
            LogKind::Location => b"",
            LogKind::Trust => b"trust.log",
            LogKind::Uuid => b"uuid.log",
            LogKind::Group => b"group.log",
            LogKind::Preferred => b"preferred-content.log",
            LogKind::Required => b"required-content.log",
            LogKind::GroupPreferred => b"group-preferred-content.log",
            LogKind::Numcopies => b"numcopies.log",
            LogKind::Mincopies => b"mincopies.log",
            LogKind::NumcopiesPath => b"numcopies-path.log",
            LogKind::MincopiesPath => b"mincopies-path.log",
        }
    }

    /// The kind of the file of this name in a branch; none where no log file but a location log may have it.
    pub fn named(name: &[u8]) -> Option<LogKind>
        ensures { result ≡ kind_named name.now }
    {
        NAMED.iter().copied().find(|kind| kind.file_name() == name)
    }
}
