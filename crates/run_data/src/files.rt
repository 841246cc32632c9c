//! The log files of a branch: their paths and their kinds, and the file of a path.
ghost use Rattle.std.specs.Prelude.{◌≡◌, ◌≤◌, length, IfOk};
ghost use Rattle.std.specs.List.{after_first, position_or_len};
ghost use Rattle.union_merge.specs.LineSet.{IsLine};
ghost use Rattle.run_data.specs.Files.{HasPath, file_of, file_path, is_slash, kind_of, location_at, log_name};

use crate::entry::LogFile;
use annex_base::{NoMemory, Text};
use annex_key::{Key, KeyFault};
use hash_dirs::location_path;
use log_grammar::LogKind;
use std::alloc::Global;

impl LogFile {
    /// Where the file stands in a branch (git-annex internals: branch files, location tracking).
    pub fn path(&self, alloc: Global) -> Result<Text, NoMemory>
        ensures value { IfOk result (λ path. path ≡ file_path self.now) }
        ensures line { IfOk result (λ path. HasPath self.now → IsLine path) }
    {
        match self {
            LogFile::Location(key) => location_path(alloc, key),
            LogFile::Of(kind) => Text::new(alloc, kind.file_name()),
            LogFile::Other(name) => Ok(name.clone()?),
        }
    }

    /// What kind of log the file is; a file of another name is none.
    pub fn kind(&self) -> Option<LogKind>
        ensures { result ≡ kind_of self.now }
    {
        match self {
            LogFile::Location(_) => Some(LogKind::Location),
            LogFile::Of(kind) => Some(*kind),
            LogFile::Other(_) => None,
        }
    }

    /// The file that stands at the path, whatever repositories wrote there.
    pub fn of_path(alloc: Global, path: &[u8]) -> Result<LogFile, NoMemory>
        ensures value { IfOk result (λ file. file ≡ file_of path.now) }
        ensures path { IsLine path.now → IfOk result HasPath }
    {
        match LogKind::named(path) {
            Some(kind) => Ok(LogFile::Of(kind)),
            None => location_at(alloc, path),
        }
    }
}

/// The location log of the key whose file has this name, where the path is its; else the file of another name.
fn location_at(alloc: Global, path: &[u8]) -> Result<LogFile, NoMemory>
    ensures value { IfOk result (λ file. file ≡ location_at path.now) }
    ensures path { IsLine path.now → IfOk result HasPath }
{
    match Key::from_file(alloc, log_name(path)) {
        Ok(key) => {
            if location_path(alloc, &key)?.bytes() == path {
                return Ok(LogFile::Location(key));
            }
        }
        Err(KeyFault::NoMemory) => return Err(NoMemory),
        Err(_) => {}
    }
    Ok(LogFile::Other(Text::new(alloc, path)?))
}

/// What stands after the two directories of a path, without `.log`.
fn log_name(path: &[u8]) -> &[u8]
    ensures { result.now ≡ log_name path.now }
{
    let file = after_slash(after_slash(path));
    let (name, _) = file.split_at(file.len().saturating_sub(4));
    name
}

fn after_slash(path: &[u8]) -> &[u8]
    ensures { result.now ≡ after_first is_slash path.now }
{
    let (_, rest) = path.split_at(slash_in(path));
    match rest.split_first() {
        Some((_, after)) => after,
        None => &[],
    }
}

fn slash_in(path: &[u8]) -> usize
    ensures place { result ≡ position_or_len is_slash path.now }
    ensures short { result ≤ length path.now }
{
    path.iter().take_while(|b| **b != b'/').count()
}
