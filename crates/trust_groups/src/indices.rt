//! Indices of a branch's files by path, and lines that are added to them.

ghost use Rattle.std.specs.Prelude.{◌≡◌, ◌++◌, ◌∷◌, [], ℕ, List, Bool, true, false, Some, None, IfOk, OnOk, OnErr};
ghost use Rattle.log_lines.specs.Index.{Index, empty_index, index_with};
ghost use Rattle.trust_groups.specs.Settings.{Lines};
ghost use Rattle.trust_groups.specs.Adding.{indices_and, indices_with, lines_and};
ghost use Rattle.trust_groups.specs.Reads.{HaveReadLines, kind_at, index_at, lines_with, view_of};

use annex_base::{Line, NoMemory};
use log_lines::{LogKind, Newest};
use std::alloc::Global;
use std::collections::BTreeMap;

/// What kind of log a file is, if it is one: where no other log has its name, only a location log can stand at its path.
pub(crate) fn kind_at(path: &[u8]) -> LogKind
    ensures { result ≡ kind_at path.now }
{
    LogKind::named(path).unwrap_or(LogKind::Location)
}

/// Adds a line to the index of a file that is there; false where it isn't there.
fn add_known(
    files: &mut BTreeMap<Vec<u8>, Newest>,
    path: &[u8],
    line: &Line,
) -> Result<bool, NoMemory>
    ensures unknown { IfOk result (λ known. known ≡ false → (index_at (view_of files.old.entries) path.now ≡ None) × (view_of files.new.entries ≡ view_of files.old.entries)) }
    ensures known { IfOk result (λ known. known ≡ true → (index : Index) × (index_at (view_of files.old.entries) path.now ≡ Some index) × (view_of files.new.entries ≡ indices_with (view_of files.old.entries) path.now (index_with index line.now))) }
    ensures err { OnErr result (view_of files.new.entries ≡ view_of files.old.entries) }
{
    match files.get_mut(path) {
        Some(index) => {
            index.add(line)?;
            Ok(true)
        }
        None => Ok(false),
    }
}

/// Adds the index of a line to those of files that aren't there, where the line says something.
fn add_first(
    files: &mut BTreeMap<Vec<u8>, Newest>,
    alloc: Global,
    path: &[u8],
    line: &Line,
) -> Result<(), NoMemory>
    ensures ok { OnOk result (view_of files.new.entries ≡ indices_and (view_of files.old.entries) path.now (index_with (empty_index (kind_at path.now)) line.now)) }
    ensures err { OnErr result (view_of files.new.entries ≡ view_of files.old.entries) }
{
    let mut index = Newest::new(alloc, kind_at(path));
    index.add(line)?;
    if !index.is_empty() {
        let path = Vec::from_slice(alloc, path)?;
        files.insert(path, index)?;
    }
    Ok(())
}

/// Adds a line of the file of this path.
pub(crate) fn add_line(
    files: &mut BTreeMap<Vec<u8>, Newest>,
    alloc: Global,
    path: &[u8],
    line: &Line,
) -> Result<(), NoMemory>
    ensures reads { OnOk result ((lines : Lines) → HaveReadLines (view_of files.old.entries) lines → HaveReadLines (view_of files.new.entries) (lines_with lines path.now line.now)) }
    ensures err { OnErr result (view_of files.new.entries ≡ view_of files.old.entries) }
{
    if add_known(files, path, line)? {
        return Ok(());
    }
    add_first(files, alloc, path, line)
}

/// Adds lines of the file of this path.
pub(crate) fn add_file(
    files: &mut BTreeMap<Vec<u8>, Newest>,
    alloc: Global,
    path: &[u8],
    more: &[Line],
) -> Result<(), NoMemory>
    ensures { OnOk result ((lines : Lines) → HaveReadLines (view_of files.old.entries) lines → HaveReadLines (view_of files.new.entries) (lines_and lines path.now more.now)) }
{
    for line in more {
        add_line(files, alloc, path, line)?;
    }
    Ok(())
}
