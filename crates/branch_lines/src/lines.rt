//! Lines of a branch's files: those that a file has, lacks or keeps.
ghost use Rattle.std.specs.Prelude.{◌≡◌, [], ◌∷◌, Some, IfOk, ◌<◌, bytes_eq};
ghost use Rattle.std.specs.Map.{keys_of};
ghost use Rattle.annex_base.specs.Lists.{Each};
ghost use Rattle.log_lines.specs.Newest.{current_lines};
ghost use Rattle.union_merge.specs.Branch.{lines_at};
ghost use Rattle.union_merge.specs.LineSet.{IsLine, IsLineSet, difference};
ghost use Rattle.std.specs.List.{list_any};
ghost use Rattle.node_model.specs.OwedLines.{if_new, same_lines};

use annex_base::{Items, Line, NoMemory, Text};
use log_lines::{LogKind, compact};
use std::alloc::Global;
use union_merge::{Branch, LineSet, unions_have_the_lines_of_both};

/// The paths of the files of a branch, in order.
pub fn paths_of(branch: &Branch) -> Result<Vec<Text>, NoMemory>
    ensures value { IfOk result (λ paths. paths.items ≡ keys_of branch.now) }
    ensures lines { IfOk result (λ paths. Each IsLine paths.items) }
{
    // For the proof: the paths of a branch are lines.
    let _ = branch.files();
    let paths = branch.paths()?;
    Ok(paths)
}

/// The lines of a file of the branch.
pub fn lines_of<'a>(branch: &'a Branch, path: &[u8]) -> &'a [Line]
    ensures lines { result.now ≡ lines_at branch.now path.now }
    ensures set { IsLineSet result.now }
{
    match branch.file(path) {
        Some(lines) => lines.lines(),
        None => &[],
    }
}

/// The lines without those that compaction leaves out.
pub fn current_lines(alloc: Global, kind: LogKind, lines: &[Line]) -> Result<LineSet, NoMemory>
    requires { IsLineSet lines.now }
    ensures { IfOk result (λ s. s ≡ current_lines kind lines.now) }
{
    // A law, for the proof: a set that is put in order stays as it is.
    unions_have_the_lines_of_both();
    let all = copies(alloc, lines)?;
    let kept = compact(alloc, kind, all)?;
    Ok(LineSet::from_lines(kept))
}

/// Those of the lines that a file of the branch lacks.
pub fn new_lines(
    alloc: Global,
    branch: &Branch,
    path: &[u8],
    lines: &LineSet,
) -> Result<LineSet, NoMemory>
    ensures { IfOk result (λ s. s ≡ difference lines.now (lines_at branch.now path.now)) }
{
    match branch.file(path) {
        Some(known) => lines.difference(known),
        None => lines.difference(&LineSet::new(alloc)),
    }
}

/// The lines as an entry lists them.
pub fn listed(alloc: Global, lines: &[Line]) -> Result<Items<Line>, NoMemory>
    ensures { IfOk result (λ items. items ≡ lines.now) }
{
    Ok(Items::from_vec(copies(alloc, lines)?))
}

/// Copies of the lines.
fn copies(alloc: Global, lines: &[Line]) -> Result<Vec<Line>, NoMemory>
    ensures { IfOk result (λ v. v.items ≡ lines.now) }
{
    let mut all = Vec::new(alloc);
    for line in lines {
        all.push(line.clone()?)?;
    }
    Ok(all)
}

/// The set of one line.
pub fn set_of_line(alloc: Global, line: &[u8]) -> Result<LineSet, NoMemory>
    requires { IsLine line.now }
    ensures { IfOk result (λ s. s ≡ line.now ∷ []) }
{
    let mut lines = LineSet::new(alloc);
    lines.insert(line)?;
    Ok(lines)
}

pub fn same_lines(lines: &[Line], others: &[Line]) -> bool
    ensures { result ≡ same_lines lines.now others.now }
{
    lines == others
}

/// The line, unless the file has it.
pub fn if_new(alloc: Global, branch: &Branch, path: &[u8], line: &[u8]) -> Result<LineSet, NoMemory>
    requires { IsLine line.now }
    ensures { IfOk result (λ s. s ≡ if_new (lines_at branch.now path.now) line.now) }
{
    if has_line(branch, path, line) {
        Ok(LineSet::new(alloc))
    } else {
        set_of_line(alloc, line)
    }
}

fn has_line(branch: &Branch, path: &[u8], line: &[u8]) -> bool
    ensures { result ≡ list_any (λ old. bytes_eq old line.now) (lines_at branch.now path.now) }
{
    match branch.file(path) {
        Some(lines) => lines.contains(line),
        None => false,
    }
}
