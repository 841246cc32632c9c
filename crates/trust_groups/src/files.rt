//! The lines of the files of a branch.

ghost use Rattle.std.specs.Prelude.{◌≡◌};
ghost use Rattle.union_merge.specs.Branch.{lines_at};

use annex_base::Line;
use union_merge::Branch;

/// The lines of a branch's file, none where it isn't there.
pub(crate) fn lines_of<'a>(branch: &'a Branch, path: &[u8]) -> &'a [Line]
    ensures { result.now ≡ lines_at branch.now path.now }
{
    match branch.file(path) {
        Some(lines) => lines.lines(),
        None => &[],
    }
}
