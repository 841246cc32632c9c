//! Laws of what is wanted: each is the contract of a function that does nothing.
ghost use Rattle.std.specs.Prelude.{◌↔◌, List};
ghost use Rattle.annex_base.specs.Lists.{Each, Member};
ghost use Rattle.union_merge.specs.Branch.{Files, IsBranch, lines_at, merged_branches};
ghost use Rattle.trust_groups.specs.Alike.{CompactsFiles, KeepsFiles, SameFiles};
ghost use Rattle.trust_groups.specs.Settings.{Lines, settings};
ghost use Rattle.wanted_rules.specs.Plan.{PlanAlike};

use trust_groups::{equal_lines_read_alike, merges_read_alike};

/// Branches with the same lines, in whatever order and number, give the same wants, requirements and plans; so do those of
/// which some files were compacted, those to which the same lines were ever added, and merges of the same branches in
/// whatever order (own).
pub fn equal_lines_plan_alike()
    ensures lines { (x y : Lines) → SameFiles x y → PlanAlike (settings x) (settings y) }
    ensures compacted { (old new : Lines) → CompactsFiles old new → PlanAlike (settings new) (settings old) }
    ensures kept { (kept ever : Lines) → KeepsFiles kept ever → PlanAlike (settings kept) (settings ever) }
    ensures order { (start : Files) (xs ys : List Files) → IsBranch start → Each IsBranch xs → Each IsBranch ys → ((b : Files) → Member b xs ↔ Member b ys) → PlanAlike (settings (lines_at (merged_branches start xs))) (settings (lines_at (merged_branches start ys))) }
{
    // laws, for the proof that such branches have the same settings, which are all that is read of them
    equal_lines_read_alike();
    merges_read_alike();
}
