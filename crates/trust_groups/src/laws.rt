//! Laws of what a branch says: each is the contract of a function that does nothing.
ghost use Rattle.std.specs.Prelude.{◌≡◌, ◌≢◌, ◌↔◌, ◌≤◌, ◌++◌, ℕ, List, []};
ghost use Rattle.std.specs.List.Sorted.{IsStrictlySortedBy};
ghost use Rattle.annex_base.specs.ByteOrder.{text_cmp};
ghost use Rattle.annex_base.specs.Lists.{Member, Each};
ghost use Rattle.union_merge.specs.Branch.{Files, IsBranch, lines_at, merged_branch, merged_branches};
ghost use Rattle.trust_groups.specs.Settings.{Lines, settings, claims, repos_in_groups, groups, numcopies, mincopies};
ghost use Rattle.trust_groups.specs.Alike.{SameFiles, SameReading, KeepsFiles, CompactsFiles, IsNoLog};
ghost use Rattle.trust_groups.specs.Reads.{Indices, HaveReadLines, lines_with};
ghost use Rattle.trust_groups.specs.View.{settings_of};
ghost use Rattle.trust_groups.specs.Claims.{IsClaimed};

use log_lines::{
    compaction_keeps_the_reading, entries_are_found_by_topic, readings_are_exact,
    readings_depend_on_the_set,
};
use union_merge::{
    any_order_of_merges_gives_one_branch, merges_have_the_files_of_both,
    unions_have_the_lines_of_both,
};

/// Branches whose log files read alike have the same settings: so those with the same lines, in any order and any number,
/// those of which some files were compacted, and those to which the same lines were ever added.
pub fn equal_lines_read_alike()
    ensures readings { (x y : Lines) → SameReading x y → settings x ≡ settings y }
    ensures lines { (x y : Lines) → SameFiles x y → settings x ≡ settings y }
    ensures compacted { (old new : Lines) → CompactsFiles old new → settings new ≡ settings old }
    ensures kept { (kept ever : Lines) → KeepsFiles kept ever → settings kept ≡ settings ever }
{
    // laws, for the proof that files with the same lines read alike, and so do compacted and kept ones
    readings_depend_on_the_set();
    compaction_keeps_the_reading();
}

/// A branch keeps the lines that are in it, also those that are added to one of its files, still after some of its
/// files are compacted, and after a merge it keeps the lines that either branch kept. So whichever branches are merged,
/// in whatever order and however often, and whatever is compacted in between, what is read in the end is what all lines
/// together say (git-annex internals: branch files; compaction is own).
pub fn merges_read_alike()
    ensures own { (x : Lines) → KeepsFiles x x }
    ensures compacted { (old new ever : Lines) → CompactsFiles old new → KeepsFiles old ever → KeepsFiles new ever }
    ensures added { (kept ever new : Lines) (path line : List ℕ) → KeepsFiles kept ever → SameFiles (lines_with kept path line) new → KeepsFiles new (lines_with ever path line) }
    ensures merged { (xs ys : Files) (ever others : Lines) → IsBranch xs → IsBranch ys → KeepsFiles (lines_at xs) ever → KeepsFiles (lines_at ys) others → KeepsFiles (lines_at (merged_branch xs ys)) (λ path. ever path ++ others path) }
    ensures order { (start : Files) (xs ys : List Files) → IsBranch start → Each IsBranch xs → Each IsBranch ys → ((b : Files) → Member b xs ↔ Member b ys) → settings (lines_at (merged_branches start xs)) ≡ settings (lines_at (merged_branches start ys)) }
{
    // laws, for the proof that merged files have the lines of both, and that any order of merges gives one branch
    unions_have_the_lines_of_both();
    merges_have_the_files_of_both();
    any_order_of_merges_gives_one_branch();
}

/// Settings that have read lines are those of these lines. So settings that have read every line that was ever added to a
/// branch or to one that was merged into it, in any order and however often, are the branch's own, whatever was compacted in
/// between; and a line of a file that is no log changes none (own).
pub fn settings_are_those_of_the_lines_read()
    ensures read { (indices : Indices) (lines : Lines) → HaveReadLines indices lines → settings_of indices ≡ settings lines }
    ensures kept { (indices : Indices) (read kept ever : Lines) → HaveReadLines indices read → SameFiles read ever → KeepsFiles kept ever → (settings_of indices ≡ settings kept) × (settings_of indices ≡ settings ever) }
    ensures other { (lines : Lines) (path line : List ℕ) → IsNoLog path → settings (lines_with lines path line) ≡ settings lines }
{
    // laws, for the proof that files with the same lines read alike, and so do those that keep what was ever added
    readings_depend_on_the_set();
    compaction_keeps_the_reading();
}

/// A repository is claimed to have a key exactly where its newest status is 1 and it isn't dead (git-annex internals:
/// location log; git-annex-dead). Each stands once, in order of identifier.
pub fn claims_are_exact()
    ensures each { (lines : Lines) (key repo : List ℕ) → Member repo (claims lines key) ↔ IsClaimed lines key repo }
    ensures sorted { (lines : Lines) (key : List ℕ) → IsStrictlySortedBy text_cmp (claims lines key) }
{
    // laws, for the proof that the newest entries are in order of topic, and that one is found by its topic
    readings_are_exact();
    entries_are_found_by_topic();
}

/// A repository is grouped exactly where it is in a group (git-annex-group). Each stands once, in order of identifier.
pub fn grouped_are_exact()
    ensures each { (lines : Lines) (repo : List ℕ) → Member repo (repos_in_groups lines) ↔ (groups lines repo ≢ []) }
    ensures sorted { (lines : Lines) → IsStrictlySortedBy text_cmp (repos_in_groups lines) }
{
    // laws, for the proof that the newest entries are in order of topic, and that one is found by its topic
    readings_are_exact();
    entries_are_found_by_topic();
}

/// No branch asks for fewer than one copy (own).
pub fn some_copies_are_wanted()
    ensures numcopies { (lines : Lines) → 1 ≤ numcopies lines }
    ensures mincopies { (lines : Lines) → 1 ≤ mincopies lines }
{}
