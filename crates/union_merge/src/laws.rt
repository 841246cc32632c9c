//! Laws of sets of lines, and of the merges of sets and of branches.

ghost use Rattle.std.specs.Prelude.{◌≡◌, ◌≢◌, ◌⊎◌, ◌↔◌, List, ℕ, [], Some};
ghost use Rattle.std.specs.Map.{keys_of};
ghost use Rattle.annex_base.specs.Lists.{Member, Each};
ghost use Rattle.union_merge.specs.LineSet.{IsLineSet, union, difference, set_of, text_of};
ghost use Rattle.union_merge.specs.Branch.{Files, IsBranch, lines_at, file_at, with_back, with_file, merged_file, merged_branch, merge_by_path, merged_branches, HasLinesOfBoth};

/// The union of two sets of lines has exactly the lines of both, whichever comes first, in whatever groups, and however
/// often (git-annex internals: branch files).
pub fn unions_have_the_lines_of_both()
    ensures set { (xs ys : List (List ℕ)) → IsLineSet xs → IsLineSet ys → IsLineSet (union xs ys) }
    ensures either { (xs ys : List (List ℕ)) (line : List ℕ) → Member line (union xs ys) ↔ (Member line xs ⊎ Member line ys) }
    ensures commutes { (xs ys : List (List ℕ)) → IsLineSet xs → IsLineSet ys → union xs ys ≡ union ys xs }
    ensures associates { (xs ys zs : List (List ℕ)) → IsLineSet xs → IsLineSet ys → IsLineSet zs → union (union xs ys) zs ≡ union xs (union ys zs) }
    ensures idempotent { (xs : List (List ℕ)) → IsLineSet xs → union xs xs ≡ xs }
    ensures alone { (xs : List (List ℕ)) → IsLineSet xs → union [] xs ≡ xs }
{}

/// The text of a set of lines is read back as that set.
pub fn texts_of_sets_read_back()
    ensures { (lines : List (List ℕ)) → IsLineSet lines → set_of (text_of lines) ≡ lines }
{}

/// The lines of one set that another lacks are a set, and make the other set the union.
pub fn differences_make_the_union()
    ensures set { (xs ys : List (List ℕ)) → IsLineSet xs → IsLineSet (difference xs ys) }
    ensures lacking { (xs ys : List (List ℕ)) (line : List ℕ) → Member line (difference xs ys) ↔ (Member line xs × ¬ Member line ys) }
    ensures union { (xs ys : List (List ℕ)) → IsLineSet xs → union xs (difference ys xs) ≡ union xs ys }
{}

/// A merge that goes path by path, and adds to each file those lines of the other branch's file that it lacks, leaves at
/// each path the lines of both. Where no file of the other branch is empty, it is the merge of the two branches.
pub fn merges_by_path_have_the_lines_of_both()
    ensures branch { (xs ys : Files) → IsBranch xs → IsBranch ys → IsBranch (merge_by_path xs ys) }
    ensures lines { (xs ys : Files) → IsBranch xs → IsBranch ys → HasLinesOfBoth xs ys (merge_by_path xs ys) }
    ensures whole { (xs ys : Files) → IsBranch xs → IsBranch ys → Each (λ f. f.1 ≢ []) ys → merge_by_path xs ys ≡ merged_branch xs ys }
{}

/// The merge of two branches has the files of both, each with exactly the lines of both, whichever branch comes first,
/// in whatever groups, and however often (git-annex internals: branch files).
pub fn merges_have_the_files_of_both()
    ensures branch { (xs ys : Files) → IsBranch xs → IsBranch ys → IsBranch (merged_branch xs ys) }
    ensures files { (xs ys : Files) (path : List ℕ) → Member path (keys_of (merged_branch xs ys)) ↔ (Member path (keys_of xs) ⊎ Member path (keys_of ys)) }
    ensures lines { (xs ys : Files) (path : List ℕ) → IsBranch xs → IsBranch ys → lines_at (merged_branch xs ys) path ≡ union (lines_at xs path) (lines_at ys path) }
    ensures commutes { (xs ys : Files) → IsBranch xs → IsBranch ys → merged_branch xs ys ≡ merged_branch ys xs }
    ensures associates { (xs ys zs : Files) → IsBranch xs → IsBranch ys → IsBranch zs → merged_branch (merged_branch xs ys) zs ≡ merged_branch xs (merged_branch ys zs) }
    ensures idempotent { (xs : Files) → IsBranch xs → merged_branch xs xs ≡ xs }
{}

/// Repositories that have merged the same branches, in whatever order and however often, have the same branch.
pub fn any_order_of_merges_gives_one_branch()
    ensures start { (start : Files) (xs ys : List Files) → IsBranch start → Each IsBranch xs → Each IsBranch ys → ((b : Files) → Member b xs ↔ Member b ys) → merged_branches start xs ≡ merged_branches start ys }
    ensures empty { (xs ys : List Files) → Each IsBranch xs → Each IsBranch ys → ((b : Files) → Member b xs ↔ Member b ys) → merged_branches [] xs ≡ merged_branches [] ys }
{}

/// A branch is told by what a look-up at each path finds.
pub fn branches_are_told_by_their_files()
    ensures { (xs ys : Files) → IsBranch xs → IsBranch ys → ((path : List ℕ) → file_at xs path ≡ file_at ys path) → xs ≡ ys }
{}

/// A file that is given lines has these, and the others have theirs. Given back what it had, the branch is as before
/// (git-annex internals: branch files).
pub fn files_are_changed_alone()
    ensures set { (files : Files) (path : List ℕ) → IsBranch files → IsLineSet (lines_at files path) }
    ensures there { (files : Files) (path : List ℕ) (lines : List (List ℕ)) → file_at (with_file files path lines) path ≡ Some lines }
    ensures other { (files : Files) (path other : List ℕ) (lines : List (List ℕ)) → other ≢ path → lines_at (with_file files path lines) other ≡ lines_at files other }
    ensures back { (files : Files) (path : List ℕ) (lines : List (List ℕ)) → IsBranch files → with_back (with_file files path lines) path (file_at files path) ≡ files }
{}

/// Lines that a file lacked and was given are taken off again, and the branch is as before.
pub fn new_lines_are_taken_off_again()
    ensures { (files : Files) (path : List ℕ) (own lines : List (List ℕ)) → IsBranch files → file_at files path ≡ Some own → difference lines own ≡ lines → with_file (merged_file files path lines) path (difference (lines_at (merged_file files path lines) path) lines) ≡ files }
{}
