//! Laws of bundles.

ghost use Rattle.std.specs.Prelude.{◌≡◌, List, ℕ};
ghost use Rattle.annex_base.specs.Lists.{Each};
ghost use Rattle.union_merge.specs.Branch.{Files, IsBranch};
ghost use Rattle.branch_bundle.specs.Bundle.{IsByte, IsBundle, IsFirstWrong, bundle_text};

use union_merge::texts_of_sets_read_back;

/// Each branch has one bundle, a text is the bundle of at most one branch, and a text that is none goes wrong at one
/// place.
pub fn bundles_are_exact()
    ensures bundle { (files : Files) → IsBranch files → IsBundle (bundle_text files) files }
    ensures one_text { (files : Files) (x y : List ℕ) → IsBundle x files → IsBundle y files → x ≡ y }
    ensures one_branch { (text : List ℕ) (xs ys : Files) → IsBundle text xs → IsBundle text ys → xs ≡ ys }
    ensures one_place { (text : List ℕ) (p q : ℕ) → Each IsByte text → IsFirstWrong text p → IsFirstWrong text q → p ≡ q }
{
    // For the proof: the lines of a file are told by their text.
    texts_of_sets_read_back();
}
