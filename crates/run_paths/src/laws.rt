//! The law of trees and their marks: the contract of a function that does nothing.
ghost use Rattle.std.specs.Prelude.{◌≡◌, ℕ, ◌+◌, ◌≤◌, List, [], ◌∷◌, ◌++◌, take};
ghost use Rattle.annex_base.specs.Lists.{Each};
ghost use Rattle.run_data.specs.declared.run.TreeMark.{TreeMark};
ghost use Rattle.run_model.specs.Run.{tree_at};
ghost use Rattle.run_paths.specs.Paths.{IndexView, IsIndexOf, with_marks};

/// The tree at a place is that of all marks, where none stands behind the place; an index of marks is one of them with a mark more, and
/// one of some first marks is one of more of them.
pub fn trees_have_all_marks_before()
    ensures all { (marks : List TreeMark) (place : ℕ) → Each (λ mark. mark.place ≤ place) marks → tree_at marks place ≡ with_marks [] marks }
    ensures more { (marks : List TreeMark) (mark : TreeMark) (index : IndexView) → IsIndexOf marks index → IsIndexOf (marks ++ mark ∷ []) index }
    ensures further { (marks : List TreeMark) (count more : ℕ) (index : IndexView) → IsIndexOf (take count marks) index → IsIndexOf (take (count + more) marks) index }
{}
