//! Laws on globs: each is the contract of a function that does nothing.
ghost use Rattle.std.specs.Prelude.{◌≡◌, ◌↔◌, List, None, Some, ℕ, IsTrue};
ghost use Rattle.glob_match.specs.declared.item.Item.{Item};
ghost use Rattle.glob_match.specs.Glob.{IsGlob, IsMatch, glob_matches};
ghost use Rattle.glob_match.specs.Spelled.{items_from};

/// A text spells one list of items at most.
pub fn globs_are_unique()
    ensures { (a b : List Item) (text : List ℕ) → IsGlob a text → IsGlob b text → a ≡ b }
{}

/// The test of a match says whether there is a cut.
pub fn tests_are_matches()
    ensures { (items : List Item) (text : List ℕ) → IsTrue (glob_matches items text) ↔ IsMatch items text }
{}

/// What is read of a text from left to right is the list of items that it spells, and nothing where it spells none.
pub fn globs_are_read()
    ensures { (items : List Item) (text : List ℕ) → (items_from None text ≡ Some items) ↔ IsGlob items text }
{}
