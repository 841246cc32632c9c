//! Laws on expressions: each is the contract of a function that does nothing.
ghost use Rattle.std.specs.Prelude.{◌≡◌, ◌↔◌, ◌++◌, [], Bool, IsTrue, List, None, Ok, Some, codes, true, ℕ};
ghost use Rattle.std.specs.Str.{is_utf8};
ghost use Rattle.annex_base.specs.Settings.{Settings};
ghost use Rattle.wanted_expr.specs.declared.fault.ExprFault.{ExprFault};
ghost use Rattle.wanted_expr.specs.Expressions.{IsExpression, IsFirstFault};
ghost use Rattle.wanted_expr.specs.Formula.{Formula};
ghost use Rattle.wanted_expr.specs.Parsed.{formula_in};
ghost use Rattle.wanted_expr.specs.Pieces.{Piece, IsTextPiece, piece_at};
ghost use Rattle.wanted_expr.specs.Wanted.{required, wants};

use glob_match::{globs_are_read, globs_are_unique};

/// A text says one thing at most.
pub fn expressions_have_one_formula()
    ensures { (text : List ℕ) (f g : Formula) → IsExpression text f → IsExpression text g → f ≡ g }
{
    // for the proof that the text of a glob spells one list of items at most
    globs_are_unique();
}

/// A text has one first fault at most.
pub fn first_faults_are_unique()
    ensures { (text : List ℕ) (d e : ExprFault) → IsFirstFault text d → IsFirstFault text e → d ≡ e }
{
    // for the proof that the text of a glob spells one list of items at most
    globs_are_unique();
}

/// An expression has no fault.
pub fn expressions_have_no_fault()
    ensures { (text : List ℕ) (f : Formula) (e : ExprFault) → IsExpression text f → IsFirstFault text e → ⊥ }
{
    // for the proof that the text of a glob spells one list of items at most
    globs_are_unique();
}

/// The words of a UTF-8 text are UTF-8, and so is what follows a piece. So no glob of an expression is refused because
/// it isn't.
pub fn pieces_are_text()
    ensures { (total at : ℕ) (bytes after : List ℕ) (piece : Piece) → IsTrue (is_utf8 bytes) → piece_at total bytes ≡ Ok (Some (at, piece, after)) → IsTextPiece piece × IsTrue (is_utf8 after) }
{}

/// The value of a word that is UTF-8 is UTF-8.
pub fn values_are_text()
    ensures { (name value : List ℕ) → IsTrue (is_utf8 (name ++ codes "=" ++ value)) → IsTrue (is_utf8 value) }
{}

/// Without an expression a repository wants every content and requires none (own).
pub fn empty_texts_want_all_and_require_none()
    ensures wants { (s : Settings) (repo key : List ℕ) (paths : List (List ℕ)) (gone : Bool) → s.preferred repo ≡ [] → wants s repo key paths gone ≡ true }
    ensures required { (s : Settings) (repo key : List ℕ) (paths : List (List ℕ)) → s.required repo ≡ [] → required s repo key paths ≡ None }
{}

/// What is read of a text from left to right is the formula that it says, and nothing where it is outside the grammar.
pub fn formulas_are_read()
    ensures { (text : List ℕ) (f : Formula) → (formula_in text ≡ Some f) ↔ IsExpression text f }
{
    // for the proof that a glob is read as it is spelled
    globs_are_read();
}
