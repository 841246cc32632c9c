//! Expressions.
ghost use Rattle.std.specs.Prelude.{◌≡◌, ◌<◌, ◌⊎◌, false, length, IfErr, IfOk, IsErrOf, MatchResult};
ghost use Rattle.wanted_expr.specs.declared.fault.ExprFault.{ExprFault};
ghost use Rattle.wanted_expr.specs.Expressions.{IsCause, IsExpression, IsFirstFault};
ghost use Rattle.wanted_expr.specs.Finding.{is_memory};
ghost use Rattle.wanted_expr.specs.Formula.{Atom, Formula};
ghost use Rattle.wanted_expr.specs.Truth.{has_groupwanted, holds};
ghost use Rattle.wanted_expr.specs.Wanted.{formula_read};
ghost use Rattle.wanted_expr.specs.declared.data.Word.TheVariants as words;

use crate::data::{Facts, Tree, Word};
use crate::fault::ExprFault;
use crate::reading::read;
use crate::truth::{has_groupwanted, tree_holds};
use annex_base::NoMemory;
use glob_match::{globs_are_read, globs_are_unique};
use std::alloc::Global;
use std::marker::Model;

/// The greatest length of an expression in bytes (own).
const TEXT_LIMIT: usize = 4096;

/// A preferred content expression, which contracts see as its formula (git-annex-preferred-content).
#[derive(Debug, Drop)]
pub struct Expr {
    tree: Tree,
}

impl Model for Expr {
    ghost use Rattle.wanted_expr.specs.Formula.{Formula, formula_of};
    ghost use Rattle.wanted_expr.specs.FormulaCode.{formula_code};

    ghost Value = { Formula };

    ghost coded = { formula_code };

    ghost view = { λ e. formula_of e.tree };
}

impl Expr {
    /// The expression that the text spells, all of the text; or its first fault from left to right, where TooLong comes
    /// before all others, and a `(` that is never closed after them.
    pub fn parse(alloc: Global, text: &str) -> Result<Expr, ExprFault>
        ensures found { IfOk result (λ e. IsExpression text.now e) }
        ensures only { (f : Formula) → IsExpression text.now f → MatchResult result (λ e. e ≡ f) (λ e. e ≡ ExprFault.NoMemory) }
        ensures fault { IfErr result (λ e. IsCause text.now e) }
        ensures first { (e : ExprFault) → IsFirstFault text.now e → IsErrOf result e ⊎ IsErrOf result ExprFault.NoMemory }
        ensures long { 4096 < length text.now → IsErrOf result ExprFault.TooLong }
    {
        if text.len() > TEXT_LIMIT {
            return Err(ExprFault::TooLong);
        }
        // for the proof that a text has one formula at most, or one first fault: each of its globs is one list of items
        globs_are_unique();
        match read(alloc, text.as_bytes()) {
            Ok(tree) => Ok(Expr { tree }),
            Err(fault) => Err(fault),
        }
    }

    /// The expression `present`. It takes no memory.
    pub fn present() -> Expr
        ensures { result ≡ Atom words.Present }
    {
        Expr {
            tree: Tree::Single(Word::Present),
        }
    }

    /// What the text of an expression says; one outside the grammar reads as `present` (own).
    pub fn of_text(alloc: Global, text: &[u8]) -> Result<Expr, NoMemory>
        ensures { IfOk result (λ e. e ≡ formula_read text.now) }
    {
        // for the proof that a text says one thing at most, and that this is what is read of it
        globs_are_unique();
        globs_are_read();
        if text.len() > TEXT_LIMIT {
            return Ok(Expr::present());
        }
        match read(alloc, text) {
            Ok(tree) => Ok(Expr { tree }),
            Err(fault) => instead_of(fault),
        }
    }

    /// Whether the expression holds. It takes no memory.
    pub fn eval(&self, facts: &Facts) -> bool
        ensures { result ≡ holds self.now facts.now }
    {
        tree_holds(&self.tree, facts)
    }

    /// Whether `groupwanted` stands in the expression: the expression of a group may not have it (own).
    pub fn has_groupwanted(&self) -> bool
        ensures { result ≡ has_groupwanted self.now }
    {
        has_groupwanted(&self.tree)
    }
}

fn is_memory(fault: ExprFault) -> bool
    ensures { result ≡ is_memory fault }
{
    matches!(fault, ExprFault::NoMemory)
}

// What a text with this fault reads as.
fn instead_of(fault: ExprFault) -> Result<Expr, NoMemory>
    ensures { IfOk result (λ e. (is_memory fault ≡ false) × (e ≡ Atom words.Present)) }
{
    if is_memory(fault) {
        Err(NoMemory)
    } else {
        Ok(Expr::present())
    }
}
