//! Preferred content expressions: reading them, and whether they hold.
#![tactic(auto)]

mod crossing;
mod data;
mod expr;
mod fault;
mod laws;
mod lexeme;
mod reading;
mod token;
mod truth;
mod word;

pub use data::{Among, Claimant, Facts, Member, Word};
pub use expr::Expr;
pub use fault::ExprFault;
pub use laws::{
    empty_texts_want_all_and_require_none, expressions_have_no_fault, expressions_have_one_formula,
    first_faults_are_unique, formulas_are_read, pieces_are_text, values_are_text,
};
pub use lexeme::{Lexeme, Operator};
