//! The lexemes of an expression: its parentheses, operators and words.
ghost use Rattle.std.specs.Prelude.{◌≡◌, ◌≤◌, ◌<◌, false, length, IfOk, IfSome, MatchOption};
ghost use Rattle.wanted_expr.specs.Expressions.{IsLexeme, is_operator};
ghost use Rattle.wanted_expr.specs.Pieces.{Written};
ghost use Rattle.wanted_expr.specs.Tokens.{piece_of, ReadsPiece, ReadsNext};

use crate::data::Word;
use crate::fault::ExprFault;
use crate::token::{Token, next_token};
use crate::word::{WordFault, read_word, same};
use std::alloc::Global;

/// What stands between two terms.
#[derive(Clone, Copy, Debug, PartialEq, Eq)]
pub enum Operator {
    And,
    Or,
}

/// A parenthesis, an operator or a word (git-annex-preferred-content).
#[derive(Debug, Drop)]
pub enum Lexeme {
    Open,
    Close,
    Not,
    Infix(Operator),
    Term(Word),
}

fn read_operator(text: &[u8]) -> Option<Lexeme>
    ensures { MatchOption result (is_operator text.now ≡ false) (λ l. IsLexeme (Written text.now) l) }
{
    if same(text, b"and") {
        return Some(Lexeme::Infix(Operator::And));
    }
    if same(text, b"or") {
        return Some(Lexeme::Infix(Operator::Or));
    }
    if same(text, b"not") {
        return Some(Lexeme::Not);
    }
    None
}

// A word that is no operator.
fn term(alloc: Global, text: &[u8], at: usize) -> Result<Lexeme, ExprFault>
    requires { is_operator text.now ≡ false }
    ensures { ReadsPiece (Written text.now) at result }
{
    match read_word(alloc, text) {
        Ok(word) => Ok(Lexeme::Term(word)),
        Err(WordFault::Unknown) => Err(ExprFault::UnknownWord { at }),
        Err(WordFault::Value) => Err(ExprFault::BadValue { at }),
        Err(WordFault::NoMemory) => Err(ExprFault::NoMemory),
    }
}

fn word_lexeme(alloc: Global, text: &[u8], at: usize) -> Result<Lexeme, ExprFault>
    ensures { ReadsPiece (Written text.now) at result }
{
    match read_operator(text) {
        Some(lexeme) => Ok(lexeme),
        None => term(alloc, text, at),
    }
}

fn lexeme_of(alloc: Global, token: Token, at: usize) -> Result<Lexeme, ExprFault>
    ensures { ReadsPiece (piece_of token) at result }
{
    match token {
        Token::Open => Ok(Lexeme::Open),
        Token::Close => Ok(Lexeme::Close),
        Token::Word(text) => word_lexeme(alloc, &text, at),
    }
}

/// The first lexeme, where it begins and what follows it; none at the end.
pub(crate) fn next_lexeme(
    alloc: Global,
    total: usize,
    bytes: &[u8],
) -> Result<Option<(usize, Lexeme, &[u8])>, ExprFault>
    requires { length bytes.now ≤ total }
    ensures exact { ReadsNext (λ x. (x.0, x.1, x.2.now)) total bytes.now result }
    ensures shorter { IfOk result (λ o. IfSome o (λ x. length x.2.now < length bytes.now)) }
{
    match next_token(alloc, total, bytes)? {
        None => Ok(None),
        Some((at, token, after)) => Ok(Some((at, lexeme_of(alloc, token, at)?, after))),
    }
}
