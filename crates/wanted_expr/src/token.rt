//! The tokens of an expression.
ghost use Rattle.std.specs.Prelude.{◌≡◌, ◌≤◌, ◌<◌, length, IsTrue, IfOk, IfSome, None};
ghost use Rattle.std.specs.Option.{option_map};
ghost use Rattle.wanted_expr.specs.Pieces.{after_spaces, ends_word, word_at, piece_at};
ghost use Rattle.wanted_expr.specs.Tokens.{begins_word, piece_of, GivesPiece};

use crate::fault::ExprFault;
use std::alloc::Global;

/// A token: quotes are taken off a word before it is judged (own).
#[derive(Debug, Drop)]
pub(crate) enum Token {
    Open,
    Close,
    Word(Vec<u8>),
}

fn ends_word(b: u8) -> bool
    ensures { result ≡ ends_word b }
{
    b == b' ' || b == b'(' || b == b')'
}

fn after_spaces(bytes: &[u8]) -> &[u8]
    ensures value { result.now ≡ after_spaces bytes.now }
    ensures within { length result.now ≤ length bytes.now }
{
    let mut rest = bytes;
    while let Some((first, after)) = rest.split_first() {
        if *first != b' ' {
            return rest;
        }
        rest = after;
    }
    rest
}

// A word without its quotes, and what follows it; the quote that is open, if one is, stands in a place of its own.
fn word_of(alloc: Global, total: usize, bytes: &[u8]) -> Result<(Vec<u8>, &[u8]), ExprFault>
    requires within { length bytes.now ≤ total }
    requires begins { IsTrue (begins_word bytes.now) }
    ensures exact { GivesPiece (λ x. (x.0.items, x.1.now)) result (word_at total None bytes.now) }
    ensures shorter { IfOk result (λ x. length x.1.now < length bytes.now) }
{
    let mut word = Vec::new(alloc);
    let mut rest = bytes;
    let mut quote: Option<usize> = None;
    while let Some((first, after)) = rest.split_first() {
        if quote.is_none() && ends_word(*first) {
            break;
        }
        if *first == b'"' {
            quote = match quote {
                None => Some(total - rest.len()),
                Some(_) => None,
            };
        } else {
            word.push(*first)?;
        }
        rest = after;
    }
    match quote {
        Some(at) => Err(ExprFault::OpenQuote { at }),
        None => Ok((word, rest)),
    }
}

/// The first token, where it begins and what follows it; none at the end.
pub(crate) fn next_token(
    alloc: Global,
    total: usize,
    bytes: &[u8],
) -> Result<Option<(usize, Token, &[u8])>, ExprFault>
    requires { length bytes.now ≤ total }
    ensures exact { GivesPiece (λ o. option_map (λ x. (x.0, piece_of x.1, x.2.now)) o) result (piece_at total bytes.now) }
    ensures shorter { IfOk result (λ o. IfSome o (λ x. length x.2.now < length bytes.now)) }
{
    let rest = after_spaces(bytes);
    let Some((first, after)) = rest.split_first() else {
        return Ok(None);
    };
    let at = total - rest.len();
    match *first {
        b'(' => Ok(Some((at, Token::Open, after))),
        b')' => Ok(Some((at, Token::Close, after))),
        _ => {
            let (word, after) = word_of(alloc, total, rest)?;
            Ok(Some((at, Token::Word(word), after)))
        }
    }
}
