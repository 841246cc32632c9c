//! Reading an expression from left to right, up to its first fault.
ghost use Rattle.std.specs.Prelude.{◌≡◌, false, if◌then◌else◌, [], ◌∷◌, ◌++◌, take, Some, None, IfOk, IfNone, IfSome};
ghost use Rattle.std.specs.Option.{option_map};
ghost use Rattle.wanted_expr.specs.Expressions.{outermost};
ghost use Rattle.wanted_expr.specs.Formula.{Atom, combination, formula_of};
ghost use Rattle.wanted_expr.specs.Reading.{above, after_close, after_operator, after_paren, completion, deeper, finish, has_pending, is_group, no_term, open_count, open_places, opens, pending_of, ready, settle, step, without_group, reading_state, Gives, IsCounted, Answers};

use crate::data::{Tree, Word};
use crate::fault::ExprFault;
use crate::lexeme::{Lexeme, Operator, next_lexeme};
use annex_base::NoMemory;
use std::alloc::Global;

/// The greatest number of `(` and `not` that are open at once (own).
const DEPTH_LIMIT: usize = 64;

/// What awaits its term: `not`, a `(` at its place, or a term with an operator behind it.
#[derive(Debug, Drop)]
enum Frame {
    Not,
    Paren(usize),
    Left(Tree, Operator),
}

/// What was read so far: what awaits its term, the innermost last, the expression since the innermost `(` where that is
/// one, and how many `(` and `not` are open.
#[derive(Debug, Drop)]
struct Reading {
    stack: Vec<Frame>,
    term: Option<Tree>,
    depth: usize,
}

fn opens(frame: &Frame) -> usize
    ensures { result ≡ opens (pending_of frame.now) }
{
    match frame {
        Frame::Not | Frame::Paren(_) => 1,
        Frame::Left(_, _) => 0,
    }
}

fn joined(alloc: Global, left: Tree, operator: Operator, right: Tree) -> Result<Tree, NoMemory>
    ensures { IfOk result (λ t. formula_of t ≡ combination (Some operator) (formula_of left) (formula_of right)) }
{
    let left = Box::new(alloc, left)?;
    let right = Box::new(alloc, right)?;
    match operator {
        Operator::And => Ok(Tree::Both(left, right)),
        Operator::Or => Ok(Tree::Either(left, right)),
    }
}

// What a term makes of the frame that awaited it. Parentheses leave no trace.
fn completed(alloc: Global, frame: Frame, term: Tree) -> Result<Tree, NoMemory>
    ensures { IfOk result (λ t. formula_of t ≡ completion (pending_of frame) (formula_of term)) }
{
    match frame {
        Frame::Not => Ok(Tree::Not(Box::new(alloc, term)?)),
        Frame::Paren(_) => Ok(term),
        Frame::Left(left, operator) => joined(alloc, left, operator, term),
    }
}

// Whether the innermost frame is none of the `(`.
fn has_pending(stack: &[Frame]) -> bool
    ensures { result ≡ has_pending (above [] stack.now) }
{
    match stack.split_last() {
        None => false,
        Some((last, _)) => !is_group(last),
    }
}

fn is_group(frame: &Frame) -> bool
    ensures { result ≡ is_group (pending_of frame.now) }
{
    match frame {
        Frame::Paren(_) => true,
        Frame::Not | Frame::Left(_, _) => false,
    }
}

// The innermost frame, unless it is a `(`.
fn pop_pending(stack: &mut Vec<Frame>) -> Option<Frame>
    ensures none { IfNone result (stack.new.items ≡ stack.old.items) }
    ensures settled { IfNone result (has_pending (above [] stack.old.items) ≡ false) }
    ensures popped { IfSome result (λ f. stack.old.items ≡ stack.new.items ++ f ∷ []) }
    ensures pending { IfSome result (λ f. is_group (pending_of f) ≡ false) }
{
    if has_pending(stack) {
        return stack.pop();
    }
    None
}

// A term completes what awaited it since the innermost `(`.
fn settle(
    alloc: Global,
    mut stack: Vec<Frame>,
    mut depth: usize,
    mut term: Tree,
) -> Result<Reading, NoMemory>
    requires { depth ≡ open_count (above [] stack.items) }
    ensures state { IfOk result (λ r. reading_state r ≡ settle (formula_of term) (above [] stack.items)) }
    ensures counted { IfOk result (λ r. IsCounted r) }
{
    while let Some(frame) = pop_pending(&mut stack) {
        depth -= opens(&frame);
        term = completed(alloc, frame, term)?;
    }
    Ok(Reading {
        stack,
        term: Some(term),
        depth,
    })
}

// What the next term completes, and how many `(` and `not` are open: no word between two terms means `and` (own).
fn ready(reading: Reading) -> Result<(Vec<Frame>, usize), NoMemory>
    requires { IsCounted reading }
    ensures state { IfOk result (λ x. above [] x.0.items ≡ ready (reading_state reading)) }
    ensures counted { IfOk result (λ x. x.1 ≡ open_count (above [] x.0.items)) }
{
    let Reading {
        mut stack,
        term,
        depth,
    } = reading;
    match term {
        None => Ok((stack, depth)),
        Some(tree) => {
            stack.push(Frame::Left(tree, Operator::And))?;
            Ok((stack, depth))
        }
    }
}

fn with_word(alloc: Global, reading: Reading, word: Word) -> Result<Reading, NoMemory>
    requires { IsCounted reading }
    ensures state { IfOk result (λ r. reading_state r ≡ settle (Atom word) (ready (reading_state reading))) }
    ensures counted { IfOk result (λ r. IsCounted r) }
{
    let (stack, depth) = ready(reading)?;
    settle(alloc, stack, depth, Tree::Single(word))
}

// One more `(` or `not` is open.
fn deeper(reading: Reading, frame: Frame, at: usize) -> Result<Reading, ExprFault>
    requires counted { IsCounted reading }
    requires opens { opens (pending_of frame) ≡ 1 }
    ensures state { Gives reading_state result (deeper at (pending_of frame) (ready (reading_state reading))) }
    ensures counted { IfOk result (λ r. IsCounted r) }
{
    let (mut stack, depth) = ready(reading)?;
    if depth >= DEPTH_LIMIT {
        return Err(ExprFault::TooDeep { at });
    }
    stack.push(frame)?;
    Ok(Reading {
        stack,
        term: None,
        depth: depth + 1,
    })
}

fn with_operator(reading: Reading, operator: Operator, at: usize) -> Result<Reading, ExprFault>
    requires { IsCounted reading }
    ensures state { Gives reading_state result (after_operator at operator (reading_state reading)) }
    ensures counted { IfOk result (λ r. IsCounted r) }
{
    let Reading {
        mut stack,
        term,
        depth,
    } = reading;
    match term {
        None => Err(ExprFault::NoOperand { at }),
        Some(tree) => {
            stack.push(Frame::Left(tree, operator))?;
            Ok(Reading {
                stack,
                term: None,
                depth,
            })
        }
    }
}

// The first `(` that is open.
fn first_paren(stack: &[Frame]) -> Option<usize>
    ensures { result ≡ outermost (open_places (above [] stack.now)) }
{
    let mut rest = stack;
    while let Some((first, after)) = rest.split_first() {
        if let Frame::Paren(at) = first {
            return Some(*at);
        }
        rest = after;
    }
    None
}

// A `)` where a term must stand.
fn no_term(stack: &[Frame], at: usize) -> ExprFault
    ensures { result ≡ no_term at (open_places (above [] stack.now)) }
{
    match first_paren(stack) {
        None => ExprFault::BadParen { at },
        Some(_) => ExprFault::NoOperand { at },
    }
}

// How many frames stand before the innermost one, where that is a `(`.
fn before_group(stack: &[Frame]) -> Option<usize>
    ensures { without_group (above [] stack.now) ≡ option_map (λ n. above [] (take n stack.now)) result }
{
    match stack.split_last() {
        None => None,
        Some((last, rest)) => {
            if is_group(last) {
                return Some(rest.len());
            }
            None
        }
    }
}

fn pop_group(stack: &mut Vec<Frame>) -> bool
    ensures { without_group (above [] stack.old.items) ≡ (if result then Some (above [] stack.new.items) else None) }
{
    match before_group(stack) {
        None => false,
        Some(len) => {
            stack.truncate(len);
            true
        }
    }
}

// A `)` behind a term, which ends what the innermost `(` began.
fn close(
    alloc: Global,
    mut stack: Vec<Frame>,
    depth: usize,
    term: Tree,
    at: usize,
) -> Result<Reading, ExprFault>
    requires { depth ≡ open_count (above [] stack.items) }
    ensures state { Gives reading_state result (after_paren at (formula_of term) (above [] stack.items)) }
    ensures counted { IfOk result (λ r. IsCounted r) }
{
    if !pop_group(&mut stack) {
        return Err(ExprFault::BadParen { at });
    }
    Ok(settle(alloc, stack, depth - 1, term)?)
}

fn with_close(alloc: Global, reading: Reading, at: usize) -> Result<Reading, ExprFault>
    requires { IsCounted reading }
    ensures state { Gives reading_state result (after_close at (reading_state reading)) }
    ensures counted { IfOk result (λ r. IsCounted r) }
{
    let Reading { stack, term, depth } = reading;
    match term {
        None => Err(no_term(&stack, at)),
        Some(tree) => close(alloc, stack, depth, tree, at),
    }
}

fn take(alloc: Global, reading: Reading, lexeme: Lexeme, at: usize) -> Result<Reading, ExprFault>
    requires { IsCounted reading }
    ensures state { Gives reading_state result (step at lexeme (reading_state reading)) }
    ensures counted { IfOk result (λ r. IsCounted r) }
{
    match lexeme {
        Lexeme::Open => deeper(reading, Frame::Paren(at), at),
        Lexeme::Close => with_close(alloc, reading, at),
        Lexeme::Not => deeper(reading, Frame::Not, at),
        Lexeme::Infix(operator) => with_operator(reading, operator, at),
        Lexeme::Term(word) => Ok(with_word(alloc, reading, word)?),
    }
}

// The first `(` that is never closed comes after all other faults.
fn finish(reading: Reading, end: usize) -> Result<Tree, ExprFault>
    ensures { Gives (λ t. formula_of t) result (finish end (reading_state reading)) }
{
    let Reading {
        stack,
        term,
        depth: _,
    } = reading;
    match (term, first_paren(&stack)) {
        (None, _) => Err(ExprFault::NoOperand { at: end }),
        (Some(tree), None) => Ok(tree),
        (Some(_), Some(at)) => Err(ExprFault::BadParen { at }),
    }
}

/// The tree of the whole text, or its first fault.
pub(crate) fn read(alloc: Global, text: &[u8]) -> Result<Tree, ExprFault>
    ensures { Answers text.now result }
{
    let mut reading = Reading {
        stack: Vec::new(alloc),
        term: None,
        depth: 0,
    };
    let mut rest = text;
    while let Some((at, lexeme, after)) = next_lexeme(alloc, text.len(), rest)? {
        reading = take(alloc, reading, lexeme, at)?;
        rest = after;
    }
    finish(reading, text.len())
}
