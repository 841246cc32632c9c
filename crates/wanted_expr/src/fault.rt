//! Why a text is no expression.
use annex_base::NoMemory;
use std::alloc::{AllocError, AllocFailed};
use thiserror::Error;

/// Why a text is no expression (own). A place counts bytes from 0.
#[derive(Clone, Copy, Debug, PartialEq, Eq, Error)]
pub enum ExprFault {
    /// A `(` that is never closed, the first of several, or a `)` that was never opened.
    #[error("bad parenthesis at {at}")]
    BadParen { at: usize },
    /// A term must stand here, and none does.
    #[error("no operand at {at}")]
    NoOperand { at: usize },
    /// What stands before the first `=` of this word isn't a word of the language.
    #[error("unknown word at {at}")]
    UnknownWord { at: usize },
    /// The value of this word is missing, or is none that it may have.
    #[error("bad value at {at}")]
    BadValue { at: usize },
    /// A quote that is never closed.
    #[error("open quote at {at}")]
    OpenQuote { at: usize },
    /// The 65th `(` or `not` that is open at once.
    #[error("too deep at {at}")]
    TooDeep { at: usize },
    /// The text has more than 4,096 bytes.
    #[error("too long")]
    TooLong,
    /// Memory ran out.
    #[error("out of memory")]
    NoMemory,
}

impl From<AllocError> for ExprFault {
    ghost use Rattle.std.specs.Prelude.{◌≡◌};
    ghost use Rattle.wanted_expr.specs.declared.fault.ExprFault.TheVariants as faults;

    ghost from_gives = { λ _ e. e ≡ faults.NoMemory };

    fn from(_e: AllocError) -> ExprFault {
        ExprFault::NoMemory
    }
}

impl<T: Drop> From<AllocFailed<T>> for ExprFault {
    ghost use Rattle.std.specs.Prelude.{◌≡◌};
    ghost use Rattle.wanted_expr.specs.declared.fault.ExprFault.TheVariants as faults;

    ghost from_gives = { λ _ e. e ≡ faults.NoMemory };

    fn from(_e: AllocFailed<T>) -> ExprFault {
        ExprFault::NoMemory
    }
}

impl From<NoMemory> for ExprFault {
    ghost use Rattle.std.specs.Prelude.{◌≡◌};
    ghost use Rattle.wanted_expr.specs.declared.fault.ExprFault.TheVariants as faults;

    ghost from_gives = { λ _ e. e ≡ faults.NoMemory };

    fn from(_e: NoMemory) -> ExprFault {
        ExprFault::NoMemory
    }
}
