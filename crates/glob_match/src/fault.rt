//! Why a text is no glob.
use std::alloc::{AllocError, AllocFailed};
use thiserror::Error;

/// Why a text is no glob (own).
#[derive(Clone, Copy, Debug, PartialEq, Eq, Error)]
pub enum GlobFault {
    /// The `[` at this byte, counted from 0, has no closing `]`.
    #[error("open set at {at}")]
    OpenSet { at: usize },
    /// Memory ran out.
    #[error("out of memory")]
    NoMemory,
}

impl From<AllocError> for GlobFault {
    ghost use Rattle.std.specs.Prelude.{◌≡◌};
    ghost use Rattle.glob_match.specs.declared.fault.GlobFault.TheVariants as faults;

    ghost from_gives = { λ _ e. e ≡ faults.NoMemory };

    fn from(_e: AllocError) -> GlobFault {
        GlobFault::NoMemory
    }
}

impl<T: Drop> From<AllocFailed<T>> for GlobFault {
    ghost use Rattle.std.specs.Prelude.{◌≡◌};
    ghost use Rattle.glob_match.specs.declared.fault.GlobFault.TheVariants as faults;

    ghost from_gives = { λ _ e. e ≡ faults.NoMemory };

    fn from(_e: AllocFailed<T>) -> GlobFault {
        GlobFault::NoMemory
    }
}
