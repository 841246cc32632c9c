//! The faults of texts that spell no key.
use std::alloc::{AllocError, AllocFailed};
use thiserror::Error;

/// Why a text is no key, or a file name that of none (own). A place counts bytes from 0: BadEscape's in the file name,
/// each other in the text that the name stands for.
#[derive(Clone, Copy, Debug, PartialEq, Eq, Error)]
pub enum KeyFault {
    /// There is no `--` in the text.
    #[error("no two dashes")]
    NoDashes,
    /// What stands before the first dash is no backend.
    #[error("bad backend")]
    BadBackend,
    /// At the number of a field that is none, or at the byte where another letter must stand.
    #[error("bad field at {at}")]
    BadField { at: usize },
    /// Nothing follows the `--` before the name.
    #[error("empty name")]
    EmptyName,
    /// The text has more than 1,024 bytes.
    #[error("too long")]
    TooLong,
    /// A file name has a `&` that isn't followed by `a`, `s` or `c`, or a `:` or `/`.
    #[error("bad escape at {at}")]
    BadEscape { at: usize },
    /// The name has a newline, or stops being UTF-8.
    #[error("bad name at {at}")]
    BadName { at: usize },
    /// Memory ran out.
    #[error("out of memory")]
    NoMemory,
}

impl From<AllocError> for KeyFault {
    ghost use Rattle.std.specs.Prelude.{◌≡◌};
    ghost use Rattle.annex_key.specs.declared.fault.KeyFault.TheVariants as faults;

    ghost from_gives = { λ _ e. e ≡ faults.NoMemory };

    fn from(_e: AllocError) -> KeyFault {
        KeyFault::NoMemory
    }
}

impl<T: Drop> From<AllocFailed<T>> for KeyFault {
    ghost use Rattle.std.specs.Prelude.{◌≡◌};
    ghost use Rattle.annex_key.specs.declared.fault.KeyFault.TheVariants as faults;

    ghost from_gives = { λ _ e. e ≡ faults.NoMemory };

    fn from(_e: AllocFailed<T>) -> KeyFault {
        KeyFault::NoMemory
    }
}
