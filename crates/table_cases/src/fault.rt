//! Why a line is none of a table.

use annex_base::NoMemory;
use std::alloc::{AllocError, AllocFailed};
use thiserror::Error;

/// Why a line is none of a table.
#[derive(Clone, Copy, Debug, PartialEq, Eq, Error)]
pub enum TableFault {
    #[error("no line of a table")]
    Wrong,
    #[error("out of memory")]
    NoMemory,
}

impl From<NoMemory> for TableFault {
    fn from(_e: NoMemory) -> TableFault {
        TableFault::NoMemory
    }
}

impl From<AllocError> for TableFault {
    fn from(_e: AllocError) -> TableFault {
        TableFault::NoMemory
    }
}

impl<T: Drop> From<AllocFailed<T>> for TableFault {
    fn from(_e: AllocFailed<T>) -> TableFault {
        TableFault::NoMemory
    }
}
