//! Why a job doesn't begin.

/// Why a job doesn't begin (own).
#[derive(Clone, Copy, Debug, PartialEq, Eq)]
pub enum BeginRefused {
    /// Four jobs run.
    NoSlot,
    NoMemory,
}
