//! Why a line, or a text, is no part of a script.
ghost use Rattle.std.specs.Prelude.{◌≡◌};
ghost use Rattle.script_forms.specs.Limits.{quantity_name, limit_of};

use annex_base::NoMemory;
use std::alloc::{AllocError, AllocFailed};
use thiserror::Error;

/// Why a text is no script.
#[derive(Clone, Copy, Debug, PartialEq, Eq, Error)]
pub enum ScriptFault {
    /// A line, numbered from 1, is wrong at a byte, numbered from 0: at the first byte of its first wrong word, or at
    /// its length where a word is missing.
    #[error("bad line {line}, byte {byte}")]
    BadLine { line: u64, byte: u64 },
    /// A counted quantity passes its limit.
    #[error("too much")]
    TooMuch { quantity: Quantity },
    #[error("out of memory")]
    NoMemory,
}

/// Why a line can't stand where it does.
#[derive(Clone, Copy, Debug, PartialEq, Eq)]
pub enum LineFault {
    /// It is wrong at this byte.
    Wrong { byte: u64 },
    /// It passes the limit of a quantity.
    Past { quantity: Quantity },
    NoMemory,
}

/// What is counted, and limited (own).
#[derive(Clone, Copy, Debug, PartialEq, Eq)]
pub enum Quantity {
    /// `repo` lines, at most 16
    Repositories,
    /// The bytes of one content, at most 16,777,216
    Content,
    /// The bytes of all contents of `have`, `part`, `damage` and `add` lines together, at most 268,435,456
    Contents,
    /// The paths of the tree, at most 4,096
    Files,
    /// The milliseconds of all `wait` lines together, at most 1,000,000,000,000
    Time,
}

impl Quantity {
    /// Its name, as a report says it.
    pub fn name(self) -> &'static str
        ensures { result.now ≡ quantity_name self }
    {
        match self {
            Quantity::Repositories => "repositories",
            Quantity::Content => "content",
            Quantity::Contents => "contents",
            Quantity::Files => "files",
            Quantity::Time => "time",
        }
    }

    /// The most that there may be.
    pub fn limit(self) -> u64
        ensures { result ≡ limit_of self }
    {
        match self {
            Quantity::Repositories => 16,
            Quantity::Content => 16_777_216,
            Quantity::Contents => 268_435_456,
            Quantity::Files => 4_096,
            Quantity::Time => 1_000_000_000_000,
        }
    }
}

impl From<NoMemory> for LineFault {
    ghost use Rattle.std.specs.Prelude.{◌≡◌};
    ghost use Rattle.script_forms.specs.declared.fault.LineFault.TheVariants as faults;

    ghost from_gives = { λ _ e. e ≡ faults.NoMemory };

    fn from(_e: NoMemory) -> LineFault {
        LineFault::NoMemory
    }
}

impl From<AllocError> for LineFault {
    ghost use Rattle.std.specs.Prelude.{◌≡◌};
    ghost use Rattle.script_forms.specs.declared.fault.LineFault.TheVariants as faults;

    ghost from_gives = { λ _ e. e ≡ faults.NoMemory };

    fn from(_e: AllocError) -> LineFault {
        LineFault::NoMemory
    }
}

impl<T: Drop> From<AllocFailed<T>> for LineFault {
    ghost use Rattle.std.specs.Prelude.{◌≡◌};
    ghost use Rattle.script_forms.specs.declared.fault.LineFault.TheVariants as faults;

    ghost from_gives = { λ _ e. e ≡ faults.NoMemory };

    fn from(_e: AllocFailed<T>) -> LineFault {
        LineFault::NoMemory
    }
}

impl From<NoMemory> for ScriptFault {
    ghost use Rattle.std.specs.Prelude.{◌≡◌};
    ghost use Rattle.script_forms.specs.declared.fault.ScriptFault.TheVariants as faults;

    ghost from_gives = { λ _ e. e ≡ faults.NoMemory };

    fn from(_e: NoMemory) -> ScriptFault {
        ScriptFault::NoMemory
    }
}

impl From<AllocError> for ScriptFault {
    ghost use Rattle.std.specs.Prelude.{◌≡◌};
    ghost use Rattle.script_forms.specs.declared.fault.ScriptFault.TheVariants as faults;

    ghost from_gives = { λ _ e. e ≡ faults.NoMemory };

    fn from(_e: AllocError) -> ScriptFault {
        ScriptFault::NoMemory
    }
}
