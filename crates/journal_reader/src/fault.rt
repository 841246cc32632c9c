//! Why a text is no journal.
use annex_base::NoMemory;
use thiserror::Error;

/// Why a text isn't read as a journal (own).
#[derive(Clone, Copy, Debug, PartialEq, Eq, Error)]
pub enum JournalFault {
    /// The first line that is outside the format, numbered from 1; or the number behind the last line, where one is
    /// missing or has no newline at its end.
    #[error("bad line {line}")]
    BadLine { line: u64 },
    #[error("out of memory")]
    NoMemory,
}

impl From<NoMemory> for JournalFault {
    ghost use Rattle.std.specs.Prelude.{◌≡◌};
    ghost use Rattle.journal_reader.specs.declared.fault.JournalFault.TheVariants as faults;

    ghost from_gives = { λ _ e. e ≡ faults.NoMemory };

    fn from(_e: NoMemory) -> JournalFault {
        JournalFault::NoMemory
    }
}
