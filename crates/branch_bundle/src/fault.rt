//! The reasons why a text is no bundle.
use annex_base::NoMemory;
use std::alloc::{AllocError, AllocFailed};
use thiserror::Error;

/// Why a text isn't read as a bundle (own).
#[derive(Clone, Copy, Debug, PartialEq, Eq, Error)]
pub enum BundleFault {
    /// The text is no bundle. Some bundle begins with what stands before this place, in bytes from 0, and none begins
    /// with that and the byte at the place. At the text's end, the bundle is cut short.
    #[error("bad bundle at {at}")]
    BadBundle { at: u64 },
    /// Memory ran out.
    #[error("out of memory")]
    NoMemory,
}

impl From<AllocError> for BundleFault {
    ghost use Rattle.std.specs.Prelude.{◌≡◌};
    ghost use Rattle.branch_bundle.specs.declared.fault.BundleFault.TheVariants as faults;

    ghost from_gives = { λ _ e. e ≡ faults.NoMemory };

    fn from(_e: AllocError) -> BundleFault {
        BundleFault::NoMemory
    }
}

impl<T: Drop> From<AllocFailed<T>> for BundleFault {
    ghost use Rattle.std.specs.Prelude.{◌≡◌};
    ghost use Rattle.branch_bundle.specs.declared.fault.BundleFault.TheVariants as faults;

    ghost from_gives = { λ _ e. e ≡ faults.NoMemory };

    fn from(_e: AllocFailed<T>) -> BundleFault {
        BundleFault::NoMemory
    }
}

impl From<NoMemory> for BundleFault {
    ghost use Rattle.std.specs.Prelude.{◌≡◌};
    ghost use Rattle.branch_bundle.specs.declared.fault.BundleFault.TheVariants as faults;

    ghost from_gives = { λ _ e. e ≡ faults.NoMemory };

    fn from(_e: NoMemory) -> BundleFault {
        BundleFault::NoMemory
    }
}
