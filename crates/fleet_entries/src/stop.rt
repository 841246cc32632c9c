//! Why a fleet stops at a line.
use annex_base::NoMemory;
use std::alloc::{AllocError, AllocFailed};

/// Why a fleet didn't finish a line (own).
#[derive(Clone, Copy, Debug, PartialEq, Eq)]
pub enum FleetStop {
    /// The history of this repository has 100,000 entries, or fewer places left than there are ends to close.
    Full { repo: u32 },
    /// Memory ran out.
    NoMemory,
}

impl From<NoMemory> for FleetStop {
    ghost use Rattle.std.specs.Prelude.{◌≡◌};
    ghost use Rattle.fleet_entries.specs.declared.stop.FleetStop.TheVariants as stops;

    ghost from_gives = { λ _ e. e ≡ stops.NoMemory };

    fn from(_e: NoMemory) -> FleetStop {
        FleetStop::NoMemory
    }
}

impl From<AllocError> for FleetStop {
    ghost use Rattle.std.specs.Prelude.{◌≡◌};
    ghost use Rattle.fleet_entries.specs.declared.stop.FleetStop.TheVariants as stops;

    ghost from_gives = { λ _ e. e ≡ stops.NoMemory };

    fn from(_e: AllocError) -> FleetStop {
        FleetStop::NoMemory
    }
}

impl<T: Drop> From<AllocFailed<T>> for FleetStop {
    ghost use Rattle.std.specs.Prelude.{◌≡◌};
    ghost use Rattle.fleet_entries.specs.declared.stop.FleetStop.TheVariants as stops;

    ghost from_gives = { λ _ e. e ≡ stops.NoMemory };

    fn from(_e: AllocFailed<T>) -> FleetStop {
        FleetStop::NoMemory
    }
}
