//! What the calls of a table answer.
use annex_base::{Call, NoMemory};
use object_store::KeeperFault;

/// What a look at a row finds.
#[derive(Clone, Copy, Debug, PartialEq, Eq)]
pub enum Look {
    Present,
    Absent,
    Barred { job: u32 },
}

/// Why a key isn't being filled.
#[derive(Clone, Copy, Debug, PartialEq, Eq)]
pub enum FillRefused {
    /// It is being filled already.
    Busy,
    NoMemory,
}

/// Why there is no share.
#[derive(Clone, Copy, Debug, PartialEq, Eq)]
pub enum ShareRefused {
    Absent,
    Barred { job: u32 },
    StoreFault { call: Call },
    NoMemory,
}

/// Why there is no bar.
#[derive(Clone, Copy, Debug, PartialEq, Eq)]
pub enum BarRefused {
    Absent,
    Barred { job: u32 },
    /// Holds block until then, or, where there is no end, open ones. Of the open ones, or else of those of the latest end,
    /// it is the hold of least number.
    Held { hold: u64, until: Option<u64> },
    StoreFault,
    NoMemory,
}

/// What a removal by an order did.
#[derive(Clone, Copy, Debug, PartialEq, Eq)]
pub enum Removed {
    Gone,
    Absent,
}

/// Why a content isn't removed.
#[derive(Clone, Copy, Debug, PartialEq, Eq)]
pub enum RemoveRefused {
    Barred { job: u32 },
    /// As in `BarRefused`.
    Held { hold: u64, until: Option<u64> },
    StoreFault { call: Call },
}

/// Why there is no table.
#[derive(Clone, Copy, Debug, PartialEq, Eq)]
pub enum RecoverRefused {
    StoreFault,
    NoMemory,
}

impl From<NoMemory> for FillRefused {
    ghost use Rattle.std.specs.Prelude.{◌≡◌};
    ghost use Rattle.content_lock.specs.declared.refusals.FillRefused.TheVariants as refused;

    ghost from_gives = { λ _ e. e ≡ refused.NoMemory };

    fn from(_e: NoMemory) -> FillRefused {
        FillRefused::NoMemory
    }
}

impl From<NoMemory> for ShareRefused {
    ghost use Rattle.std.specs.Prelude.{◌≡◌};
    ghost use Rattle.content_lock.specs.declared.refusals.ShareRefused.TheVariants as refused;

    ghost from_gives = { λ _ e. e ≡ refused.NoMemory };

    fn from(_e: NoMemory) -> ShareRefused {
        ShareRefused::NoMemory
    }
}

impl From<KeeperFault> for ShareRefused {
    ghost use Rattle.std.specs.Prelude.{◌≡◌};
    ghost use Rattle.content_lock.specs.Looks.{hold_fault};

    ghost from_gives = { λ fault e. e ≡ hold_fault fault };

    /// Why there is no share, where the store didn't keep the record of its hold.
    fn from(fault: KeeperFault) -> ShareRefused {
        match fault {
            KeeperFault::Failed => ShareRefused::StoreFault { call: Call::Hold },
            KeeperFault::NoMemory => ShareRefused::NoMemory,
        }
    }
}

impl From<NoMemory> for BarRefused {
    ghost use Rattle.std.specs.Prelude.{◌≡◌};
    ghost use Rattle.content_lock.specs.declared.refusals.BarRefused.TheVariants as refused;

    ghost from_gives = { λ _ e. e ≡ refused.NoMemory };

    fn from(_e: NoMemory) -> BarRefused {
        BarRefused::NoMemory
    }
}

impl From<NoMemory> for RecoverRefused {
    ghost use Rattle.std.specs.Prelude.{◌≡◌};
    ghost use Rattle.content_lock.specs.declared.refusals.RecoverRefused.TheVariants as refused;

    ghost from_gives = { λ _ e. e ≡ refused.NoMemory };

    fn from(_e: NoMemory) -> RecoverRefused {
        RecoverRefused::NoMemory
    }
}
