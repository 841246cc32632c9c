//! Why a call of a node was refused.
use annex_base::NoMemory;
use std::alloc::{AllocError, AllocFailed};

/// Why a node didn't do, or didn't finish, what a script asked of it (own).
#[derive(Clone, Copy, Debug, PartialEq, Eq)]
pub enum NodeRefused {
    /// Its history has 100,000 entries.
    Full,
    /// A call of its store failed, and an entry says which.
    StoreFault,
    /// The text is no bundle; the place is that of the first wrong byte, from 0.
    BadBundle { at: u64 },
    /// Memory ran out.
    NoMemory,
}

impl From<NoMemory> for NodeRefused {
    ghost use Rattle.std.specs.Prelude.{◌≡◌};
    ghost use Rattle.node_past.specs.declared.refused.NodeRefused.TheVariants as refusals;

    ghost from_gives = { λ _ e. e ≡ refusals.NoMemory };

    fn from(_e: NoMemory) -> NodeRefused {
        NodeRefused::NoMemory
    }
}

impl From<AllocError> for NodeRefused {
    ghost use Rattle.std.specs.Prelude.{◌≡◌};
    ghost use Rattle.node_past.specs.declared.refused.NodeRefused.TheVariants as refusals;

    ghost from_gives = { λ _ e. e ≡ refusals.NoMemory };

    fn from(_e: AllocError) -> NodeRefused {
        NodeRefused::NoMemory
    }
}

impl<T: Drop> From<AllocFailed<T>> for NodeRefused {
    ghost use Rattle.std.specs.Prelude.{◌≡◌};
    ghost use Rattle.node_past.specs.declared.refused.NodeRefused.TheVariants as refusals;

    ghost from_gives = { λ _ e. e ≡ refusals.NoMemory };

    fn from(_e: AllocFailed<T>) -> NodeRefused {
        NodeRefused::NoMemory
    }
}
