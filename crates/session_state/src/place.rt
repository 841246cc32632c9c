//! Where a session stands, and when it answers.
ghost use Rattle.std.specs.Prelude.{◌≡◌, false};
ghost use Rattle.session_state.specs.Answers.{owner_at, owner_of};

use annex_base::RepoId;
use run_data::{By, EntryKind};

/// A session's repository, the greatest version that it speaks (1 to 3), whether it gives holds to its peers, and the
/// session's client and slot.
#[derive(Clone, Copy, Debug, PartialEq, Eq)]
pub struct Place {
    pub id: RepoId,
    pub version: u8,
    pub locks: bool,
    pub peer: u32,
    pub slot: u32,
}

impl Place {
    /// For whom the session acts.
    pub fn owner(&self) -> By
        ensures { result ≡ owner_at self.now }
    {
        By::Peer {
            peer: self.peer,
            slot: self.slot,
        }
    }

    /// The entry of a close at the server's end.
    pub fn close_kind(&self) -> EntryKind
        ensures { result ≡ EntryKind.Close self.now.peer self.now.slot false }
    {
        EntryKind::Close {
            peer: self.peer,
            slot: self.slot,
            client: false,
        }
    }
}

/// Where and when a session answers: its repository's clock in milliseconds, and the number of the entry that is to be
/// made.
#[derive(Clone, Copy, Debug)]
pub struct Scene {
    pub place: Place,
    pub clock: u64,
    pub number: u64,
}

impl Scene {
    /// For whom the session acts.
    pub fn owner(&self) -> By
        ensures { result ≡ owner_of self.now }
    {
        self.place.owner()
    }
}
