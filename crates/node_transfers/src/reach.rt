//! What a transfer's step reads of its repository.
ghost use Rattle.std.specs.Prelude.{◌≡◌, ◌*◌, ◌<◌, length};
ghost use Rattle.node_ends.specs.Ends.{end_at, name_of};

use node_ends::{EndId, Ends};
use transfer_worker::Here;

/// Which of how many repositories it is, and its ends.
#[derive(Drop)]
pub struct Reach<'a> {
    pub repo: u32,
    pub count: u32,
    pub ends: &'a Ends,
    ghost among: { repo < count },
    ghost links: { length ends.now ≡ count * 8 },
}

impl Here for Reach<'_> {
    ghost use Rattle.node_transfers.specs.Ready.{sight_of};

    ghost sight = { λ r. sight_of r.repo r.count r.ends.now };

    fn repo(&self) -> u32 {
        self.repo
    }

    fn count(&self) -> u32 {
        self.count
    }

    fn is_open(&self, peer: u32, slot: u32) -> bool {
        is_open(
            self.ends,
            self.count,
            EndId {
                peer,
                slot,
                client: true,
            },
        )
    }
}

/// Whether the end is open; one that isn't there isn't.
pub(crate) fn is_open(ends: &Ends, count: u32, end: EndId) -> bool
    requires { length ends.now ≡ count * 8 }
    ensures { result ≡ (end_at ends.now (name_of end)).opened }
{
    end.slot < 4 && end.peer < count && ends.is_open(end)
}
