//! What a job's step reads of its repository.
ghost use Rattle.std.specs.Prelude.{◌≡◌, ◌*◌, length};
ghost use Rattle.node_ends.specs.Ends.{end_at, name_of};

use crate::known::KnownLogs;
use crate::place::{Clock, Place};
use annex_base::Text;
use drop_proof::Need;
use drop_worker::{Here, Standing, Time};
use node_ends::{EndId, Ends};

/// The set-up, the clock, what the job has read of the logs, and the ends.
#[derive(Drop)]
pub(crate) struct Desk<'a> {
    pub place: &'a Place,
    pub clock: Clock,
    pub known: &'a KnownLogs,
    pub ends: &'a Ends,
    ghost count: { length ends.now ≡ length place.now.ids * 8 },
}

impl Here for Desk<'_> {
    ghost use Rattle.node_ends.specs.Ends.{end_at};
    ghost use Rattle.node_drops.specs.Reads.{reading_of};

    ghost reading = { λ d. reading_of d.place.now d.clock d.known.now };

    ghost ends = { λ d. end_at d.ends.now };

    fn repo(&self) -> u32 {
        self.place.number()
    }

    fn count(&self) -> u32 {
        self.place.count()
    }

    fn clock(&self, time: Time) -> u64 {
        self.clock.read(time)
    }

    fn need(&self) -> Need {
        self.known.need()
    }

    fn required(&self) -> Option<&Text> {
        self.known.required()
    }

    fn standing(&self, repo: u32) -> Standing {
        self.known.standing(repo)
    }

    fn is_open(&self, peer: u32, slot: u32) -> bool {
        is_open(
            self.ends,
            self.place.count(),
            EndId {
                peer,
                slot,
                client: true,
            },
        )
    }
}

/// Whether the end is open; one that isn't there isn't.
fn is_open(ends: &Ends, count: u32, end: EndId) -> bool
    requires { length ends.now ≡ count * 8 }
    ensures { result ≡ (end_at ends.now (name_of end)).opened }
{
    end.slot < 4 && end.peer < count && ends.is_open(end)
}
