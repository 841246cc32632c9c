//! What a drop reads of its repository, other than rows and contents.
ghost use Rattle.std.specs.Prelude.{◌≡◌, ◌+◌, ◌<◌, ◌^◌, true};
ghost use Rattle.std.specs.Option.{option_copied};

use crate::time::Time;
use annex_base::Text;
use drop_proof::Need;
use run_data::Cause;

/// How the logs that a job read see a repository.
#[derive(Clone, Copy, Debug, PartialEq, Eq)]
pub enum Standing {
    /// It is trusted, and claimed to have the key.
    Claimed,
    /// It is untrusted or dead.
    Ignored(Cause),
    Asked,
}

/// What a drop's step reads of its repository, other than rows and contents.
pub trait Here {
    ghost use Rattle.node_model.specs.Ends.{EndName, End};
    ghost use Rattle.node_model.specs.Knows.{Reading};
    ghost use Rattle.drop_phases.specs.Standings.{standing_of};

    /// The set-up, and the settings as the job read them.
    ghost reading: { Self → Reading };

    /// How the repository's ends stand.
    ghost ends: { Self → EndName → End };

    /// The repository's number.
    fn repo(&self) -> u32
        ensures { result ≡ (reading self.now).repo };

    /// How many repositories there are; it is one of them.
    fn count(&self) -> u32
        ensures same { result ≡ (reading self.now).count }
        ensures among { (reading self.now).repo < result };

    /// Its clock at a time, as it was set last, in milliseconds.
    fn clock(&self, time: Time) -> u64
        ensures same { result ≡ (reading self.now).clock time }
        ensures early { result + 600000 < 2 ^ 62 };

    /// The numbers of copies that must stay in other repositories.
    fn need(&self) -> Need
        ensures { result ≡ (reading self.now).need };

    /// The expression by which the target requires the content, if it does (git-annex-preferred-content).
    fn required(&self) -> Option<&Text>
        ensures { option_copied result ≡ (reading self.now).requires };

    fn standing(&self, repo: u32) -> Standing
        ensures { standing_of result ≡ (reading self.now).standing repo };

    /// Whether the client's end of the connection with a peer is open in a slot.
    fn is_open(&self, peer: u32, slot: u32) -> bool
        ensures { result ≡ (ends self.now (record { peer = peer; slot = slot; client = true })).opened };
}
