//! What a session reads.
ghost use Rattle.std.specs.Prelude.{◌<◌, ◌^◌};

use annex_base::RepoId;
use run_data::{Entry, RepoView};
use state_rows::Rows;
use step_effects::EndAt;
use step_state::RepoState;

/// What a session reads: its end, at which its reply is sent, what its repository is, what the clock says, in milliseconds, the
/// number of the entry that is to be made, the rows, and the entry that is judged.
#[derive(Drop)]
pub struct Scene<'a> {
    pub at: EndAt,
    pub id: RepoId,
    pub version: u8,
    pub locks: bool,
    pub clock: u128,
    pub number: u64,
    pub rows: &'a Rows,
    pub repos: &'a [RepoView],
    pub state: &'a RepoState,
    pub told: &'a Entry,
    ghost early: { clock < 2 ^ 65 },
}
