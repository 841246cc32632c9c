//! What a repository does, as definitions that know no past and no run: its state, its next step, and the state after an entry.
#![tactic(auto)]

mod laws;

pub use laws::{crashes_keep_contents_and_holds, steps_tell_their_calls};
pub use run_data;
