//! The forms of a script's lines: the words that tell them, what they change, and why a line is no line of a script.
#![tactic(auto)]

mod changes;
mod context;
mod fault;
mod verb;

use annex_base::crosses;
pub use changes::{Change, change_of};
pub use context::{Context, Repository, find_id, find_other, find_repository, has_id, has_name};
pub use fault::{LineFault, Quantity, ScriptFault};
pub use verb::{BlockVerb, JobVerb, LineVerb, Show, Verb};

/// These types go from thread to thread.
fn cross_threads() {
    crosses::<ScriptFault>();
    crosses::<Quantity>();
}
