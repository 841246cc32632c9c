//! What the lines of a script say, as plain data.
#![tactic(auto)]

mod command;
mod copying;

use annex_base::crosses;
pub use command::{Action, Agendum, BlockLine, Command, NamedKey, Showing};

/// It goes from thread to thread.
fn cross_threads() {
    crosses::<Command>();
}
