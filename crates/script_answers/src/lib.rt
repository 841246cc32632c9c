//! What the program answers to a script, but for the running: the texts that are due, and how a text is read and written.
#![tactic(auto)]

mod due;
mod laws;
mod ran;
mod status;
mod storms;
mod whole;
mod words;

pub use due::{Due, complaint_due, limit_due, missing_due, report_due};
pub use laws::{
    cut_script_runs_have_a_full_history, good_storms_keep_their_keys,
    one_answer_is_due_for_every_text,
};
pub use ran::{ENTRY_LIMIT, Ran};
pub use status::Status;
pub use storms::{Storm, storm_due, storm_of};
pub use whole::{ReadStop, SCRIPT_LIMIT, read_whole, write_whole};
pub use words::{is_audit, is_run};
