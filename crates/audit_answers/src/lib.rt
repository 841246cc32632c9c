//! What the program answers to a journal that is audited: the texts that are due.
#![tactic(auto)]

mod due;
mod laws;
mod texts;

pub use due::{INPUT_LIMIT, audit_due};
pub use laws::no_two_answers_are_due_for_a_journal;
