//! The text of a run's journal.
#![tactic(auto)]

mod begun;
mod entry;
mod fields;
mod frame;
mod kind;
mod run;

pub use begun::begun_job;
pub use entry::put_entry;
pub use run::{journal, put_journal};
