//! What a repository has beside its rows, ends, sessions and jobs, and what it writes for a script, a job or a peer: its store, its
//! branch, its history, and the lines that it owes the branch.
#![tactic(auto)]

mod compacting;
mod ledger;
mod logs;
mod merging;
mod owed;
mod placing;
mod stamped;
mod writing;

pub use ledger::Ledger;
