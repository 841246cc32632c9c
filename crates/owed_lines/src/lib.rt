//! What owes a repository's branch a line: an entry, or what a job's peer told it.
#![tactic(auto)]

mod debt;
mod line;

pub use debt::Debt;
pub use line::ToldLine;
