//! The texts of runs: the report that a script's run prints.
#![tactic(auto)]

mod plans;
mod run_report;
mod shown;
mod totals;

pub use run_report::report;
