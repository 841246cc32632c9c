//! The rules of a run, decided entry by entry: whether an entry may come next, or which rule it breaks.
#![tactic(auto)]

mod allowed;
mod broken;
mod laws;
mod member;
mod paths;
mod run_state;
mod trees;
mod wanted;
mod words;

pub use allowed::step_allowed;
pub use laws::{runs_end_where_a_rule_is_broken, starts_of_runs_break_no_rule};
pub use run_state::RunState;
pub use wanted::Wanted;
