//! Plans: what a repository is to do so that it and its peers have the contents that they want, and no others.
#![tactic(auto)]

mod adding;
mod par_plans;
mod placement;
mod plans;

pub use par_plans::par_plan;
pub use plans::plan;
