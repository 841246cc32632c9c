//! Facts of the running jobs of a repository, over its own past: their phases, targets and ends.
#![tactic(auto)]
