//! Facts of what a job and the session that serves it say to each other, which the causes of refusals stand on.
#![tactic(auto)]
