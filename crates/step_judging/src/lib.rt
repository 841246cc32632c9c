//! Whether an entry is the step of a repository, decided: the look that an entry tells of, and the rule that it breaks.
#![tactic(auto)]

mod laws;

pub use laws::{
    audited_runs_keep_enough, audits_tell, judges_carry_enough, makers_tell, one_look_tells,
    rules_decide, runs_break_no_rule, steps_find_their_rows,
};
