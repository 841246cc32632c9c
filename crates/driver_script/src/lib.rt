//! Which scripts can be driven: the forms of line that are built.
#![tactic(auto)]

mod forms;
mod laws;

pub use forms::{first_missing, runs};
pub use laws::{
    added_contents_match, bytes_are_matched, lines_wait_as_long, scripts_are_built_or_not,
    scripts_may_be_driven, scripts_run_or_miss_a_form, settings_are_plain,
};
