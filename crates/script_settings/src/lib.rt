//! The lines of a script that declare repositories, set what their branches say, and show something.
#![tactic(auto)]

mod settings;
mod shows;

pub use settings::{
    declare, group_wanted, number_by_path, number_setting, raw_log, set_groups, text_setting, trust,
};
pub use shows::show;
