//! The language of scripts: what each line says.
#![tactic(auto)]

mod applying;
mod forms;
mod laws;
mod limits;
mod numbering;
mod script;
mod standing;
mod state;

use annex_base::crosses;
pub use laws::{
    each_text_says_one_thing, first_faults_are_told, later_lines_change_no_fault,
    lines_never_want_memory, right_lines_say_their_commands,
};
pub use numbering::line_numbers;
pub use script::Script;
pub use script_commands::{Action, Agendum, BlockLine, Command, NamedKey, Showing};
pub use script_forms::{Change, Quantity, ScriptFault, change_of};
pub use standing::{commands_have_lines, commands_stand, scripts_have_few_lines};

/// It goes from thread to thread.
fn cross_threads() {
    crosses::<Script>();
}
