//! One running job of a repository, as data that is carried over its entries: where it stands, and what it heard.
#![tactic(auto)]

mod hearing;
mod moves;
mod phase;
mod quiet;
mod saying;
mod talks;
mod work;

pub use phase::{Ending, Heard, Part, Phase, first_part};
pub use talks::Talk;
pub use work::Work;
