//! Whether an entry is the step of a get or a copy, by the data of its repository's state.
#![tactic(auto)]

mod getting;
mod putting;
mod requests;
mod sources;

pub use getting::{first_get, next_get, takes_bytes, takes_get};
pub use putting::{first_put, puts_piece, takes_put};
pub use requests::{asks, goes_to};
pub use sources::next_source;
