//! How the ends of one running repository's connections stand, as data that is carried over its entries.
#![tactic(auto)]

mod ends;
mod side;
mod standing;

pub use ends::Ends;
pub use side::Connection;
pub use standing::Standing;
