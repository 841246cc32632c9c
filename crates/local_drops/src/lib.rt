//! The steps of a local drop.
#![tactic(auto)]

mod acting;
mod needs;
mod taking;

pub use acting::act;
pub use needs::needed;
pub use taking::hear;
