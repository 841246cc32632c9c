//! A part that bytes come to, and the digester that takes it, for whoever fills it.
#![tactic(auto)]

mod feeding;
mod resuming;

pub use feeding::{announced, appended};
pub use resuming::resume;
