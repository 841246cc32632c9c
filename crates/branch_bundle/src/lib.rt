//! A branch as one text, as it travels from repository to repository.
#![tactic(auto)]

mod crossing;
mod fault;
mod laws;
mod parts;
mod place;
mod printing;
mod reading;

pub use fault::BundleFault;
pub use laws::bundles_are_exact;
pub use printing::bundle;
pub use reading::read_bundle;
