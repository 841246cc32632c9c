//! What a step of a transfer is given, what it makes, and what it leaves.
#![tactic(auto)]

mod here;
mod lines;
mod making;
mod parcels;

pub use here::Here;
pub use lines::reads;
pub use making::{closing, done, ending, failing, partings, quietly, talk, telling};
pub use parcels::{Output, Parcel, ParcelBody, Sends};
