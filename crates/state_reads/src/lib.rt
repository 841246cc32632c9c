//! What the drops of one running repository have read of its logs, as data that is carried over its entries.
#![tactic(auto)]

mod begun;
mod kept;
mod known;
mod reading;
mod reads;
mod standing;

pub use kept::Kept;
pub use known::KnownLogs;
pub use reading::read_settings;
pub use reads::Reads;
pub use standing::Standing;
