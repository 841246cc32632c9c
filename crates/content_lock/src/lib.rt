//! The rows of a repository beside its store: holds, bars, and what is being filled, by tokens that must be spent.
#![tactic(auto)]

mod crossing;
mod hold;
mod holds;
mod laws;
mod refusals;
mod table;
mod tokens;

pub use laws::{others_keep_their_shares, records_tell_numbers, removals_leave_other_contents};
pub use refusals::{
    BarRefused, FillRefused, Look, RecoverRefused, RemoveRefused, Removed, ShareRefused,
};
pub use table::LockTable;
pub use tokens::{Bar, Fill, Share};
