//! The store of a repository: contents, parts, hold records and files.
#![tactic(auto)]

mod blocks;
mod by_key;
mod crossing;
mod failures;
mod file_list;
mod hold;
mod hold_list;
mod keeper;
mod laws;
mod memory;

pub use blocks::Blocks;
pub use keeper::{FailingKeeper, HoldRecord, Keeper, KeeperFault};
pub use laws::new_records_stand_first;
pub use memory::MemoryKeeper;
